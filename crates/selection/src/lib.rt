// Quotient-digit selection, the lowest layer: the check of a cell, the check of a table, its maker, its repair and the kept table.
#![tactic(auto)]

pub mod bits;
pub mod cell;
pub mod kept;
pub mod maker;
pub mod numbers;
pub mod passing;
pub mod repair;
pub mod table;

ghost use Rattle.std.specs.Prelude.{◌≡◌};
ghost use Rattle.selection.specs.Answer.{refusal, number_of_reason};
ghost use Rattle.selection.specs.computed.Answer.{refusal_of};
ghost use Rattle.selection.specs.Cell.{digit};

// The length of a table.
pub const TABLE_LENGTH: usize = 2048;

// Why a call refuses, by the numbers that C has.
#[derive(Clone, Copy, Debug, PartialEq, Eq)]
pub enum Reason {
    Cell = 1,
    Digits = 2,
    Span = 3,
    TooLarge = 4,
    ByZero = 5,
    Direction = 6,
    Room = 7,
    Length = 8,
    Byte = 9,
    BadCell = 10,
    Lists = 11,
    Width = 12,
    Reading = 13,
    Range = 14,
    Decimal = 15,
    Bits = 16,
    EstimateBits = 17,
}

impl Reason {
    // The refusal for this reason, with its place.
    pub fn at(self, place: u64) -> Refusal
        ensures { result ≡ refusal (number_of_reason self) place }
    {
        Refusal {
            number: self as u64,
            place,
        }
    }
}

// Which divider a table is for: how many of the top bits of each remainder word it adds to estimate the partial remainder.
#[derive(Clone, Copy, Debug, PartialEq, Eq)]
pub enum Estimate {
    SevenBits,
    EightBits,
}

// A point of a cell that breaks a digit.
#[derive(Clone, Copy, Debug, PartialEq, Eq)]
pub struct Witness {
    pub divisor: u64,
    pub remainder: i64,
}

// A refusal, as C sees it: its number (0: none) and its place.
#[repr(C)]
#[derive(Clone, Copy, Debug, PartialEq, Eq)]
pub struct Refusal {
    pub number: u64,
    pub place: u64,
}

pub const NO_REFUSAL: Refusal = Refusal {
    number: 0,
    place: 0,
};

// The place of a refusal is 0 where its reason has none.
impl From<Reason> for Refusal {
    ghost from_gives = { λ reason f. f ≡ refusal (number_of_reason reason) 0 };

    fn from(reason: Reason) -> Refusal {
        reason.at(0)
    }
}

// What C sees of a call that gives no value besides.
impl From<Result<(), Refusal>> for Refusal {
    ghost from_gives = { λ answer f. f ≡ refusal_of answer };

    fn from(answer: Result<(), Refusal>) -> Refusal {
        match answer {
            Ok(()) => NO_REFUSAL,
            Err(refusal) => refusal,
        }
    }
}

// The digit q that a byte holds as q + 2.
#[tactic(auto, unfolding(crate::specs::Cell::digit))]
pub fn digit_of(byte: u8) -> i64
    ensures { result ≡ digit byte }
{
    i64::from(byte) - 2
}
