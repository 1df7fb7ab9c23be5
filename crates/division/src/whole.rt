// Whole-number division over the run.
ghost use Rattle.std.specs.Prelude.{◌≡◌, ◌^◌, ◌<◌, ◌≤◌, IfOk};
ghost use Rattle.selection.specs.computed.Answer.{admission_in};
ghost use Rattle.selection.specs.computed.Outcomes.{made_table};
ghost use Rattle.selection.specs.computed.Refusals.{first_refusal};
ghost use Rattle.division.specs.computed.WholeSteps.{WholeSpans, DivisorShift, DigitCount, WholeRunOf, whole_through};
ghost use Rattle.division.specs.computed.Whole.{whole_rules, whole_numbers, whole_of};
ghost use Rattle.selection.specs.declared.Estimate.TheVariants.{EightBits};

use recurrence::one_word::result_through;
use recurrence::{Division, RunLength};
use selection::passing::{KeptTable, Rows, passing};
use selection::{NO_REFUSAL, Reason, Refusal};

// Operands are below 2^60.
pub(crate) const OPERAND_END: u64 = 0x1000_0000_0000_0000;

// A dividend and a divisor in their spans.
#[derive(Clone, Copy)]
pub(crate) struct WholeOperands {
    pub(crate) dividend: u64,
    pub(crate) divisor: u64,
    pub(crate) ghost in_span: { WholeSpans dividend divisor },
}

// The run of a division: its operands moved up, the divisor by `shift` bits, and its number of digits.
#[derive(Clone, Copy)]
pub(crate) struct WholeRun {
    pub(crate) division: Division,
    pub(crate) digits: RunLength,
    pub(crate) shift: u32,
}

#[derive(Clone, Copy)]
pub struct WholeResult {
    pub quotient: u64,
    pub remainder: u64,
}

// The answer, as C sees it: the refusal (0: none) and its place, quotient and remainder, zeros where the call refuses.
#[repr(C)]
#[derive(Clone, Copy)]
pub struct Whole {
    pub refusal: Refusal,
    pub quotient: u64,
    pub remainder: u64,
}

impl From<Result<WholeResult, Refusal>> for Whole {
    ghost from_gives = { λ answer whole. whole ≡ whole_numbers answer };

    fn from(answer: Result<WholeResult, Refusal>) -> Whole {
        match answer {
            Ok(x) => Whole {
                refusal: NO_REFUSAL,
                quotient: x.quotient,
                remainder: x.remainder,
            },
            Err(refusal) => Whole {
                refusal,
                quotient: 0,
                remainder: 0,
            },
        }
    }
}

// How far b is moved up, for its leading one to stand at bit 60.
pub(crate) fn shift_of(b: u64) -> u32
    requires { (0 < b) × (b < 2 ^ 60) }
    ensures { DivisorShift b result }
{
    b.leading_zeros() - 3
}

// How many digits follow the first, where the divisor is moved up by s bits: as few as bring a, moved up the rest of the way, into the dividend's span.
fn digits_after(a: u64, s: u32) -> u32
    requires { (a < 2 ^ 60) × (s ≤ 60) }
    ensures { DigitCount a s result }
{
    let room = a.leading_zeros() - 3;
    s.saturating_sub(room).div_ceil(2)
}

impl WholeOperands {
    // The operands, or their refusal.
    pub(crate) fn new(dividend: u64, divisor: u64) -> Result<WholeOperands, Refusal>
        ensures refused { admission_in result ≡ first_refusal (whole_rules dividend divisor) }
        ensures taken { IfOk result (λ x. (x.dividend ≡ dividend) × (x.divisor ≡ divisor)) }
    {
        if OPERAND_END <= dividend || OPERAND_END <= divisor {
            return Err(Reason::TooLarge.into());
        }
        if divisor == 0 {
            return Err(Reason::ByZero.into());
        }
        Ok(WholeOperands { dividend, divisor })
    }

    // Their run.
    pub(crate) fn run(self) -> WholeRun
        ensures { WholeRunOf self.dividend self.divisor result }
    {
        let shift = shift_of(self.divisor);
        let after = digits_after(self.dividend, shift);
        WholeRun {
            division: Division {
                dividend: self.dividend << (shift - 2 * after),
                divisor: self.divisor << shift,
            },
            digits: RunLength {
                count: after as usize + 1,
            },
            shift,
        }
    }

    // Quotient and remainder, through a table that passes.
    pub(crate) fn divide<T: Rows>(self, table: &T) -> WholeResult
        ensures { result ≡ whole_through EightBits (T.table table.now) self.dividend self.divisor }
    {
        let run = self.run();
        let ran = result_through(table, run.division, run.digits);
        WholeResult {
            quotient: ran.quotient,
            remainder: ran.remainder >> run.shift,
        }
    }
}

// Quotient and remainder of a by b through a lent table, or the refusal.
fn divided(table: &[u8], a: u64, b: u64) -> Result<WholeResult, Refusal>
    ensures { whole_numbers result ≡ whole_of table.now a b }
{
    let operands = WholeOperands::new(a, b)?;
    let table = passing(table)?;
    Ok(operands.divide(&table))
}

// The same through the kept table, for C's own call of it.
fn divided_kept(a: u64, b: u64) -> Result<WholeResult, Refusal>
    ensures { whole_numbers result ≡ whole_of (made_table EightBits) a b }
{
    let operands = WholeOperands::new(a, b)?;
    Ok(operands.divide(&KeptTable))
}

// The answer through a lent table.
pub fn divide_whole(table: &[u8], a: u64, b: u64) -> Whole
    ensures { result ≡ whole_of table.now a b }
{
    divided(table, a, b).into()
}

// The answer through the kept table, for which C has a call: it is known to pass, and is neither checked nor copied.
pub fn divide_whole_kept(a: u64, b: u64) -> Whole
    ensures { result ≡ whole_of (made_table EightBits) a b }
{
    divided_kept(a, b).into()
}
