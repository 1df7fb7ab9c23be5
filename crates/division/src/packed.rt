// Packed decimal numbers divided over the kept table: sixteen digits in eight bytes, two a byte, the higher in the high four bits, the first byte highest.
ghost use Rattle.std.specs.Prelude.{◌≡◌, ◌≤◌, ◌++◌, position};
ghost use Rattle.division.specs.Packed.{two_digits, packed_number};
ghost use Rattle.division.specs.computed.Packed.{packed_bytes, is_above9, packed_numbers, packed_of};

use crate::whole::{WholeOperands, WholeResult};
use selection::passing::KeptTable;
use selection::{NO_REFUSAL, Reason, Refusal};

// The answer, as C sees it: the refusal (0: none) and its place, quotient and remainder in bytes, zeros where the call refuses.
#[repr(C)]
#[derive(Clone, Copy)]
pub struct Packed {
    pub refusal: Refusal,
    pub quotient: [u8; 8],
    pub remainder: [u8; 8],
}

impl From<Result<WholeResult, Refusal>> for Packed {
    ghost from_gives = { λ answer x. x ≡ packed_numbers answer };

    fn from(answer: Result<WholeResult, Refusal>) -> Packed {
        match answer {
            Ok(x) => Packed {
                refusal: NO_REFUSAL,
                quotient: bytes_of(x.quotient),
                remainder: bytes_of(x.remainder),
            },
            Err(refusal) => Packed {
                refusal,
                quotient: [0; 8],
                remainder: [0; 8],
            },
        }
    }
}

// Is a half byte above 9?
fn is_above_9(b: u8) -> bool
    ensures { result ≡ is_above9 b }
{
    9 < b / 16 || 9 < b % 16
}

// The first index of a byte with a half byte above 9, counted through dividend and then divisor.
fn first_above_9(dividend: [u8; 8], divisor: [u8; 8]) -> Option<usize>
    ensures { result ≡ position is_above9 (dividend ++ divisor) }
{
    let bytes = [dividend, divisor];
    bytes.as_flattened().iter().position(|&b| is_above_9(b))
}

// The number of a byte's two digits; half bytes may be above 9, so it is 165 at most.
fn two_digits(b: u8) -> u64
    ensures { (result ≡ two_digits b) × (result ≤ 165) }
{
    u64::from(b / 16 * 10 + b % 16)
}

// The number of eight bytes, whatever they are: the library has no packed decimal.
fn number_of(bytes: [u8; 8]) -> u64
    ensures { result ≡ packed_number bytes }
{
    let mut number = 0;
    for b in bytes {
        number = number * 100 + two_digits(b);
    }
    number
}

// The bytes of a number, the first one highest; the last one is found first. The library has no packed decimal.
fn bytes_of(number: u64) -> [u8; 8]
    ensures { result ≡ packed_bytes number }
{
    let mut bytes = [0; 8];
    let mut rest = number;
    for i in (0..8).rev() {
        let two = rest % 100;
        bytes[i] = (two / 10 * 16 + two % 10) as u8;
        rest /= 100;
    }
    bytes
}

// Quotient and remainder of two packed numbers, or the refusal.
fn divided(dividend: [u8; 8], divisor: [u8; 8]) -> Result<WholeResult, Refusal>
    ensures { packed_numbers result ≡ packed_of dividend divisor }
{
    if let Some(place) = first_above_9(dividend, divisor) {
        return Err(Reason::Decimal.at(place as u64));
    }
    let operands = WholeOperands::new(number_of(dividend), number_of(divisor))?;
    Ok(operands.divide(&KeptTable))
}

// The same as C sees it.
pub fn divide_packed(dividend: [u8; 8], divisor: [u8; 8]) -> Packed
    ensures { result ≡ packed_of dividend divisor }
{
    divided(dividend, divisor).into()
}
