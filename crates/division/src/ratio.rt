// Two ratios of whole numbers compared, through repeated division of the remainders over the kept table: no product is formed.
ghost use Rattle.std.specs.Prelude.{◌≡◌, ◌*◌};
ghost use Rattle.selection.specs.computed.Refusals.{first_refusal};
ghost use Rattle.division.specs.computed.Ratios.{Ratios, comparison_of, ratios_rules, compared_of, comparison_numbers};

use crate::whole::{OPERAND_END, WholeOperands};
use selection::passing::KeptTable;
use selection::{NO_REFUSAL, Reason, Refusal};
use std::cmp::Ordering;

// The answer, as C sees it: the refusal (0: none) and its place; -1 for less, 0 for equal, 1 for greater, and 0 where the call refuses.
#[repr(C)]
#[derive(Clone, Copy)]
pub struct Comparison {
    pub refusal: Refusal,
    pub order: i64,
}

impl From<Result<Ordering, Refusal>> for Comparison {
    ghost from_gives = { λ compared answer. answer ≡ comparison_numbers compared };

    fn from(compared: Result<Ordering, Refusal>) -> Comparison {
        match compared {
            Ok(order) => Comparison {
                refusal: NO_REFUSAL,
                order: order as i64,
            },
            Err(refusal) => Comparison { refusal, order: 0 },
        }
    }
}

// How a / b compares with c / d, kept as how n / m compares with p / q. Where both have the same whole part, the remainders r and s tell: n / m compares with p / q as
// r / m with s / q, and so as q / s with m / r.
fn comparison_of(a: u64, b: u64, c: u64, d: u64) -> Ordering
    requires { Ratios a b c d }
    ensures { result ≡ comparison_of (a * d) (c * b) }
{
    let (mut n, mut m, mut p, mut q) = (a, b, c, d);
    // nothing is counted: it goes on until the remainders tell
    loop {
        let first = WholeOperands {
            dividend: n,
            divisor: m,
        };
        let second = WholeOperands {
            dividend: p,
            divisor: q,
        };
        let x = first.divide(&KeptTable);
        let y = second.divide(&KeptTable);
        let order = x.quotient.cmp(&y.quotient);
        if order.is_ne() {
            return order;
        }
        if x.remainder == 0 || y.remainder == 0 {
            return x.remainder.cmp(&y.remainder);
        }
        (n, m, p, q) = (q, y.remainder, m, x.remainder);
    }
}

// The first refusal.
fn refusal_of(a: u64, b: u64, c: u64, d: u64) -> Result<(), Refusal>
    ensures { result ≡ first_refusal (ratios_rules a b c d) }
{
    if OPERAND_END <= a || OPERAND_END <= b || OPERAND_END <= c || OPERAND_END <= d {
        return Err(Reason::TooLarge.into());
    }
    if b == 0 || d == 0 {
        return Err(Reason::ByZero.into());
    }
    Ok(())
}

// a / b against c / d.
pub fn compare_ratios(a: u64, b: u64, c: u64, d: u64) -> Result<Ordering, Refusal>
    ensures { result ≡ compared_of a b c d }
{
    refusal_of(a, b, c, d)?;
    Ok(comparison_of(a, b, c, d))
}

// The same in numbers.
pub fn comparison_numbers(a: u64, b: u64, c: u64, d: u64) -> Comparison
    ensures { result ≡ comparison_numbers (compared_of a b c d) }
{
    compare_ratios(a, b, c, d).into()
}
