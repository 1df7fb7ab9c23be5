// One step of the run by itself, for a test bench: any two words, divisor and table are tested, and the step is the run's own.
ghost use Rattle.std.specs.Prelude.{◌≡◌, ◌^◌, ◌<◌, OnOk};
ghost use Rattle.selection.specs.computed.Refusals.{first_refusal};
ghost use Rattle.recurrence.specs.computed.Step.{step_rules, step_of};
ghost use Rattle.recurrence.specs.computed.FastRun.{step_numbers};

use crate::state::{DigitRow, Multiples, RunState};
use crate::{DIVISOR_LEAST, OPERAND_MOST};
use selection::passing::passing;
use selection::{Estimate, NO_REFUSAL, Reason, Refusal, digit_of};

// The answer, as C sees it: the refusal (0: none) and its place, the digit, from -2 to 2, and the next two words, zeros where the step is refused.
#[repr(C)]
#[derive(Clone, Copy)]
pub struct Stepped {
    pub refusal: Refusal,
    pub digit: i64,
    pub sum: u64,
    pub carry: u64,
}

impl From<Result<RunState, Refusal>> for Stepped {
    ghost from_gives = { λ answer x. x ≡ step_numbers answer };

    fn from(answer: Result<RunState, Refusal>) -> Stepped {
        match answer {
            Ok(state) => Stepped {
                refusal: NO_REFUSAL,
                digit: digit_of(state.digit),
                sum: state.sum,
                carry: state.carry,
            },
            Err(refusal) => Stepped {
                refusal,
                digit: 0,
                sum: 0,
                carry: 0,
            },
        }
    }
}

// The first refusal of a step's words and divisor. Three times the remainder is never formed: it would leave 64 bits.
#[tactic(auto, unfolding(crate::specs::computed::Step::step_rules))]
fn refusal_of(sum: u64, carry: u64, divisor: u64) -> Result<(), Refusal>
    ensures refused { result ≡ first_refusal (step_rules sum carry divisor) }
    ensures taken { OnOk result (divisor < 2 ^ 61) }
{
    if divisor < DIVISOR_LEAST || OPERAND_MOST < divisor {
        return Err(Reason::Span.into());
    }
    let remainder = sum.wrapping_add(carry).cast_signed();
    if 8 * divisor / 3 < remainder.unsigned_abs() {
        return Err(Reason::Range.into());
    }
    Ok(())
}

// The state after the step, or the first refusal.
fn checked_step(sum: u64, carry: u64, divisor: u64, table: &[u8]) -> Result<RunState, Refusal>
    ensures { step_numbers result ≡ step_of sum carry divisor table.now }
{
    refusal_of(sum, carry, divisor)?;
    let table = passing(table)?;
    let row = DigitRow::of(&table, divisor);
    let multiples = Multiples::new(Estimate::EightBits, divisor);
    Ok(RunState::new(sum, carry, &multiples).next(&row, &multiples))
}

// One step of the run from any two words and divisor, through a table.
pub fn step(sum: u64, carry: u64, divisor: u64, table: &[u8]) -> Stepped
    ensures { result ≡ step_of sum carry divisor table.now }
{
    checked_step(sum, carry, divisor, table).into()
}
