// Whether a run through a table as it was burned goes wrong: its row, the table, and the call.
ghost use Rattle.std.specs.Prelude.{◌≡◌, ◌^◌, ◌<◌, length, IfOk};
ghost use Rattle.selection.specs.computed.Answer.{admission_in};
ghost use Rattle.selection.specs.computed.Refusals.{first_refusal};
ghost use Rattle.recurrence.specs.computed.Recheck.{affected_run_rules, run_mark, mark_numbers, affected_run_of, affected_run_for};

use crate::state::{Multiples, RunState};
use crate::{Division, LONGEST};
use selection::table::row_of;
use selection::{Estimate, NO_REFUSAL, Reason, Refusal, TABLE_LENGTH};

// The answer of one division, as C sees it: the refusal (0: none) and its place, and 1 in `affected` if it went wrong, else 0.
#[repr(C)]
#[derive(Clone, Copy)]
pub struct AffectedMark {
    pub refusal: Refusal,
    pub affected: u64,
}

impl From<Result<u8, Refusal>> for AffectedMark {
    ghost from_gives = { λ answer x. x ≡ mark_numbers answer };

    fn from(answer: Result<u8, Refusal>) -> AffectedMark {
        match answer {
            Ok(mark) => AffectedMark {
                refusal: NO_REFUSAL,
                affected: u64::from(mark),
            },
            Err(refusal) => AffectedMark {
                refusal,
                affected: 0,
            },
        }
    }
}

// A table as it was burned: 2,048 bytes, whatever they are.
#[derive(Clone, Copy)]
pub struct BurnedTable<'a> {
    pub bytes: &'a [u8],
    pub ghost size: { length bytes.now ≡ 2048 },
}

// The mark of n steps of a divider with this estimate: 0 if every byte read is a digit and the result is right, else 1. As long as each digit leaves a
// remainder from -D to D - 1, D the divisor, the words hold it truly; after one that does not, no later digit brings it back. Only our own crates call it.
// The mark is a byte, as the list of marks has it.
pub fn run_mark(
    estimate: Estimate,
    table: &BurnedTable<'_>,
    dividend: u64,
    divisor: u64,
    n: usize,
) -> u8
    requires { divisor < 2 ^ 61 }
    ensures { result ≡ run_mark estimate table.now.bytes.now dividend divisor n }
{
    let row = row_of(table.bytes, divisor);
    let multiples = Multiples::new(estimate, divisor);
    let mut state = RunState::new(dividend, 0, &multiples);
    for _ in 0..n {
        let byte = row[state.column as usize];
        if 4 < byte || 2 * divisor <= state.left_by(byte, &multiples) {
            return 1;
        }
        state = state.step_by(byte, &multiples);
    }
    0
}

// The division that the arguments ask for, or the first refusal of them and of the table's length.
#[tactic(auto, unfolding(crate::specs::computed::Recheck::affected_run_rules))]
fn arguments(table: usize, dividend: u64, divisor: u64, n: usize) -> Result<Division, Refusal>
    ensures refused { admission_in result ≡ first_refusal (affected_run_rules table dividend divisor n) }
    ensures taken { IfOk result (λ x. (x.dividend ≡ dividend) × (x.divisor ≡ divisor) × (table ≡ 2048)) }
{
    if n == 0 || LONGEST < n {
        return Err(Reason::Digits.into());
    }
    let division = Division::new(dividend, divisor)?;
    if table != TABLE_LENGTH {
        return Err(Reason::Length.into());
    }
    Ok(division)
}

// The mark of a run, or the first refusal.
fn mark_of(
    estimate: Estimate,
    table: &[u8],
    dividend: u64,
    divisor: u64,
    digits: usize,
) -> Result<u8, Refusal>
    ensures { mark_numbers result ≡ affected_run_of estimate table.now dividend divisor digits }
{
    let division = arguments(table.len(), dividend, divisor, digits)?;
    let table = BurnedTable { bytes: table };
    Ok(run_mark(
        estimate,
        &table,
        division.dividend,
        division.divisor,
        digits,
    ))
}

// The same for a divider by the number of bits that it adds of each remainder word, 7 or 8, as C hands it in.
fn mark_for(
    bits: u64,
    table: &[u8],
    dividend: u64,
    divisor: u64,
    digits: usize,
) -> Result<u8, Refusal>
    ensures { mark_numbers result ≡ affected_run_for bits table.now dividend divisor digits }
{
    mark_of(Estimate::try_from(bits)?, table, dividend, divisor, digits)
}

// Whether a run of so many digits, through the table as it was burned, reads a byte above 4 or gives another quotient or remainder.
pub fn affected_run(
    estimate: Estimate,
    table: &[u8],
    dividend: u64,
    divisor: u64,
    digits: usize,
) -> AffectedMark
    ensures { result ≡ affected_run_of estimate table.now dividend divisor digits }
{
    mark_of(estimate, table, dividend, divisor, digits).into()
}

// The same for a divider by its number of bits: C has a call for each.
pub fn affected_run_for(
    bits: u64,
    table: &[u8],
    dividend: u64,
    divisor: u64,
    digits: usize,
) -> AffectedMark
    ensures { result ≡ affected_run_for bits table.now dividend divisor digits }
{
    mark_for(bits, table, dividend, divisor, digits).into()
}
