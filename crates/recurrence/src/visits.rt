// How often each cell is met by the runs of all operands of so many bits.
ghost use Rattle.std.specs.Prelude.{◌≡◌, ℕ, ◌-◌, ◌^◌, ◌<◌, ◌≤◌, length, OnOk};
ghost use Rattle.laws.specs.Lists.{filled};
ghost use Rattle.selection.specs.computed.Answer.{refusal_of};
ghost use Rattle.selection.specs.computed.Refusals.{first_refusal};
ghost use Rattle.recurrence.specs.computed.Visits.{visits_rules, operand, run_visits, all_visits, visits_of};
ghost use Rattle.recurrence.specs.computed.VisitSteps.{Added, Room, VisitsSpans};

use crate::state::{DigitRow, Multiples, RunState};
use crate::{Division, MOST_DIGITS};
use selection::passing::{PassingTable, passing};
use selection::table::row_start;
use selection::{Estimate, Reason, Refusal, TABLE_LENGTH};

// How many significant bits an operand may have: a number, no estimate's kind.
const MOST_BITS: u64 = 6;

// The operand whose bits after the leading one make x, the leading one at bit 60.
fn operand(bits: u64, x: u64) -> u64
    requires { (1 ≤ bits) × (bits ≤ 6) × (x < 2 ^ (bits - 1)) }
    ensures is { result ≡ operand bits x }
    ensures span { (2 ^ 60 ≤ result) × (result < 2 ^ 61) }
{
    ((1 << (bits - 1)) + x) << (61 - bits)
}

// A run of n digits: one more for the cell of each digit.
fn visit_run(table: &PassingTable<'_>, division: Division, n: usize, visits: &mut [u32])
    requires { Room n visits.old }
    ensures { Added (run_visits table.now.bytes.now division.dividend division.divisor n) visits.old visits.new }
{
    let row = DigitRow::of(table, division.divisor);
    let start = row_start(division.divisor);
    let multiples = Multiples::new(Estimate::EightBits, division.divisor);
    let mut state = RunState::new(division.dividend, 0, &multiples);
    for _ in 0..n {
        visits[start + state.column as usize] += 1;
        state = state.next(&row, &multiples);
    }
}

// Zeroes the counts. `fill` calls memset, which firmware need not have; the test keeps the compiler from calling it here.
fn clear(visits: &mut [u32])
    requires { 2048 ≤ length visits.old }
    ensures { visits.new ≡ filled (λ (c : ℕ). 0) 2048 visits.old }
{
    for count in visits[..TABLE_LENGTH].iter_mut() {
        if *count != 0 {
            *count = 0;
        }
    }
}

// The visits of all runs through a table that passes.
fn visit_all(table: &PassingTable<'_>, bits: u64, digits: usize, visits: &mut [u32])
    requires { VisitsSpans bits digits (length visits.old) }
    ensures { visits.new ≡ filled (all_visits table.now.bytes.now bits digits) 2048 visits.old }
{
    clear(visits);
    let count = 1 << (bits - 1);
    for x in 0..count {
        for y in 0..count {
            let division = Division {
                dividend: operand(bits, x),
                divisor: operand(bits, y),
            };
            visit_run(table, division, digits, visits);
        }
    }
}

// The first refusal of the arguments alone.
#[tactic(auto, unfolding(crate::specs::computed::Visits::visits_rules))]
fn refusal_of(bits: u64, digits: usize, len: usize) -> Result<(), Refusal>
    ensures refused { result ≡ first_refusal (visits_rules bits digits len) }
    ensures taken { OnOk result (VisitsSpans bits digits len) }
{
    if digits == 0 || MOST_DIGITS < digits {
        return Err(Reason::Digits.into());
    }
    if bits == 0 || MOST_BITS < bits {
        return Err(Reason::Bits.into());
    }
    if len < TABLE_LENGTH {
        return Err(Reason::Room.into());
    }
    Ok(())
}

// The visits, where nothing is refused.
fn write_visits(table: &[u8], bits: u64, digits: usize, visits: &mut [u32]) -> Result<(), Refusal>
    ensures { record { answer = refusal_of result; visits = visits.new } ≡ visits_of table.now bits digits visits.old }
{
    refusal_of(bits, digits, visits.len())?;
    let table = passing(table)?;
    visit_all(&table, bits, digits, visits);
    Ok(())
}

// For all pairs of operands of so many significant bits, each leading one at bit 60, how many of their runs' digits are taken at each cell: in the first
// 2,048 numbers of the list.
pub fn count_visits(table: &[u8], bits: u64, digits: usize, visits: &mut [u32]) -> Refusal
    ensures { record { answer = result; visits = visits.new } ≡ visits_of table.now bits digits visits.old }
{
    write_visits(table, bits, digits, visits).into()
}
