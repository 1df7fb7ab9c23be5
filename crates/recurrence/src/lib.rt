// The digit recurrence, the middle layer: a quotient digit a step, read from a table by the truncated estimate of a carry-save partial remainder.
#![tactic(auto)]

pub mod one_word;
pub mod recheck;
mod state;
pub mod step;
pub mod visits;

ghost use Rattle.std.specs.Prelude.{◌≡◌, ◌+◌, ◌≤◌, length, Ok, IfOk};
ghost use Rattle.selection.specs.computed.Answer.{admission_in};
ghost use Rattle.selection.specs.computed.Refusals.{given, first_refusal};
ghost use Rattle.selection.specs.computed.Outcomes.{made_table};
ghost use Rattle.recurrence.specs.Recurrence.{Operands, digits, result_of};
ghost use Rattle.recurrence.specs.computed.Run.{longest, most_digits, span_rule, run_rules, run_numbers, run_done, run_of};
ghost use Rattle.selection.specs.declared.Estimate.TheVariants.{EightBits};

use crate::state::{DigitRow, Multiples, RunState};
use selection::passing::{KeptTable, Rows, passing};
use selection::{Estimate, NO_REFUSAL, Reason, Refusal};

// The spans: a divisor is from 2^60 to 2^61 - 1, a dividend from 0 to 2^61 - 1.
const DIVISOR_LEAST: u64 = 0x1000_0000_0000_0000;

const OPERAND_MOST: u64 = 0x1fff_ffff_ffff_ffff;

// The most digits of a run: whole-number division needs so many.
const LONGEST: usize = 31;

// The most digits that a caller may ask for.
const MOST_DIGITS: usize = 28;

// A dividend and a divisor in their spans.
#[derive(Clone, Copy)]
pub struct Division {
    pub dividend: u64,
    pub divisor: u64,
    pub ghost in_span: { Operands dividend divisor },
}

impl Division {
    // The division, where both are in their spans.
    fn new(dividend: u64, divisor: u64) -> Result<Division, Refusal>
        ensures refused { admission_in result ≡ given (span_rule dividend divisor) }
        ensures taken { IfOk result (λ x. (x.dividend ≡ dividend) × (x.divisor ≡ divisor)) }
    {
        if divisor < DIVISOR_LEAST || OPERAND_MOST < divisor || OPERAND_MOST < dividend {
            return Err(Reason::Span.into());
        }
        Ok(Division { dividend, divisor })
    }
}

// The number of digits of a run: from 1 to 31.
#[derive(Clone, Copy)]
pub struct RunLength {
    pub count: usize,
    pub ghost in_span: { (1 ≤ count) × (count ≤ longest) },
}

// The order of the fields avoids a store-forwarding stall: a copy does not load quotient and remainder, which are stored one by one, as one piece.
#[derive(Clone, Copy)]
pub struct RunResult {
    pub quotient: u64,
    pub count: usize,
    pub remainder: u64,
}

// The answer, as C sees it: the refusal (0: none) and its place, quotient, remainder and number of digits, zeros where the run is refused.
#[repr(C)]
#[derive(Clone, Copy)]
pub struct Ran {
    pub refusal: Refusal,
    pub quotient: u64,
    pub remainder: u64,
    pub digits: u64,
}

impl From<Result<RunResult, Refusal>> for Ran {
    ghost from_gives = { λ answer ran. ran ≡ run_numbers answer };

    fn from(answer: Result<RunResult, Refusal>) -> Ran {
        match answer {
            Ok(x) => Ran {
                refusal: NO_REFUSAL,
                quotient: x.quotient,
                remainder: x.remainder,
                digits: x.count as u64,
            },
            Err(refusal) => Ran {
                refusal,
                quotient: 0,
                remainder: 0,
                digits: 0,
            },
        }
    }
}

// One digit byte a step, in each byte of out, through a table.
fn run_row<T: Rows>(table: &T, division: Division, out: &mut [u8]) -> RunResult
    requires { (1 ≤ length out.old) × (length out.old ≤ longest) }
    ensures digits { out.new ≡ digits EightBits (T.table table.now) division.dividend division.divisor (length out.old) }
    ensures result { result ≡ result_of EightBits (T.table table.now) division.dividend division.divisor (length out.old) }
{
    let row = DigitRow::of(table, division.divisor);
    let multiples = Multiples::new(Estimate::EightBits, division.divisor);
    let mut state = RunState::new(division.dividend, 0, &multiples);
    for digit in out.iter_mut() {
        state = state.next(&row, &multiples);
        *digit = state.digit;
    }
    state.result(division, out.len())
}

// The result, with so many digits in the buffer from a place on.
fn run_part<T: Rows>(
    table: &T,
    division: Division,
    digits: RunLength,
    buffer: &mut [u8],
    place: usize,
) -> RunResult
    requires { place + digits.count ≤ length buffer.old }
    ensures { record { answer = run_numbers (Ok result); buffer = buffer.new } ≡ run_done (T.table table.now) division.dividend division.divisor digits.count buffer.old place }
{
    let n = digits.count;
    run_row(table, division, &mut buffer[place..place + n])
}

// The division that the arguments ask for, or their first refusal.
#[tactic(auto, unfolding(crate::specs::computed::Run::run_rules))]
fn arguments(
    dividend: u64,
    divisor: u64,
    n: usize,
    len: usize,
    place: usize,
) -> Result<Division, Refusal>
    ensures refused { admission_in result ≡ first_refusal (run_rules dividend divisor n len place) }
    ensures taken { IfOk result (λ x. (x.dividend ≡ dividend) × (x.divisor ≡ divisor) × (1 ≤ n) × (n ≤ most_digits) × (place + n ≤ len)) }
{
    if n == 0 || MOST_DIGITS < n {
        return Err(Reason::Digits.into());
    }
    let division = Division::new(dividend, divisor)?;
    if len.saturating_sub(place) < n {
        return Err(Reason::Room.into());
    }
    Ok(division)
}

// The run through a lent table, or the first refusal.
fn run_lent(
    table: &[u8],
    dividend: u64,
    divisor: u64,
    digits: usize,
    buffer: &mut [u8],
    place: usize,
) -> Result<RunResult, Refusal>
    ensures { record { answer = run_numbers result; buffer = buffer.new } ≡ run_of table.now dividend divisor digits buffer.old place }
{
    let division = arguments(dividend, divisor, digits, buffer.len(), place)?;
    let table = passing(table)?;
    let digits = RunLength { count: digits };
    Ok(run_part(&table, division, digits, buffer, place))
}

// The same through the kept table, for C's own call of it. It is known to pass: only the arguments can be refused.
fn run_through_kept(
    dividend: u64,
    divisor: u64,
    digits: usize,
    buffer: &mut [u8],
    place: usize,
) -> Result<RunResult, Refusal>
    ensures { record { answer = run_numbers result; buffer = buffer.new } ≡ run_of (made_table EightBits) dividend divisor digits buffer.old place }
{
    let division = arguments(dividend, divisor, digits, buffer.len(), place)?;
    let digits = RunLength { count: digits };
    Ok(run_part(&KeptTable, division, digits, buffer, place))
}

// Digits of dividend / divisor through a table, into the buffer from a place on.
pub fn run(
    table: &[u8],
    dividend: u64,
    divisor: u64,
    digits: usize,
    buffer: &mut [u8],
    place: usize,
) -> Ran
    ensures { record { answer = result; buffer = buffer.new } ≡ run_of table.now dividend divisor digits buffer.old place }
{
    run_lent(table, dividend, divisor, digits, buffer, place).into()
}

// The same through the kept table: C has a call for each table.
pub fn run_kept(dividend: u64, divisor: u64, digits: usize, buffer: &mut [u8], place: usize) -> Ran
    ensures { record { answer = result; buffer = buffer.new } ≡ run_of (made_table EightBits) dividend divisor digits buffer.old place }
{
    run_through_kept(dividend, divisor, digits, buffer, place).into()
}
