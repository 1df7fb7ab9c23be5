// The exports of quendaric for C: the archive libquendaric.a. tools/c-crate makes this file from crates/quendaric/src/lib.rt: do not edit it.
#![tactic(auto)]

ghost use Rattle.std.specs.Prelude.{◌≡◌};
ghost use Rattle.selection.specs.computed.Answer.{cell_numbers, report_numbers};
ghost use Rattle.selection.specs.computed.Bits.{check_cell_for, check_table_for, row_limits_for, make_for, repair_for};
ghost use Rattle.selection.specs.computed.Outcomes.{cell_of, report_of, row_limits_of, make_of, made_table, repair_of};
ghost use Rattle.recurrence.specs.computed.Run.{run_of};
ghost use Rattle.recurrence.specs.computed.Step.{step_of};
ghost use Rattle.recurrence.specs.computed.Visits.{visits_of};
ghost use Rattle.recurrence.specs.computed.Recheck.{affected_run_for};
ghost use Rattle.division.specs.computed.Whole.{whole_of};
ghost use Rattle.division.specs.computed.Binary64.{binary64_of};
ghost use Rattle.division.specs.computed.Samples.{samples_of};
ghost use Rattle.division.specs.computed.Recheck.{affected_for};
ghost use Rattle.division.specs.computed.RecheckWhole.{recheck_whole_for};
ghost use Rattle.division.specs.computed.Packed.{packed_of};
ghost use Rattle.division.specs.computed.Ratios.{compared_of, comparison_numbers};
ghost use Rattle.division.specs.computed.RootCalls.{root_whole_of, root_binary64_of};
ghost use Rattle.exposure.specs.computed.Outcomes.{averages_of};
ghost use Rattle.selection.specs.declared.Estimate.TheVariants.{EightBits};
ghost use Rattle.demands.specs.Calls.{told};

use division::format::Binary64;
use division::packed::Packed;
use division::ratio::Comparison;
use division::recheck::AffectedCount;
use division::root::Root;
use division::samples::Samples;
use division::whole::Whole;
use recurrence::Ran;
use recurrence::recheck::AffectedMark;
use recurrence::step::Stepped;
use selection::Refusal;
use selection::maker::Limits;
use selection::numbers::{Cell, Report};
use selection::repair::Repaired;

#[unsafe(no_mangle)]
pub extern "C" fn quendaric_check_cell(row: u64, column: u64, byte: u8) -> Cell
    ensures { result ≡ cell_numbers (cell_of EightBits row column byte) }
{
    quendaric::quendaric_check_cell(row, column, byte)
}

#[unsafe(no_mangle)]
pub extern "C" fn quendaric_check_cell_for(
    estimate_bits: u64,
    row: u64,
    column: u64,
    byte: u8,
) -> Cell
    ensures { result ≡ check_cell_for estimate_bits row column byte }
{
    quendaric::quendaric_check_cell_for(estimate_bits, row, column, byte)
}

#[unsafe(no_mangle)]
pub extern "C" fn quendaric_check_table(table: &[u8]) -> Report
    ensures { result ≡ report_numbers (report_of EightBits table.now) }
{
    quendaric::quendaric_check_table(table)
}

#[unsafe(no_mangle)]
pub extern "C" fn quendaric_check_table_for(estimate_bits: u64, table: &[u8]) -> Report
    ensures { result ≡ check_table_for estimate_bits table.now }
{
    quendaric::quendaric_check_table_for(estimate_bits, table)
}

#[unsafe(no_mangle)]
pub extern "C" fn quendaric_row_limits(row: u64) -> Limits
    ensures { result ≡ row_limits_of EightBits row }
{
    quendaric::quendaric_row_limits(row)
}

#[unsafe(no_mangle)]
pub extern "C" fn quendaric_row_limits_for(estimate_bits: u64, row: u64) -> Limits
    ensures { result ≡ row_limits_for estimate_bits row }
{
    quendaric::quendaric_row_limits_for(estimate_bits, row)
}

#[unsafe(no_mangle)]
pub extern "C" fn quendaric_make_table(buffer: &mut [u8]) -> Refusal
    ensures { record { answer = result; buffer = buffer.new } ≡ make_of EightBits buffer.old }
{
    quendaric::quendaric_make_table(buffer)
}

#[unsafe(no_mangle)]
pub extern "C" fn quendaric_make_table_for(estimate_bits: u64, buffer: &mut [u8]) -> Refusal
    ensures { record { answer = result; buffer = buffer.new } ≡ make_for estimate_bits buffer.old }
{
    quendaric::quendaric_make_table_for(estimate_bits, buffer)
}

#[unsafe(no_mangle)]
pub extern "C" fn quendaric_repair_table(
    table: &[u8],
    repaired: &mut [u8],
    changed: &mut [u8],
) -> Repaired
    ensures { record { answer = result; repaired = repaired.new; changed = changed.new } ≡ repair_of EightBits table.now repaired.old changed.old }
{
    quendaric::quendaric_repair_table(table, repaired, changed)
}

#[unsafe(no_mangle)]
pub extern "C" fn quendaric_repair_table_for(
    estimate_bits: u64,
    table: &[u8],
    repaired: &mut [u8],
    changed: &mut [u8],
) -> Repaired
    ensures { record { answer = result; repaired = repaired.new; changed = changed.new } ≡ repair_for estimate_bits table.now repaired.old changed.old }
{
    quendaric::quendaric_repair_table_for(estimate_bits, table, repaired, changed)
}

#[unsafe(no_mangle)]
pub extern "C" fn quendaric_run(
    table: &[u8],
    dividend: u64,
    divisor: u64,
    digits: usize,
    buffer: &mut [u8],
    place: usize,
) -> Ran
    ensures { record { answer = result; buffer = buffer.new } ≡ run_of table.now dividend divisor digits buffer.old place }
{
    quendaric::quendaric_run(table, dividend, divisor, digits, buffer, place)
}

#[unsafe(no_mangle)]
pub extern "C" fn quendaric_run_kept(
    dividend: u64,
    divisor: u64,
    digits: usize,
    buffer: &mut [u8],
    place: usize,
) -> Ran
    ensures { record { answer = result; buffer = buffer.new } ≡ run_of (made_table EightBits) dividend divisor digits buffer.old place }
{
    quendaric::quendaric_run_kept(dividend, divisor, digits, buffer, place)
}

#[unsafe(no_mangle)]
pub extern "C" fn quendaric_step(sum: u64, carry: u64, divisor: u64, table: &[u8]) -> Stepped
    ensures { result ≡ step_of sum carry divisor table.now }
{
    quendaric::quendaric_step(sum, carry, divisor, table)
}

#[unsafe(no_mangle)]
pub extern "C" fn quendaric_divide_whole(table: &[u8], a: u64, b: u64) -> Whole
    ensures { result ≡ whole_of table.now a b }
{
    quendaric::quendaric_divide_whole(table, a, b)
}

#[unsafe(no_mangle)]
pub extern "C" fn quendaric_divide_whole_kept(a: u64, b: u64) -> Whole
    ensures { result ≡ whole_of (made_table EightBits) a b }
{
    quendaric::quendaric_divide_whole_kept(a, b)
}

#[unsafe(no_mangle)]
pub extern "C" fn quendaric_divide_binary64(
    table: &[u8],
    a: u64,
    b: u64,
    direction: u64,
) -> Binary64
    ensures { result ≡ binary64_of table.now direction a b }
{
    quendaric::quendaric_divide_binary64(table, a, b, direction)
}

#[unsafe(no_mangle)]
pub extern "C" fn quendaric_divide_binary64_kept(a: u64, b: u64, direction: u64) -> Binary64
    ensures { result ≡ binary64_of (made_table EightBits) direction a b }
{
    quendaric::quendaric_divide_binary64_kept(a, b, direction)
}

#[unsafe(no_mangle)]
pub extern "C" fn quendaric_divide_samples(
    table: &[u8],
    currents: &[u64],
    sensitivities: &[u64],
    concentrations: &mut [u64],
    direction: u64,
) -> Samples
    ensures { record { answer = result; concentrations = concentrations.new } ≡ samples_of table.now direction currents.now sensitivities.now concentrations.old }
{
    quendaric::quendaric_divide_samples(table, currents, sensitivities, concentrations, direction)
}

#[unsafe(no_mangle)]
pub extern "C" fn quendaric_affected_samples(
    estimate_bits: u64,
    table: &[u8],
    currents: &[u64],
    sensitivities: &[u64],
    affected: &mut [u8],
) -> AffectedCount
    ensures { record { answer = result; affected = affected.new } ≡ affected_for estimate_bits table.now currents.now sensitivities.now affected.old }
{
    quendaric::quendaric_affected_samples(estimate_bits, table, currents, sensitivities, affected)
}

#[unsafe(no_mangle)]
pub extern "C" fn quendaric_affected_whole(
    estimate_bits: u64,
    table: &[u8],
    a: u64,
    b: u64,
) -> AffectedMark
    ensures { result ≡ recheck_whole_for estimate_bits table.now a b }
{
    quendaric::quendaric_affected_whole(estimate_bits, table, a, b)
}

#[unsafe(no_mangle)]
pub extern "C" fn quendaric_affected_run(
    estimate_bits: u64,
    table: &[u8],
    dividend: u64,
    divisor: u64,
    digits: usize,
) -> AffectedMark
    ensures { result ≡ affected_run_for estimate_bits table.now dividend divisor digits }
{
    quendaric::quendaric_affected_run(estimate_bits, table, dividend, divisor, digits)
}

#[unsafe(no_mangle)]
pub extern "C" fn quendaric_average_windows(
    readings: &[u64],
    width: usize,
    newest_first: bool,
    means: &mut [u64],
    remainders: &mut [u64],
) -> Refusal
    ensures { record { answer = result; means = means.new; remainders = remainders.new } ≡ averages_of readings.now width newest_first means.old remainders.old }
{
    quendaric::quendaric_average_windows(readings, width, newest_first, means, remainders)
}

#[unsafe(no_mangle)]
pub extern "C" fn quendaric_divide_packed(dividend: &[u8; 8], divisor: &[u8; 8]) -> Packed
    ensures { result ≡ packed_of dividend.now divisor.now }
{
    quendaric::quendaric_divide_packed(dividend, divisor)
}

#[unsafe(no_mangle)]
pub extern "C" fn quendaric_count_visits(
    table: &[u8],
    bits: u64,
    digits: usize,
    visits: &mut [u32],
) -> Refusal
    ensures { record { answer = result; visits = visits.new } ≡ visits_of table.now bits digits visits.old }
{
    quendaric::quendaric_count_visits(table, bits, digits, visits)
}

#[unsafe(no_mangle)]
pub extern "C" fn quendaric_compare_ratios(a: u64, b: u64, c: u64, d: u64) -> Comparison
    ensures { result ≡ comparison_numbers (compared_of a b c d) }
{
    quendaric::quendaric_compare_ratios(a, b, c, d)
}

#[unsafe(no_mangle)]
pub extern "C" fn quendaric_root_whole(a: u64) -> Root
    ensures { result ≡ root_whole_of a }
{
    quendaric::quendaric_root_whole(a)
}

#[unsafe(no_mangle)]
pub extern "C" fn quendaric_root_binary64(a: u64, direction: u64) -> Binary64
    ensures { result ≡ root_binary64_of direction a }
{
    quendaric::quendaric_root_binary64(a, direction)
}

#[unsafe(no_mangle)]
pub extern "C" fn quendaric_version_3_6_0() -> Refusal
    ensures { result ≡ told 0 0 }
{
    quendaric::quendaric_version_3_6_0()
}
