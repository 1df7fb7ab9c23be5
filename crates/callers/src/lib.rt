// A C program's side of the interface: each export called as C calls it, and what comes back, in numbers (Calls of the crate demands, in the order of the specification). Where an export and its contract
// are changed together, a contract here refuses it.
// Directions and numbers of bits are the numbers that C hands in.
#![tactic(auto)]

ghost use Rattle.demands.specs.Calls.{ChecksTable, ChecksCell, TellsLimits, MakesTable, Runs, RunsKept, StepsOnce, DividesWhole, DividesWholeKept, DividesBinary64, DividesBinary64Kept, DividesSamples, AveragesWindows, RootsWhole, RootsBinary64, DividesPacked, RepairsTable, CountsVisits, ComparesRatios, ChecksTableFor, ChecksCellFor, TellsLimitsFor, MakesTableFor, RepairsTableFor, AffectsSamplesFor, AffectsWholeFor, AffectsRunFor, NamesVersion};
ghost use Rattle.selection.specs.declared.Estimate.TheVariants.{EightBits};

use division::format::Binary64;
use division::packed::Packed;
use division::ratio::Comparison;
use division::recheck::AffectedCount;
use division::root::Root;
use division::samples::Samples;
use division::whole::Whole;
use recurrence::Ran;
use recurrence::recheck::AffectedMark;
use recurrence::step::Stepped;
use selection::Refusal;
use selection::maker::Limits;
use selection::numbers::{Cell, Report};
use selection::repair::Repaired;

pub fn checks_table(table: &[u8]) -> Report
    ensures { (ChecksTable EightBits) table.now result }
{
    quendaric::quendaric_check_table(table)
}

pub fn checks_cell(row: u64, column: u64, byte: u8) -> Cell
    ensures { (ChecksCell EightBits) row column byte result }
{
    quendaric::quendaric_check_cell(row, column, byte)
}

pub fn tells_limits(row: u64) -> Limits
    ensures { (TellsLimits EightBits) row result }
{
    quendaric::quendaric_row_limits(row)
}

pub fn makes_table(buffer: &mut [u8]) -> Refusal
    ensures { (MakesTable EightBits) buffer.old buffer.new result }
{
    quendaric::quendaric_make_table(buffer)
}

pub fn runs(
    table: &[u8],
    dividend: u64,
    divisor: u64,
    digits: usize,
    buffer: &mut [u8],
    place: usize,
) -> Ran
    ensures { Runs table.now dividend divisor digits buffer.old place buffer.new result }
{
    quendaric::quendaric_run(table, dividend, divisor, digits, buffer, place)
}

pub fn runs_kept(dividend: u64, divisor: u64, digits: usize, buffer: &mut [u8], place: usize) -> Ran
    ensures { RunsKept dividend divisor digits buffer.old place buffer.new result }
{
    quendaric::quendaric_run_kept(dividend, divisor, digits, buffer, place)
}

pub fn steps_once(sum: u64, carry: u64, divisor: u64, table: &[u8]) -> Stepped
    ensures { StepsOnce sum carry divisor table.now result }
{
    quendaric::quendaric_step(sum, carry, divisor, table)
}

pub fn divides_whole(table: &[u8], a: u64, b: u64) -> Whole
    ensures { DividesWhole table.now a b result }
{
    quendaric::quendaric_divide_whole(table, a, b)
}

pub fn divides_whole_kept(a: u64, b: u64) -> Whole
    ensures { DividesWholeKept a b result }
{
    quendaric::quendaric_divide_whole_kept(a, b)
}

pub fn divides_binary64(table: &[u8], a: u64, b: u64, direction: u64) -> Binary64
    ensures { DividesBinary64 table.now direction a b result }
{
    quendaric::quendaric_divide_binary64(table, a, b, direction)
}

pub fn divides_binary64_kept(a: u64, b: u64, direction: u64) -> Binary64
    ensures { DividesBinary64Kept direction a b result }
{
    quendaric::quendaric_divide_binary64_kept(a, b, direction)
}

pub fn divides_samples(
    table: &[u8],
    currents: &[u64],
    sensitivities: &[u64],
    concentrations: &mut [u64],
    direction: u64,
) -> Samples
    ensures { DividesSamples table.now direction currents.now sensitivities.now concentrations.old concentrations.new result }
{
    quendaric::quendaric_divide_samples(table, currents, sensitivities, concentrations, direction)
}

pub fn averages_windows(
    readings: &[u64],
    width: usize,
    newest_first: bool,
    means: &mut [u64],
    remainders: &mut [u64],
) -> Refusal
    ensures { AveragesWindows readings.now width newest_first means.old remainders.old means.new remainders.new result }
{
    quendaric::quendaric_average_windows(readings, width, newest_first, means, remainders)
}

pub fn roots_whole(a: u64) -> Root
    ensures { RootsWhole a result }
{
    quendaric::quendaric_root_whole(a)
}

pub fn roots_binary64(a: u64, direction: u64) -> Binary64
    ensures { RootsBinary64 direction a result }
{
    quendaric::quendaric_root_binary64(a, direction)
}

pub fn divides_packed(dividend: &[u8; 8], divisor: &[u8; 8]) -> Packed
    ensures { DividesPacked dividend.now divisor.now result }
{
    quendaric::quendaric_divide_packed(dividend, divisor)
}

pub fn repairs_table(table: &[u8], repaired: &mut [u8], changed: &mut [u8]) -> Repaired
    ensures { (RepairsTable EightBits) table.now repaired.old changed.old repaired.new changed.new result }
{
    quendaric::quendaric_repair_table(table, repaired, changed)
}

pub fn counts_visits(table: &[u8], bits: u64, digits: usize, visits: &mut [u32]) -> Refusal
    ensures { CountsVisits table.now bits digits visits.old visits.new result }
{
    quendaric::quendaric_count_visits(table, bits, digits, visits)
}

pub fn compares_ratios(a: u64, b: u64, c: u64, d: u64) -> Comparison
    ensures { ComparesRatios a b c d result }
{
    quendaric::quendaric_compare_ratios(a, b, c, d)
}

// ---- for a divider that adds so many bits of each remainder word, 7 or 8

pub fn checks_table_for(estimate_bits: u64, table: &[u8]) -> Report
    ensures { ChecksTableFor estimate_bits table.now result }
{
    quendaric::quendaric_check_table_for(estimate_bits, table)
}

pub fn checks_cell_for(estimate_bits: u64, row: u64, column: u64, byte: u8) -> Cell
    ensures { ChecksCellFor estimate_bits row column byte result }
{
    quendaric::quendaric_check_cell_for(estimate_bits, row, column, byte)
}

pub fn tells_limits_for(estimate_bits: u64, row: u64) -> Limits
    ensures { TellsLimitsFor estimate_bits row result }
{
    quendaric::quendaric_row_limits_for(estimate_bits, row)
}

pub fn makes_table_for(estimate_bits: u64, buffer: &mut [u8]) -> Refusal
    ensures { MakesTableFor estimate_bits buffer.old buffer.new result }
{
    quendaric::quendaric_make_table_for(estimate_bits, buffer)
}

pub fn repairs_table_for(
    estimate_bits: u64,
    table: &[u8],
    repaired: &mut [u8],
    changed: &mut [u8],
) -> Repaired
    ensures { RepairsTableFor estimate_bits table.now repaired.old changed.old repaired.new changed.new result }
{
    quendaric::quendaric_repair_table_for(estimate_bits, table, repaired, changed)
}

pub fn affects_samples(
    estimate_bits: u64,
    table: &[u8],
    currents: &[u64],
    sensitivities: &[u64],
    affected: &mut [u8],
) -> AffectedCount
    ensures { AffectsSamplesFor estimate_bits table.now currents.now sensitivities.now affected.old affected.new result }
{
    quendaric::quendaric_affected_samples(estimate_bits, table, currents, sensitivities, affected)
}

pub fn affects_whole(estimate_bits: u64, table: &[u8], a: u64, b: u64) -> AffectedMark
    ensures { AffectsWholeFor estimate_bits table.now a b result }
{
    quendaric::quendaric_affected_whole(estimate_bits, table, a, b)
}

pub fn affects_run(
    estimate_bits: u64,
    table: &[u8],
    dividend: u64,
    divisor: u64,
    digits: usize,
) -> AffectedMark
    ensures { AffectsRunFor estimate_bits table.now dividend divisor digits result }
{
    quendaric::quendaric_affected_run(estimate_bits, table, dividend, divisor, digits)
}

pub fn names_version() -> Refusal
    ensures { NamesVersion result }
{
    quendaric::quendaric_version_3_6_0()
}
