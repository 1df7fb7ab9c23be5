// The C interface: thin exports of the three layers and of the averages. A slice is a pointer and a length; an answer comes back as the layer's own struct.
// tools/prototypes makes answers and calls of include/quendaric.h from here: the comment of an export is that of its call, the comment of a `use` that of the answer.
// An export whose answer is a mere refusal says behind `->` how C names it, and at its first call what it then tells.
// C hands in directions and numbers of bits as numbers, and has names of their own for the calls through the kept table and for those by a number of bits.
#![tactic(auto)]

ghost use Rattle.std.specs.Prelude.{◌≡◌};
ghost use Rattle.selection.specs.computed.Answer.{cell_numbers, report_numbers};
ghost use Rattle.selection.specs.computed.Bits.{check_cell_for, check_table_for, row_limits_for, make_for, repair_for};
ghost use Rattle.selection.specs.computed.Outcomes.{cell_of, report_of, row_limits_of, make_of, made_table, repair_of};
ghost use Rattle.recurrence.specs.computed.Run.{run_of};
ghost use Rattle.recurrence.specs.computed.Step.{step_of};
ghost use Rattle.recurrence.specs.computed.Visits.{visits_of};
ghost use Rattle.recurrence.specs.computed.Recheck.{affected_run_for};
ghost use Rattle.division.specs.computed.Whole.{whole_of};
ghost use Rattle.division.specs.computed.Binary64.{binary64_of};
ghost use Rattle.division.specs.computed.Samples.{samples_of};
ghost use Rattle.division.specs.computed.Recheck.{affected_for};
ghost use Rattle.division.specs.computed.RecheckWhole.{recheck_whole_for};
ghost use Rattle.division.specs.computed.Packed.{packed_of};
ghost use Rattle.division.specs.computed.Ratios.{compared_of, comparison_numbers};
ghost use Rattle.division.specs.computed.RootCalls.{root_whole_of, root_binary64_of};
ghost use Rattle.exposure.specs.computed.Outcomes.{averages_of};
ghost use Rattle.selection.specs.declared.Estimate.TheVariants.{EightBits};
ghost use Rattle.demands.specs.Calls.{told};
// pattern is the 64 bits of the result.
use division::format::Binary64;
// quotient and remainder have sixteen decimal digits each, two in a byte.
use division::packed::Packed;
// order is -1 where a / b is less than c / d, 0 where the two are equal, and 1 where a / b is greater.
use division::ratio::Comparison;
// count is the number of affected samples.
use division::recheck::AffectedCount;
// remainder is a - root * root.
use division::root::Root;
// flags is the sum of the flags that at least one sample raised. count is the number of samples.
use division::samples::Samples;
// a = quotient * b + remainder, with remainder < b.
use division::whole::Whole;
// digits is the number of digits that were written.
use recurrence::Ran;
// affected is 1 where the division went wrong, else 0.
use recurrence::recheck::AffectedMark;
// digit is from -2 to 2. sum and carry are the next two words.
use recurrence::step::Stepped;
use selection::{Estimate, Refusal};
// limits holds the columns at which the digits -2, -1, 0, 1, 2 and then 0 again begin.
use selection::maker::Limits;
// allowed is 1 where the digit may stand in the cell and 0 where it may not. Where it may not, divisor and remainder
// are the least witness: a point of the cell, in units of 2^-60, from which the digit drives the remainder out of
// range. Otherwise both are 0.
use selection::numbers::Cell;
// count is the number of bad cells. row and column are those of the first bad cell, and divisor and remainder are the
// least witness against it. The table passed exactly when the refusal is 0. A count of 0 does not say so: with the
// refusals 8 and 9 no cell was examined, and the count is 0 too.
use selection::numbers::Report;
// count is the number of cells that were changed.
use selection::repair::Repaired;

// Examines one cell for a divider that adds eight bits: may the digit byte - 2 stand in it? That it may not is an
// ordinary answer, not a refusal. Writes nothing. Refuses 1, then 9 with the place 128 * row + column.
#[unsafe(no_mangle)]
pub extern "C" fn quendaric_check_cell(row: u64, column: u64, byte: u8) -> Cell
    ensures { result ≡ cell_numbers (cell_of EightBits row column byte) }
{
    selection::numbers::cell_numbers(Estimate::EightBits, row, column, byte)
}

// Does the same for a divider that adds estimate_bits bits, 7 or 8. Refuses 17, 1, 9, in this order.
#[unsafe(no_mangle)]
pub extern "C" fn quendaric_check_cell_for(
    estimate_bits: u64,
    row: u64,
    column: u64,
    byte: u8,
) -> Cell
    ensures { result ≡ check_cell_for estimate_bits row column byte }
{
    selection::bits::check_cell_for(estimate_bits, row, column, byte)
}

// Checks a table for a divider that adds eight bits. The table passed exactly when the refusal is 0. It may still be bad
// in a divider that adds seven: ask quendaric_check_table_for. Writes nothing. Refuses 8, 9, 10; with 10 alone the answer
// also has count, row, column and witness.
#[unsafe(no_mangle)]
pub extern "C" fn quendaric_check_table(table: &[u8]) -> Report
    ensures { result ≡ report_numbers (report_of EightBits table.now) }
{
    selection::numbers::table_numbers(Estimate::EightBits, table)
}

// Does the same for a divider that adds estimate_bits bits, 7 or 8. A table that passes for 7 passes for 8 too. Refuses
// 17, 8, 9, 10, in this order.
#[unsafe(no_mangle)]
pub extern "C" fn quendaric_check_table_for(estimate_bits: u64, table: &[u8]) -> Report
    ensures { result ≡ check_table_for estimate_bits table.now }
{
    selection::bits::check_table_for(estimate_bits, table)
}

// Returns the six columns at which the digits of a row of the kept table change. Writes nothing. Refuses 1.
#[unsafe(no_mangle)]
pub extern "C" fn quendaric_row_limits(row: u64) -> Limits
    ensures { result ≡ row_limits_of EightBits row }
{
    selection::maker::row_limits(Estimate::EightBits, row)
}

// Does the same for a row of the table that quendaric_make_table_for writes. Refuses 17, 1, in this order.
#[unsafe(no_mangle)]
pub extern "C" fn quendaric_row_limits_for(estimate_bits: u64, row: u64) -> Limits
    ensures { result ≡ row_limits_for estimate_bits row }
{
    selection::bits::row_limits_for(estimate_bits, row)
}

// Writes the kept table: each cell gets the allowed digit that is nearest zero. It writes the first 2,048 bytes of the
// buffer and leaves later bytes as they are. Do not burn this table into a divider that adds only the top seven bits of
// each word: it is bad there. Refuses 7.
// -> quendaric_made: The table stands in the buffer.
#[unsafe(no_mangle)]
pub extern "C" fn quendaric_make_table(buffer: &mut [u8]) -> Refusal
    ensures { record { answer = result; buffer = buffer.new } ≡ make_of EightBits buffer.old }
{
    selection::maker::make_table(Estimate::EightBits, buffer)
}

// Writes the table for a divider that adds estimate_bits bits: 8 gives the kept table, 7 one that passes for either
// divider. Refuses 17, 7, in this order.
// -> quendaric_made
#[unsafe(no_mangle)]
pub extern "C" fn quendaric_make_table_for(estimate_bits: u64, buffer: &mut [u8]) -> Refusal
    ensures { record { answer = result; buffer = buffer.new } ≡ make_for estimate_bits buffer.old }
{
    selection::bits::make_table_for(estimate_bits, buffer)
}

// Repairs a table that was read back from a device. A bad cell, or a byte above 4, gets the digit of the kept table;
// every other byte is copied. The call writes the repaired table to the first 2,048 bytes of repaired and to those of
// changed a 1 for each cell that it changed and a 0 for each other; it leaves later bytes as they are. The repaired
// table passes the check, and no table that passes differs from the one read back in fewer cells. Both hold for a
// divider that adds eight bits: for one that adds seven a repaired table may be bad. Neither buffer may overlap the
// table or the other buffer, so a table cannot be repaired in place. Refuses 7, 8, and never 9 or 10.
#[unsafe(no_mangle)]
pub extern "C" fn quendaric_repair_table(
    table: &[u8],
    repaired: &mut [u8],
    changed: &mut [u8],
) -> Repaired
    ensures { record { answer = result; repaired = repaired.new; changed = changed.new } ≡ repair_of EightBits table.now repaired.old changed.old }
{
    selection::repair::repair_table(Estimate::EightBits, table, repaired, changed)
}

// Does the same for a divider that adds estimate_bits bits, 7 or 8: which cells are bad, the digit that a changed cell
// gets, and that the repaired table passes with the fewest changes are all for that divider. The digit is that of the
// table that quendaric_make_table_for writes. Refuses 17, 7, 8, in this order, and never 9 or 10.
#[unsafe(no_mangle)]
pub extern "C" fn quendaric_repair_table_for(
    estimate_bits: u64,
    table: &[u8],
    repaired: &mut [u8],
    changed: &mut [u8],
) -> Repaired
    ensures { record { answer = result; repaired = repaired.new; changed = changed.new } ≡ repair_for estimate_bits table.now repaired.old changed.old }
{
    selection::bits::repair_table_for(estimate_bits, table, repaired, changed)
}

// Divides digit by digit through the table: a run. It computes 1 to 28 quotient digits of dividend / divisor, such that
// dividend * 4^(digits - 1) = quotient * divisor + remainder with remainder < divisor. The dividend is below 2^61, and
// the divisor is 2^60 or more and below 2^61. The call writes the digits, each as q + 2 and the first digit first, to
// buffer[place] to buffer[place + digits - 1] and writes no other byte. The buffer may not overlap the table. The call
// checks the table each time. Refuses 2, 3, 7, 8, 9, 10.
#[unsafe(no_mangle)]
pub extern "C" fn quendaric_run(
    table: &[u8],
    dividend: u64,
    divisor: u64,
    digits: usize,
    buffer: &mut [u8],
    place: usize,
) -> Ran
    ensures { record { answer = result; buffer = buffer.new } ≡ run_of table.now dividend divisor digits buffer.old place }
{
    recurrence::run(table, dividend, divisor, digits, buffer, place)
}

// Does the same through the kept table. Refuses 2, 3, 7.
#[unsafe(no_mangle)]
pub extern "C" fn quendaric_run_kept(
    dividend: u64,
    divisor: u64,
    digits: usize,
    buffer: &mut [u8],
    place: usize,
) -> Ran
    ensures { record { answer = result; buffer = buffer.new } ≡ run_of (made_table EightBits) dividend divisor digits buffer.old place }
{
    recurrence::run_kept(dividend, divisor, digits, buffer, place)
}

// Makes one step of a run from any two words. The remainder P is sum + carry modulo 2^64, read as signed; the next two
// words add up to 4 * (P - digit * divisor). If you begin with sum = dividend and carry = 0 and pass each returned pair
// back with the same divisor and table, you get the digits of the run. The divisor is 2^60 or more and below 2^61.
// Writes nothing. The call checks the table each time. Refuses 3, 14, 8, 9, 10.
#[unsafe(no_mangle)]
pub extern "C" fn quendaric_step(sum: u64, carry: u64, divisor: u64, table: &[u8]) -> Stepped
    ensures { result ≡ step_of sum carry divisor table.now }
{
    recurrence::step::step(sum, carry, divisor, table)
}

// Divides whole numbers below 2^60 through the table: a = quotient * b + remainder with remainder < b. Writes nothing.
// The call checks the table each time. Refuses 4, 5, 8, 9, 10.
#[unsafe(no_mangle)]
pub extern "C" fn quendaric_divide_whole(table: &[u8], a: u64, b: u64) -> Whole
    ensures { result ≡ whole_of table.now a b }
{
    division::whole::divide_whole(table, a, b)
}

// Does the same through the kept table. Refuses 4, 5.
#[unsafe(no_mangle)]
pub extern "C" fn quendaric_divide_whole_kept(a: u64, b: u64) -> Whole
    ensures { result ≡ whole_of (made_table EightBits) a b }
{
    division::whole::divide_whole_kept(a, b)
}

// Divides two IEEE 754 binary64 numbers, given by their 64 bits, through the table and rounds once in the direction.
// The flags are IEEE 754's, with tininess detected before rounding. A NaN operand gives 7FF8000000000000, and the flag
// invalid exactly if an operand is a signalling NaN. Writes nothing. The call checks the table each time, whatever the
// operands. Refuses 6, 8, 9, 10; the pattern is then 0, which reads as 0.0, so test the refusal first.
#[unsafe(no_mangle)]
pub extern "C" fn quendaric_divide_binary64(
    table: &[u8],
    a: u64,
    b: u64,
    direction: u64,
) -> Binary64
    ensures { result ≡ binary64_of table.now direction a b }
{
    division::binary64::divide_binary64(table, a, b, direction)
}

// Does the same through the kept table. Refuses 6, with the pattern 0.
#[unsafe(no_mangle)]
pub extern "C" fn quendaric_divide_binary64_kept(a: u64, b: u64, direction: u64) -> Binary64
    ensures { result ≡ binary64_of (made_table EightBits) direction a b }
{
    division::binary64::divide_binary64_kept(a, b, direction)
}

// Divides a run of samples through a table that it checks once, also where the run is empty. concentrations[j] becomes
// the pattern that quendaric_divide_binary64 gives for currents[j] / sensitivities[j], for every j below
// currents_length; later words keep their contents. concentrations may overlap neither the table nor another list.
// Refuses 6, 11, 7, 8, 9, 10, in this order.
#[unsafe(no_mangle)]
pub extern "C" fn quendaric_divide_samples(
    table: &[u8],
    currents: &[u64],
    sensitivities: &[u64],
    concentrations: &mut [u64],
    direction: u64,
) -> Samples
    ensures { record { answer = result; concentrations = concentrations.new } ≡ samples_of table.now direction currents.now sensitivities.now concentrations.old }
{
    division::samples::divide_samples(table, currents, sensitivities, concentrations, direction)
}

// Finds the records that a wrong table made wrong. The table is the one that was burned, with its bad cells: no byte of it
// is refused. estimate_bits is how many bits of each remainder word the divider adds that filed the records, 7 or 8: the
// two read different cells, so there is no default. The call writes affected[j] for every j below currents_length: 0 if
// each byte that 28 steps of currents[j] / sensitivities[j] read in this table is 4 or less and the quotient and remainder
// that these digits form are right, else 1. count is the number of ones. Where affected[j] is 0, the pattern and the flags
// that are formed from the burned table's own digits are those of IEEE 754, in every direction. Where it is 1, the
// quotient of the 28 digits is wrong, or a byte above 4 was read; rounded to a binary64 such a quotient may still be the
// right one. A sample with a zero, an infinity or a NaN takes no digit, and its mark is 0. All this is said of a divider
// that steps as this unit does and corrects by the sign of its last remainder. Later bytes of affected keep their
// contents. affected may overlap nothing else. Beside a refusal nothing is written, and a count of 0 does not say that no
// sample is affected. Refuses 17, 11, 7, 8, in this order.
#[unsafe(no_mangle)]
pub extern "C" fn quendaric_affected_samples(
    estimate_bits: u64,
    table: &[u8],
    currents: &[u64],
    sensitivities: &[u64],
    affected: &mut [u8],
) -> AffectedCount
    ensures { record { answer = result; affected = affected.new } ≡ affected_for estimate_bits table.now currents.now sensitivities.now affected.old }
{
    division::recheck::affected_samples_for(estimate_bits, table, currents, sensitivities, affected)
}

// Does the same for one division of whole numbers below 2^60: affected is 1 exactly if the quotient or the remainder of
// a / b, formed from the digits of the table as it was burned, is wrong, or a byte above 4 was read. This is for a divider
// that shifts its operands left as quendaric_divide_whole does and takes exactly (d + 1) / 2 + 1 digits, the half rounded
// down, where d is by how many bits a is longer than b, or 0 where it is not longer; for another one, as this unit was
// before version 2.2.2, take quendaric_affected_run. Writes nothing. Refuses 17, 4, 5, 8.
#[unsafe(no_mangle)]
pub extern "C" fn quendaric_affected_whole(
    estimate_bits: u64,
    table: &[u8],
    a: u64,
    b: u64,
) -> AffectedMark
    ensures { result ≡ recheck_whole_for estimate_bits table.now a b }
{
    division::recheck::affected_whole_for(estimate_bits, table, a, b)
}

// Does the same for one run of 1 to 31 digits: affected is 0 exactly if each byte that its steps read in the table as it
// was burned is 4 or less and the quotient and remainder that these digits form are those of
// dividend * 4^(digits - 1) / divisor, else 1. Dividend and divisor are those with which the divider begins, as in
// quendaric_run. Writes nothing. Refuses 17, then 2 where digits is 0 or above 31, then 3, 8.
#[unsafe(no_mangle)]
pub extern "C" fn quendaric_affected_run(
    estimate_bits: u64,
    table: &[u8],
    dividend: u64,
    divisor: u64,
    digits: usize,
) -> AffectedMark
    ensures { result ≡ affected_run_for estimate_bits table.now dividend divisor digits }
{
    recurrence::recheck::affected_run_for(estimate_bits, table, dividend, divisor, digits)
}

// Averages readings over a sliding window. The readings are parts per billion below 2^40. For every full window of
// width readings the call writes the mean, rounded down, and what rounding left over: means[j] * width + remainders[j]
// is the sum of the window's readings, with remainders[j] < width. The oldest window comes first, whichever way the
// readings are ordered: where newest_first is false, window j begins at readings[j]; where it is true, window j ends at
// readings[readings_length - 1 - j]. j goes from 0 to readings_length - width, and later words of both lists keep their
// contents. With one reading a second, fifteen minutes are a width of 900. The call divides through the kept table.
// means and remainders may overlap neither the readings nor each other: an average cannot replace its reading in place.
// Refuses 12, 13, 7, in this order; the place of 13 is an index of readings.
// Pass true or false for newest_first. C and C++ convert every number to one of the two, but another language can pass
// any byte. No proof speaks of a byte above 1; this archive goes by its lowest bit, so that an odd byte is true.
// -> quendaric_averages: The means and the remainders stand in the two lists.
#[unsafe(no_mangle)]
pub extern "C" fn quendaric_average_windows(
    readings: &[u64],
    width: usize,
    newest_first: bool,
    means: &mut [u64],
    remainders: &mut [u64],
) -> Refusal
    ensures { record { answer = result; means = means.new; remainders = remainders.new } ≡ averages_of readings.now width newest_first means.old remainders.old }
{
    exposure::average_windows(readings, width, newest_first, means, remainders)
}

// Divides packed decimal numbers: sixteen digits in eight bytes, two in a byte, the higher digit in the high four bits,
// the first byte highest. dividend = quotient * divisor + remainder with remainder < divisor. Both pointers are valid
// for eight bytes, at any address, and not NULL; they may be the same. Writes nothing. The call divides through the
// kept table. Refuses 15 with the byte as its place, 0 to 7 in the dividend and 8 to 15 in the divisor; then 5.
#[unsafe(no_mangle)]
pub extern "C" fn quendaric_divide_packed(dividend: &[u8; 8], divisor: &[u8; 8]) -> Packed
    ensures { result ≡ packed_of dividend.now divisor.now }
{
    division::packed::divide_packed(*dividend, *divisor)
}

// Counts how often each cell is met. It takes all 4^(bits - 1) pairs of operands that have exactly `bits` significant
// bits, 1 to 6, both with their leading one at bit 60, and runs `digits` digits, 1 to 28, of each pair through the
// table. visits[128 * row + column] becomes the number of these digits that were taken at that cell. The call writes
// the first 2,048 numbers, which add up to digits * 4^(bits - 1), and leaves later ones as they are. visits may not
// overlap the table. The call checks the table once. Refuses 2, 16, 7, 8, 9, 10, in this order.
// -> quendaric_visits: The numbers of visits stand in the list.
#[unsafe(no_mangle)]
pub extern "C" fn quendaric_count_visits(
    table: &[u8],
    bits: u64,
    digits: usize,
    visits: &mut [u32],
) -> Refusal
    ensures { record { answer = result; visits = visits.new } ≡ visits_of table.now bits digits visits.old }
{
    recurrence::visits::count_visits(table, bits, digits, visits)
}

// Compares a / b with c / d for whole numbers below 2^60: as a * d compares with c * b, with nothing rounded, so that
// qsort may go by it. Writes nothing. The call divides through the kept table. Refuses 4, then 5 where b or d is 0.
#[unsafe(no_mangle)]
pub extern "C" fn quendaric_compare_ratios(a: u64, b: u64, c: u64, d: u64) -> Comparison
    ensures { result ≡ comparison_numbers (compared_of a b c d) }
{
    division::ratio::comparison_numbers(a, b, c, d)
}

// Returns the whole square root of a number below 2^60: root * root <= a < (root + 1) * (root + 1). Writes nothing and
// uses no table. Refuses 4.
#[unsafe(no_mangle)]
pub extern "C" fn quendaric_root_whole(a: u64) -> Root
    ensures { result ≡ root_whole_of a }
{
    division::root::root_whole(a)
}

// Returns the IEEE 754 binary64 square root of a pattern, rounded once in the direction. A zero gives itself with its
// sign, and plus infinity gives itself. A number below zero, and minus infinity, gives 7FF8000000000000 and the flag
// invalid. A NaN gives 7FF8000000000000, and the flag invalid where it is signalling. For all others inexact is the
// only flag. Writes nothing and uses no table. Refuses 6, with the pattern 0.
#[unsafe(no_mangle)]
pub extern "C" fn quendaric_root_binary64(a: u64, direction: u64) -> Binary64
    ensures { result ≡ root_binary64_of direction a }
{
    division::root::root_binary64(a, direction)
}

// Does nothing, and refuses nothing. Its name has the version in it, and this header refers to it: a program that was
// compiled with the header of another version is not linked with this archive.
// -> quendaric_linked: Nothing but that the archive has the version of the call's name.
#[unsafe(no_mangle)]
pub extern "C" fn quendaric_version_3_6_0() -> Refusal
    ensures { result ≡ told 0 0 }
{
    selection::NO_REFUSAL
}
