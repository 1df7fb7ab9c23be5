// The calls on tables for a divider by the number of bits that it adds of each remainder word: 7 or 8. Any other number is refused before all else.
// C has each of them by two names, one of them for eight bits.
ghost use Rattle.std.specs.Prelude.{◌≡◌, Ok, Err};
ghost use Rattle.selection.specs.computed.Answer.{refusal_of};
ghost use Rattle.selection.specs.computed.Maker.{limits_numbers};
ghost use Rattle.selection.specs.computed.Repair.{repair_numbers};
ghost use Rattle.selection.specs.computed.Outcomes.{cell_of, report_of};
ghost use Rattle.selection.specs.computed.Bits.{for_bits, bits_of, check_cell_for, check_table_for, row_limits_for, make_for, repair_for};

use crate::cell::check_cell;
use crate::maker::{Limits, limits_in, write_table};
use crate::numbers::{Cell, Report};
use crate::repair::{Repaired, write_repair};
use crate::table::{TableVerdict, check_table};
use crate::{Estimate, Reason, Refusal, Witness};

// The estimate of a number of bits.
impl TryFrom<u64> for Estimate {
    type Error = Refusal;

    ghost try_from_gives = { λ bits answer. answer ≡ for_bits Err (λ estimate. Ok estimate) bits };

    fn try_from(bits: u64) -> Result<Estimate, Refusal> {
        match bits {
            7 => Ok(Estimate::SevenBits),
            8 => Ok(Estimate::EightBits),
            _ => Err(Reason::EstimateBits.into()),
        }
    }
}

// The number of bits of an estimate.
impl From<Estimate> for u64 {
    ghost from_gives = { λ estimate bits. bits ≡ bits_of estimate };

    fn from(estimate: Estimate) -> u64 {
        match estimate {
            Estimate::SevenBits => 7,
            Estimate::EightBits => 8,
        }
    }
}

// A single cell.
fn cell_for(bits: u64, row: u64, column: u64, byte: u8) -> Result<Option<Witness>, Refusal>
    ensures { result ≡ for_bits Err (λ estimate. cell_of estimate row column byte) bits }
{
    check_cell(Estimate::try_from(bits)?, row, column, byte)
}

pub fn check_cell_for(bits: u64, row: u64, column: u64, byte: u8) -> Cell
    ensures { result ≡ check_cell_for bits row column byte }
{
    cell_for(bits, row, column, byte).into()
}

// A table.
fn table_for(bits: u64, table: &[u8]) -> Result<TableVerdict, Refusal>
    ensures { result ≡ for_bits Err (λ estimate. report_of estimate table.now) bits }
{
    check_table(Estimate::try_from(bits)?, table)
}

pub fn check_table_for(bits: u64, table: &[u8]) -> Report
    ensures { result ≡ check_table_for bits table.now }
{
    table_for(bits, table).into()
}

// The columns at which the digits of a made row change.
fn limits_for(bits: u64, row: u64) -> Result<[u8; 6], Refusal>
    ensures { limits_numbers result ≡ row_limits_for bits row }
{
    limits_in(Estimate::try_from(bits)?, row)
}

pub fn row_limits_for(bits: u64, row: u64) -> Limits
    ensures { result ≡ row_limits_for bits row }
{
    limits_for(bits, row).into()
}

// The made table, to the first 2,048 bytes of the buffer.
fn write_for(bits: u64, buffer: &mut [u8]) -> Result<(), Refusal>
    ensures { record { answer = refusal_of result; buffer = buffer.new } ≡ make_for bits buffer.old }
{
    write_table(Estimate::try_from(bits)?, buffer)
}

pub fn make_table_for(bits: u64, buffer: &mut [u8]) -> Refusal
    ensures { record { answer = result; buffer = buffer.new } ≡ make_for bits buffer.old }
{
    write_for(bits, buffer).into()
}

// A repaired table, and its marks.
fn write_repair_for(
    bits: u64,
    table: &[u8],
    repaired: &mut [u8],
    changed: &mut [u8],
) -> Result<u64, Refusal>
    ensures { record { answer = repair_numbers result; repaired = repaired.new; changed = changed.new } ≡ repair_for bits table.now repaired.old changed.old }
{
    write_repair(Estimate::try_from(bits)?, table, repaired, changed)
}

pub fn repair_table_for(
    bits: u64,
    table: &[u8],
    repaired: &mut [u8],
    changed: &mut [u8],
) -> Repaired
    ensures { record { answer = result; repaired = repaired.new; changed = changed.new } ≡ repair_for bits table.now repaired.old changed.old }
{
    write_repair_for(bits, table, repaired, changed).into()
}
