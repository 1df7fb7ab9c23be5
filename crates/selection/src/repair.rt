// The repair of a table that was read back from a monitor.
ghost use Rattle.std.specs.Prelude.{◌≡◌, ◌≤◌, length};
ghost use Rattle.laws.specs.Lists.{list_from};
ghost use Rattle.laws.specs.Sums.{sum_below};
ghost use Rattle.selection.specs.computed.Refusals.{first_refusal};
ghost use Rattle.selection.specs.computed.Outcomes.{repair_of};
ghost use Rattle.selection.specs.computed.RepairRows.{mark_by, marks_by, byte_by, bytes_by, RepairedTo};
ghost use Rattle.selection.specs.computed.Repair.{repair_rules, repair_numbers, RepairAccepts};

use crate::cell::{Column, RowMultiples};
use crate::maker::digit_at;
use crate::{Estimate, NO_REFUSAL, Reason, Refusal, TABLE_LENGTH};

// The answer, as C sees it: the refusal (0: none) and its place, and the number of changes.
#[repr(C)]
#[derive(Clone, Copy)]
pub struct Repaired {
    pub refusal: Refusal,
    pub count: u64,
}

impl From<Result<u64, Refusal>> for Repaired {
    ghost from_gives = { λ answer x. x ≡ repair_numbers answer };

    fn from(answer: Result<u64, Refusal>) -> Repaired {
        match answer {
            Ok(count) => Repaired {
                refusal: NO_REFUSAL,
                count,
            },
            Err(refusal) => Repaired { refusal, count: 0 },
        }
    }
}

// 1 for a faulty cell, whose byte is to be changed, else 0.
fn mark_of(m: RowMultiples, column: Column, byte: u8) -> u8
    ensures { result ≡ mark_by m.estimate m.row column.index byte }
{
    u8::from(4 < byte || !m.allows(column, byte))
}

// The byte itself, or where it is marked the made digit of a row with the limits l.
fn byte_of(l: [u8; 6], c: u8, byte: u8, mark: u8) -> u8
    ensures { result ≡ byte_by l c byte mark }
{
    if mark == 0 { byte } else { digit_at(l, c) }
}

// The marks of a row's cells, and how many of them are 1. Marks and bytes have a loop each: one for both is compiled into vectors that do not fit the registers
// and go to the stack.
fn mark_row(cells: &[u8], m: RowMultiples, marks: &mut [u8]) -> u8
    requires { (length cells.now ≡ 128) × (length marks.old ≡ 128) }
    ensures marks { marks.new ≡ list_from (marks_by m.estimate m.row cells.now) 0 128 }
    ensures count { result ≡ sum_below (marks_by m.estimate m.row cells.now) 128 }
{
    let mut count = 0;
    for (c, &byte) in cells.iter().enumerate() {
        let mark = mark_of(m, Column { index: c as u8 }, byte);
        marks[c] = mark;
        count += mark;
    }
    count
}

// The bytes of a row's cells, by their marks.
fn byte_row(cells: &[u8], l: [u8; 6], marks: &[u8], bytes: &mut [u8])
    requires { (length cells.now ≡ 128) × (length marks.now ≡ 128) × (length bytes.old ≡ 128) }
    ensures { bytes.new ≡ list_from (bytes_by l cells.now marks.now) 0 128 }
{
    for (c, &byte) in cells.iter().enumerate() {
        bytes[c] = byte_of(l, c as u8, byte, marks[c]);
    }
}

// All rows, and the number of changes. A row's multiples and limits are worked out before its columns start.
fn repair_rows(estimate: Estimate, table: &[u8], repaired: &mut [u8], changed: &mut [u8]) -> u64
    requires { RepairAccepts (length table.now) (length repaired.old) (length changed.old) }
    ensures { RepairedTo estimate table.now 2048 repaired.old changed.old repaired.new changed.new result }
{
    let mut count = 0;
    for row in 0..16 {
        let start = 128 * row;
        let cells = &table[start..start + 128];
        let marks = &mut changed[start..start + 128];
        let m = RowMultiples::new(estimate, row as u64);
        count += u64::from(mark_row(cells, m, marks));
        byte_row(cells, m.limits(), marks, &mut repaired[start..start + 128]);
    }
    count
}

// The first refusal, by the lengths of the table and of the two lists.
fn refusal_of(table: usize, repaired: usize, changed: usize) -> Result<(), Refusal>
    ensures { result ≡ first_refusal (repair_rules table repaired changed) }
{
    if repaired < TABLE_LENGTH || changed < TABLE_LENGTH {
        return Err(Reason::Room.into());
    }
    if table != TABLE_LENGTH {
        return Err(Reason::Length.into());
    }
    Ok(())
}

// The number of changes, or the first refusal.
pub(crate) fn write_repair(
    estimate: Estimate,
    table: &[u8],
    repaired: &mut [u8],
    changed: &mut [u8],
) -> Result<u64, Refusal>
    ensures { record { answer = repair_numbers result; repaired = repaired.new; changed = changed.new } ≡ repair_of estimate table.now repaired.old changed.old }
{
    refusal_of(table.len(), repaired.len(), changed.len())?;
    Ok(repair_rows(estimate, table, repaired, changed))
}

// A repaired table in the first 2,048 bytes of the one buffer, and in those of the other 1 for each changed cell and 0 elsewhere.
pub fn repair_table(
    estimate: Estimate,
    table: &[u8],
    repaired: &mut [u8],
    changed: &mut [u8],
) -> Repaired
    ensures { record { answer = result; repaired = repaired.new; changed = changed.new } ≡ repair_of estimate table.now repaired.old changed.old }
{
    write_repair(estimate, table, repaired, changed).into()
}
