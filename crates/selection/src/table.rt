// The check of a table, and where its rows begin.
ghost use Rattle.std.specs.Prelude.{◌≡◌, ◌+◌, ◌*◌, ◌≤◌, length, if◌then◌else◌, nat_lt, nat_le, position, IfOk};
ghost use Rattle.std.specs.List.{list_all};
ghost use Rattle.laws.specs.Search.{first_from};
ghost use Rattle.laws.specs.Counting.{count_below};
ghost use Rattle.selection.specs.Cell as Cell;
ghost use Rattle.selection.specs.computed.Allowed.{is_bad, is_bad_in};
ghost use Rattle.selection.specs.computed.Answer.{admission_in};
ghost use Rattle.selection.specs.computed.Refusals.{first_refusal};
ghost use Rattle.selection.specs.computed.Table.{row_bytes, form_rules};
ghost use Rattle.selection.specs.Table.{Table};
ghost use Rattle.selection.specs.computed.Outcomes.{report_at, table_report, report_of};

use crate::cell::{Column, RowMultiples, test_cell};
use crate::{Estimate, Reason, Refusal, TABLE_LENGTH, Witness};

// A bad cell and the witness against its digit. Row and column fill a word together, so that a copy has whole words.
#[derive(Clone, Copy, Debug, PartialEq, Eq)]
pub struct BadCell {
    pub row: u32,
    pub column: u32,
    pub witness: Witness,
}

impl BadCell {
    // The index of the cell in its table.
    pub fn place(self) -> u64
        ensures { result ≡ 128 * self.row + self.column }
    {
        128 * u64::from(self.row) + u64::from(self.column)
    }
}

// An enum of its own and no Option, as the specification prescribes it.
#[derive(Clone, Copy, Debug, PartialEq, Eq)]
pub enum Outcome {
    Passed,
    Bad(BadCell),
}

#[derive(Clone, Copy, Debug, PartialEq, Eq)]
pub struct TableVerdict {
    pub count: u64,
    pub outcome: Outcome,
}

// Where the row of a divisor begins in a table.
pub fn row_start(divisor: u64) -> usize
    ensures { result ≡ 128 * Cell.row divisor }
{
    128 * ((divisor >> 56) % 16) as usize
}

// The row of a divisor, cut out of a table here alone. Only our own crates call it, with a table of 2,048 bytes.
pub fn row_of(table: &[u8], divisor: u64) -> &[u8]
    requires { length table.now ≡ 2048 }
    ensures { result.now ≡ row_bytes table.now (Cell.row divisor) }
{
    let start = row_start(divisor);
    &table[start..start + 128]
}

// Whether no byte is above 4: a loop without an exit, for bytes side by side.
fn none_above(table: &[u8]) -> bool
    ensures { result ≡ list_all (λ b. nat_le b 4) table.now }
{
    let mut none = true;
    for &byte in table {
        none &= byte <= 4;
    }
    none
}

// The first index of a byte above 4.
fn first_above(table: &[u8]) -> Option<usize>
    ensures { result ≡ position (λ b. nat_lt 4 b) table.now }
{
    if none_above(table) {
        return None;
    }
    table.iter().position(|&byte| 4 < byte)
}

// 2,048 bytes, none above 4.
#[derive(Clone, Copy)]
pub struct DigitTable<'a> {
    pub bytes: &'a [u8],
    pub ghost digits: { Table bytes.now },
}

impl<'a> DigitTable<'a> {
    // A lent table, or refusal 8 or 9.
    pub fn new(table: &'a [u8]) -> Result<DigitTable<'a>, Refusal>
        ensures refused { admission_in result ≡ first_refusal (form_rules table.now) }
        ensures lent { IfOk result (λ digits. digits.bytes.now ≡ table.now) }
    {
        if table.len() != TABLE_LENGTH {
            return Err(Reason::Length.into());
        }
        match first_above(table) {
            Some(above) => Err(Reason::Byte.at(above as u64)),
            None => Ok(DigitTable { bytes: table }),
        }
    }

    // Whether the byte at a column of a row holds a digit that isn't allowed: the test of the cell up to its witness, which the report alone wants.
    fn is_bad(&self, m: RowMultiples, column: Column) -> bool
        ensures { result ≡ is_bad_in m.estimate self.now.bytes.now m.row column.index }
    {
        let byte = self.bytes[128 * (m.row as usize) + column.index as usize];
        !m.allows(column, byte)
    }

    // The number of bad cells of a row: a loop without an exit, for cells side by side.
    fn count_row(&self, m: RowMultiples) -> u8
        ensures { result ≡ count_below (is_bad_in m.estimate self.now.bytes.now m.row) 128 }
    {
        let mut count = 0;
        for column in 0..128 {
            if self.is_bad(m, Column { index: column }) {
                count += 1;
            }
        }
        count
    }

    // The column of a bad cell, or 128: a byte and no Option, for cells side by side.
    fn bad_column(&self, m: RowMultiples, column: Column) -> u8
        ensures { result ≡ (if is_bad_in m.estimate self.now.bytes.now m.row column.index then column.index else 128) }
    {
        if self.is_bad(m, column) {
            column.index
        } else {
            128
        }
    }

    // The column of the first bad cell of a row, or 128: a loop without an exit too.
    fn first_in_row(&self, m: RowMultiples) -> u8
        ensures { result ≡ first_from (is_bad_in m.estimate self.now.bytes.now m.row) 0 128 }
    {
        let mut first: u8 = 128;
        for column in 0..128 {
            first = first.min(self.bad_column(m, Column { index: column }));
        }
        first
    }

    // The number of bad cells, where the rows before `start` have `count` of them.
    fn count_from(&self, estimate: Estimate, start: u64, count: u64) -> u64
        requires { (start ≤ 16) × (count ≡ count_below (is_bad estimate self.now.bytes.now) (128 * start)) }
        ensures { result ≡ count_below (is_bad estimate self.now.bytes.now) 2048 }
    {
        let mut total = count;
        for row in start..16 {
            total += u64::from(self.count_row(RowMultiples::new(estimate, row)));
        }
        total
    }

    // The report of a table with `count` bad cells, the first of them in the row whose multiples are m: its witness is the test's, which finds one in a bad
    // cell.
    fn bad_report(&self, m: RowMultiples, count: u64) -> TableVerdict
        requires { first_from (is_bad_in m.estimate self.now.bytes.now m.row) 0 128 ≤ 127 }
        ensures { result ≡ report_at m.estimate count self.now.bytes.now (128 * m.row + first_from (is_bad_in m.estimate self.now.bytes.now m.row) 0 128) }
    {
        let row = m.row as u32;
        let column = self.first_in_row(m);
        let byte = self.bytes[128 * (row as usize) + column as usize];
        let witness = test_cell(m, Column { index: column }, byte).unwrap();
        TableVerdict {
            count,
            outcome: Outcome::Bad(BadCell {
                row,
                column: u32::from(column),
                witness,
            }),
        }
    }

    // The number of bad cells, and the first of them with its witness, in one pass: a row's multiples are worked out before its columns start, and handed to
    // the count of its bad cells and to the test of the first.
    pub fn check(&self, estimate: Estimate) -> TableVerdict
        ensures { result ≡ table_report estimate self.now.bytes.now }
    {
        for row in 0..16 {
            let m = RowMultiples::new(estimate, row);
            let count = self.count_row(m);
            if 0 < count {
                return self.bad_report(m, self.count_from(estimate, row + 1, u64::from(count)));
            }
        }
        TableVerdict {
            count: 0,
            outcome: Outcome::Passed,
        }
    }
}

// The check of any bytes: they may be no table.
pub fn check_table(estimate: Estimate, table: &[u8]) -> Result<TableVerdict, Refusal>
    ensures { result ≡ report_of estimate table.now }
{
    Ok(DigitTable::new(table)?.check(estimate))
}
