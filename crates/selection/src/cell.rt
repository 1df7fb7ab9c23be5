// The check of a cell, by multiples of its row's smallest and largest divisor, which are worked out once a row.
ghost use Rattle.std.specs.Prelude.{◌≡◌, ◌+◌, ◌-◌, ◌*◌, ◌^◌, ◌<◌, ◌≤◌, true, ◌↔◌};
ghost use Rattle.std.proofs.Math.IntN.{sub_ℕ};
ghost use Rattle.selection.specs.Cell.{span_of};
ghost use Rattle.selection.specs.computed.Allowed.{allows_of};
ghost use Rattle.selection.specs.computed.Outcomes.{cell_of, verdict_at};
ghost use Rattle.selection.specs.computed.CellTest.{left_column, right_column, begins_at_most, begins_below_minus, ends_at_most, ends_below_minus, multiples_of, past, least_byte, greatest_byte, has_point, above, under, least_past, least_divisor, low_divisor, high_divisor, low_at, high_at, witness_of};

use crate::{Estimate, Reason, Refusal, Witness};
use std::marker::Model;

// Half of the words: what the remainders are moved up by.
const HALF: u64 = 0x8000_0000_0000_0000;

// What the estimate leaves out at most: of seven bits, and of eight.
const SPAN_OF_SEVEN: u64 = 0x3ff_ffff_ffff_fffe;

const SPAN_OF_EIGHT: u64 = 0x2ff_ffff_ffff_fffe;

// The width of a column, and of a row.
const COLUMN_WIDTH: u64 = 0x200_0000_0000_0000;

const ROW_WIDTH: u64 = 0x100_0000_0000_0000;

// A column of a row.
#[derive(Clone, Copy)]
pub(crate) struct Column {
    pub index: u8,
    ghost bound: { index ≤ 127 },
}

// A row's number, its smallest divisor, and multiples of its smallest divisor, (16 + row) * 2^56, and of its largest, (17 + row) * 2^56 - 1: those that
// bound 3P. A point has 3P from -8D to 8D, and the digit q keeps 3P from (3q - 2)D to (3q + 2)D. Each multiple is handed on as a column, the last on its
// lower side: so a cell's test compares bytes, and three times a column's end, which leaves 64 bits in cells that have points, is not formed for it.
#[derive(Clone, Copy)]
pub(crate) struct RowMultiples {
    pub estimate: Estimate,
    pub row: u64,
    pub smallest: u64,
    // the last column that ends below -8 * largest / 3: up to it there is no point
    pub minus8: u8,
    // the last column that begins below -5 * smallest / 3: up to it a remainder is too low for the digit -1
    pub minus5: u8,
    // the last column that does not end above -4 * largest / 3: up to it no remainder is too high for -2
    pub minus4: u8,
    // the last column that begins below -2 * smallest / 3: up to it a remainder is too low for 0
    pub minus2: u8,
    // the last column that does not end above -largest / 3: up to it no remainder is too high for -1
    pub minus1: u8,
    // the last column that begins below largest / 3: up to it a remainder is too low for 1
    pub plus1: u8,
    // the last column that does not end above 2 * smallest / 3: up to it no remainder is too high for 0
    pub plus2: u8,
    // the last column that begins below 4 * largest / 3: up to it a remainder is too low for 2
    pub plus4: u8,
    // the last column that does not end above 5 * smallest / 3: up to it no remainder is too high for 1
    pub plus5: u8,
    // the last column that does not begin above 8 * largest / 3: past it there is no point
    pub plus8: u8,
}

// A clause sees the row alone: the other fields are its multiples.
impl Model for RowMultiples {
    ghost use Rattle.std.proofs.Common.{sym};
    ghost use Rattle.selection.specs.computed.TableRow.{TableRow};

    ghost Value = { TableRow };

    ghost use Rattle.selection.specs.computed.CellTest.{RowOf, multiples_of};

    ghost view = { λ m. record { estimate = m.estimate; row = m.row } };

    ghost invariant = { RowOf };

    ghost inverse = { λ r. multiples_of r.estimate r.row };

    ghost inverse_ok = { λ m h. sym h.is };
}

fn span_of(estimate: Estimate) -> u64
    ensures { (result ≡ span_of estimate) × (3 * 2 ^ 56 - 2 ≤ result) × (result < 2 ^ 58) }
{
    match estimate {
        Estimate::SevenBits => SPAN_OF_SEVEN,
        Estimate::EightBits => SPAN_OF_EIGHT,
    }
}

// The last column that begins at a remainder or below, and the last that ends there or below.
fn left_column(remainder: u64) -> u8
    ensures { result ≡ left_column remainder }
{
    (remainder / COLUMN_WIDTH) as u8
}

fn right_column(estimate: Estimate, remainder: u64) -> u8
    ensures { result ≡ right_column estimate remainder }
{
    (remainder.saturating_sub(span_of(estimate)) / COLUMN_WIDTH) as u8
}

// The last column that begins, and that ends, where 3P is at most n, and where it is below -n. The four differ in side and end, and so in more than a constant.
fn begins_at_most(n: u64) -> u8
    ensures { result ≡ begins_at_most n }
{
    left_column(HALF + n / 3)
}

fn begins_below_minus(n: u64) -> u8
    ensures { result ≡ begins_below_minus n }
{
    left_column(HALF - n / 3 - 1)
}

fn ends_at_most(estimate: Estimate, n: u64) -> u8
    ensures { result ≡ ends_at_most estimate n }
{
    right_column(estimate, HALF + n / 3)
}

fn ends_below_minus(estimate: Estimate, n: u64) -> u8
    ensures { result ≡ ends_below_minus estimate n }
{
    right_column(estimate, HALF - n / 3 - 1)
}

// 1 if c is past x, else 0. It is in the arithmetic of bytes, so that the cells of a row can go side by side: by `u8::from(x < c)` the check takes 14 times as
// many instructions.
fn past(x: u8, c: u8) -> u8
    requires { (x ≤ 127) × (c ≤ 127) }
    ensures { (result ≡ past x c) × (result ≤ 1) }
{
    x.wrapping_sub(c) / 128
}

impl RowMultiples {
    // The multiples of a row. Of the largest, once and four times less 1: 3P < L is 3P <= L - 1, and 3P <= -L is 3P < -(L - 1).
    pub(crate) fn new(estimate: Estimate, row: u64) -> RowMultiples
        requires { row ≤ 15 }
        ensures { result ≡ record { estimate = estimate; row = row } }
    {
        let smallest = (16 + row) * ROW_WIDTH;
        let largest = (17 + row) * ROW_WIDTH - 1;
        let one = largest - 1;
        let two = 2 * smallest;
        let four = 4 * largest - 1;
        let five = 5 * smallest;
        let eight = 8 * largest;
        RowMultiples {
            estimate,
            row,
            smallest,
            minus8: ends_below_minus(estimate, eight),
            minus5: begins_below_minus(five),
            minus4: ends_below_minus(estimate, four),
            minus2: begins_below_minus(two),
            minus1: ends_below_minus(estimate, one),
            plus1: begins_at_most(one),
            plus2: ends_at_most(estimate, two),
            plus4: begins_at_most(four),
            plus5: ends_at_most(estimate, five),
            plus8: begins_at_most(eight),
        }
    }

    // The least byte for whose digit no remainder of the column is too high.
    fn least_byte(self, column: Column) -> u8
        ensures { (result ≡ least_byte (multiples_of self.estimate self.row) column.index) × (result ≤ 4) }
    {
        let c = column.index;
        past(self.minus4, c) + past(self.minus1, c) + past(self.plus2, c) + past(self.plus5, c)
    }

    // The greatest byte for whose digit none is too low.
    fn greatest_byte(self, column: Column) -> u8
        ensures { (result ≡ greatest_byte (multiples_of self.estimate self.row) column.index) × (result ≤ 4) }
    {
        let c = column.index;
        past(self.minus5, c) + past(self.minus2, c) + past(self.plus1, c) + past(self.plus4, c)
    }

    // Whether the cell has a point: the lower of the outer two columns is passed, and the upper is not.
    fn has_point(self, column: Column) -> bool
        ensures { result ≡ has_point (multiples_of self.estimate self.row) column.index }
    {
        past(self.minus8, column.index) + past(self.plus8, column.index) == 1
    }

    // Whether the cell allows the byte's digit: the verdict of `test_cell` without its witness. Both sides are cheap, so no branch stands between them.
    pub(crate) fn allows(self, column: Column, byte: u8) -> bool
        requires { byte ≤ 127 }
        ensures { (result ≡ allows_of self.estimate self.row column.index byte) × ((result ≡ true) ↔ (verdict_at self.estimate self.row column.index byte ≡ None)) }
    {
        (past(self.greatest_byte(column), byte) + past(byte, self.least_byte(column)) == 0)
            | !self.has_point(column)
    }
}

// The least D with y < 4D for k = 0, with y < D for k = 1; else 0.
fn least_past(k: u64, y: u64) -> u64
    requires { y < 2 ^ 64 - 8 }
    ensures { result ≡ least_past k y }
{
    match k {
        0 => y / 4 + 1,
        1 => y + 1,
        _ => 0,
    }
}

// The least D from `start` on with x <= 8D that is past y as above: no divisor before it has a point that breaks the digit.
fn least_divisor(start: u64, x: u64, y: u64, k: u64) -> u64
    requires { (x < 2 ^ 64 - 8) × (y < 2 ^ 64 - 8) }
    ensures { result ≡ least_divisor start x y k }
{
    start.max(x.div_ceil(8)).max(least_past(k, y))
}

// The remainder of a biased one, a function since no one call of the library gives it.
fn unbiased(w: u64) -> i64
    ensures { result ≡ sub_ℕ w (2 ^ 63) }
{
    w.wrapping_sub(HALF).cast_signed()
}

// The search for the least witness against a byte's digit in a column of a row, whose smallest divisor it begins with. A point has 3|P| <= 8D, so |P| is below
// 43 * 2^57: a cell that has one is in the columns 20 to 106, and in them three times what a column lies from 0 fits a word.
#[derive(Clone, Copy)]
struct WitnessSearch {
    estimate: Estimate,
    smallest: u64,
    column: u64,
    byte: u64,
    ghost column_bounds: { (20 ≤ column) × (column ≤ 106) },
    ghost byte_bound: { byte ≤ 4 },
}

impl WitnessSearch {
    // Three times what the column lies above 0 at least, and below 0 at least.
    fn above(self) -> u64
        ensures { (result ≡ above self.column) × (result < 2 ^ 64 - 8) }
    {
        3 * (self.column * COLUMN_WIDTH).saturating_sub(HALF)
    }

    fn under(self) -> u64
        ensures { (result ≡ under self.estimate self.column) × (result < 2 ^ 64 - 8) }
    {
        3 * HALF.saturating_sub(self.column * COLUMN_WIDTH + span_of(self.estimate))
    }

    // The least divisor of the row at which a remainder of the column is too low for the digit, and too high. `least_divisor` is what the two have in common,
    // with the sides of 0 exchanged.
    fn low_divisor(self) -> u64
        ensures { result ≡ low_divisor self.estimate self.smallest self.column self.byte }
    {
        least_divisor(self.smallest, self.under(), self.above(), 4 - self.byte)
    }

    fn high_divisor(self) -> u64
        ensures { result ≡ high_divisor self.estimate self.smallest self.column self.byte }
    {
        least_divisor(self.smallest, self.above(), self.under(), self.byte)
    }

    // The least point of the column at the divisor d, and the least that is too high for the digit: other formulas, which share their first bound alone.
    fn low_witness(self, d: u64) -> Witness
        requires { d ≤ 2 ^ 61 }
        ensures { result ≡ witness_of d (low_at d self.column) }
    {
        Witness {
            divisor: d,
            remainder: unbiased((self.column * COLUMN_WIDTH).max(HALF - (2 * d + 2 * d / 3))),
        }
    }

    fn high_witness(self, d: u64) -> Witness
        requires { d ≤ 2 ^ 61 }
        ensures { result ≡ witness_of d (high_at d self.column self.byte) }
    {
        Witness {
            divisor: d,
            remainder: unbiased(
                (self.column * COLUMN_WIDTH).max(HALF - 2 * d + self.byte * d + 2 * d / 3 + 1),
            ),
        }
    }
}

// The test of a cell, handed the multiples of its row: the least witness against the digit, or none where it is allowed. No digit is both too low and too
// high. It is a function and no method: the specification says that the test is handed its row's multiples.
pub(crate) fn test_cell(m: RowMultiples, column: Column, byte: u8) -> Option<Witness>
    requires { byte ≤ 4 }
    ensures { result ≡ verdict_at m.estimate m.row column.index byte }
{
    if m.allows(column, byte) {
        return None;
    }
    let search = WitnessSearch {
        estimate: m.estimate,
        smallest: m.smallest,
        column: column.index as u64,
        byte: byte as u64,
    };
    if m.greatest_byte(column) < byte {
        return Some(search.low_witness(search.low_divisor()));
    }
    Some(search.high_witness(search.high_divisor()))
}

// Row, column and byte of a single cell, for a divider with this estimate: none where the digit is allowed, or the least witness against it.
pub fn check_cell(
    estimate: Estimate,
    row: u64,
    column: u64,
    byte: u8,
) -> Result<Option<Witness>, Refusal>
    ensures { result ≡ cell_of estimate row column byte }
{
    if 15 < row || 127 < column {
        return Err(Reason::Cell.into());
    }
    if 4 < byte {
        return Err(Reason::Byte.at(128 * row + column));
    }
    let m = RowMultiples::new(estimate, row);
    let column = Column {
        index: column as u8,
    };
    Ok(test_cell(m, column, byte))
}
