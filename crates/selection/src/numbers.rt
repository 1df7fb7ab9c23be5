// Number, place and values of the two answers that hold an enum, as C sees them: the refusal (0: none) and its place first, zeros where a call refuses.
ghost use Rattle.std.specs.Prelude.{◌≡◌};
ghost use Rattle.selection.specs.computed.Answer.{cell_numbers, report_numbers};
ghost use Rattle.selection.specs.computed.Outcomes.{cell_of, report_of};

use crate::cell::check_cell;
use crate::table::{Outcome, TableVerdict, check_table};
use crate::{Estimate, NO_REFUSAL, Reason, Refusal, Witness};

// Of a single cell: 1 for an allowed digit; 0 for a disallowed one, with the least witness.
#[repr(C)]
#[derive(Clone, Copy)]
pub struct Cell {
    pub refusal: Refusal,
    pub allowed: u64,
    pub divisor: u64,
    pub remainder: i64,
}

// Of a table: the number of bad cells, and the first of them with its witness.
#[repr(C)]
#[derive(Clone, Copy)]
pub struct Report {
    pub refusal: Refusal,
    pub count: u64,
    pub row: u64,
    pub column: u64,
    pub divisor: u64,
    pub remainder: i64,
}

// An answer without allowed digit or witness.
const NO_CELL: Cell = Cell {
    refusal: NO_REFUSAL,
    allowed: 0,
    divisor: 0,
    remainder: 0,
};

impl From<Result<Option<Witness>, Refusal>> for Cell {
    ghost from_gives = { λ verdict x. x ≡ cell_numbers verdict };

    fn from(verdict: Result<Option<Witness>, Refusal>) -> Cell {
        match verdict {
            Ok(None) => Cell {
                allowed: 1,
                ..NO_CELL
            },
            Ok(Some(witness)) => Cell {
                divisor: witness.divisor,
                remainder: witness.remainder,
                ..NO_CELL
            },
            Err(refusal) => Cell { refusal, ..NO_CELL },
        }
    }
}

// The report of a table that passes.
const NO_BAD_CELL: Report = Report {
    refusal: NO_REFUSAL,
    count: 0,
    row: 0,
    column: 0,
    divisor: 0,
    remainder: 0,
};

// The place of a bad cell's refusal is the cell's index.
impl From<Result<TableVerdict, Refusal>> for Report {
    ghost from_gives = { λ report x. x ≡ report_numbers report };

    fn from(report: Result<TableVerdict, Refusal>) -> Report {
        match report {
            Ok(verdict) => match verdict.outcome {
                Outcome::Passed => NO_BAD_CELL,
                Outcome::Bad(cell) => Report {
                    refusal: Reason::BadCell.at(cell.place()),
                    count: verdict.count,
                    row: u64::from(cell.row),
                    column: u64::from(cell.column),
                    divisor: cell.witness.divisor,
                    remainder: cell.witness.remainder,
                },
            },
            Err(refusal) => Report {
                refusal,
                ..NO_BAD_CELL
            },
        }
    }
}

// A single cell.
pub fn cell_numbers(estimate: Estimate, row: u64, column: u64, byte: u8) -> Cell
    ensures { result ≡ cell_numbers (cell_of estimate row column byte) }
{
    check_cell(estimate, row, column, byte).into()
}

// A table.
pub fn table_numbers(estimate: Estimate, table: &[u8]) -> Report
    ensures { result ≡ report_numbers (report_of estimate table.now) }
{
    check_table(estimate, table).into()
}
