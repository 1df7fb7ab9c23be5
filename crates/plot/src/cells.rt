// What the picture shows of a cell.
ghost use Rattle.std.specs.Prelude.{◌≡◌, ◌+◌, ◌*◌, ◌/◌, ◌%◌, ◌≤◌, ◌<◌};

use crate::picture::Edge;
use selection::Estimate;
use selection::cell::check_cell;
use selection::table::DigitTable;
use std::array;

// The place of a cell in a table.
#[derive(Clone, Copy)]
pub(crate) struct Place {
    pub(crate) row: usize,
    pub(crate) column: usize,
    ghost row_bound: { row ≤ 15 },
    ghost column_bound: { column ≤ 127 },
}

impl Place {
    ghost use Rattle.std.specs.Prelude.{is_some};
    ghost use Rattle.plot.specs.Plot.{AllowedIs, AllowedAre, PointIs, DrawnIs};

    // The place of cell k.
    pub(crate) fn of(k: usize) -> Place
        requires { k < 2048 }
        ensures { (result.row ≡ k / 128) × (result.column ≡ k % 128) }
    {
        Place {
            row: k / 128,
            column: k % 128,
        }
    }

    // The place in the same row, in this column.
    pub(crate) fn in_column(self, column: usize) -> Place
        requires { column ≤ 127 }
        ensures { (result.row ≡ self.row) × (result.column ≡ column) }
    {
        Place {
            row: self.row,
            column,
        }
    }

    // Which cell of the table it is.
    pub(crate) fn index(self) -> usize
        ensures { (result ≡ 128 * self.row + self.column) × (result < 2048) }
    {
        128 * self.row + self.column
    }

    // The edge of the cell, if it is drawn. A point lies in the columns 20 to 106, so the others have none in any row.
    #[tactic(auto, using(crate::proofs::Points::drawn_yes))]
    pub(crate) fn edge(self) -> Option<Edge>
        ensures { DrawnIs self.column (is_some result) }
    {
        if (16..=111).contains(&self.column) {
            Some(Edge {
                row: self.row,
                from: self.column,
                end: self.column + 1,
            })
        } else {
            None
        }
    }

    // Whether a digit is allowed in the cell. No cell and digit are refused.
    fn allows(self, estimate: Estimate, byte: u8) -> bool
        requires { byte ≤ 4 }
        ensures { AllowedIs estimate self.row self.column byte result }
    {
        check_cell(estimate, self.row as u64, self.column as u64, byte)
            .unwrap()
            .is_none()
    }

    // Of each digit from -2 to 2, whether it is allowed.
    fn allowed_digits(self, estimate: Estimate) -> [bool; 5]
        ensures { AllowedAre estimate self.row self.column result }
    {
        array::from_fn(|byte| self.allows(estimate, byte as u8))
    }

    // No point keeps both -2 and 2, so a cell that allows both has no point.
    pub(crate) fn has_point(self, estimate: Estimate) -> bool
        ensures { PointIs estimate self.row self.column result }
    {
        !(self.allows(estimate, 0) && self.allows(estimate, 4))
    }
}

// A cell's place, its digit's byte, whether it has a point, which bytes' digits it allows, and whether its own is among them.
#[derive(Clone, Copy)]
pub(crate) struct Cell {
    pub(crate) place: Place,
    pub(crate) byte: u8,
    pub(crate) in_range: bool,
    pub(crate) good: bool,
    pub(crate) allowed: [bool; 5],
}

// A table that is drawn, and the estimate of the divider that it is drawn for.
#[derive(Clone, Copy)]
pub(crate) struct DrawnTable<'a> {
    pub(crate) estimate: Estimate,
    pub(crate) table: DigitTable<'a>,
}

impl<'a> DrawnTable<'a> {
    ghost use Rattle.std.specs.Prelude.{IsTrue, IfSome, IfNone, ◌↔◌};
    ghost use Rattle.selection.specs.Table.{BadAt};
    ghost use Rattle.plot.specs.Plot.{Shown, BadTo, NoneBad, FirstBad, NextBad};

    pub(crate) fn cell(&self, place: Place) -> Cell
        ensures { Shown self.now.estimate self.now.table.bytes.now (128 * place.row + place.column) result }
    {
        let byte = self.table.bytes[place.index()];
        Cell {
            place,
            byte,
            in_range: place.has_point(self.estimate),
            good: place.allows(self.estimate, byte),
            allowed: place.allowed_digits(self.estimate),
        }
    }

    // Whether the digit of a cell is not allowed there.
    fn is_bad(&self, place: Place) -> bool
        ensures { IsTrue result ↔ BadAt self.now.estimate self.now.table.bytes.now (128 * place.row + place.column) }
    {
        !place.allows(self.estimate, self.table.bytes[place.index()])
    }

    // The end of the bad cells that follow each other in a row from a place on: its own column where that one's digit is allowed.
    fn bad_end(&self, from: Place) -> usize
        ensures { BadTo self.now.estimate self.now.table.bytes.now from.row from.column result }
    {
        (from.column..128)
            .find(|column| !self.is_bad(from.in_column(*column)))
            .unwrap_or(128)
    }

    // The first column of a row, from a place on, whose cell is bad.
    fn first_bad(&self, from: Place) -> Option<usize>
        ensures { FirstBad self.now.estimate self.now.table.bytes.now from.row from.column result }
    {
        (from.column..128).find(|column| self.is_bad(from.in_column(*column)))
    }

    // The next bad cells that follow each other in a row, from a place on.
    pub(crate) fn next_bad(&self, place: Place) -> Option<Edge>
        ensures some { IfSome result (λ edge. NextBad self.now.estimate self.now.table.bytes.now place.row place.column edge.row edge.from edge.end) }
        ensures none { IfNone result (NoneBad self.now.estimate self.now.table.bytes.now place.row place.column 128) }
    {
        let from = self.first_bad(place)?;
        let end = self.bad_end(place.in_column(from));
        Some(Edge {
            row: place.row,
            from,
            end,
        })
    }
}
