// The P-D plot of a table as an SVG picture: divisor rows from left to right, partial-remainder columns from below. Its cells show the digits, or with
// the argument `visits` how often each is met. With the argument 7 what is allowed is that of a divider that adds seven bits, with 8 or none eight.
#![tactic(auto)]

mod cells;
mod picture;
mod print;
mod visits;

ghost use Rattle.std.specs.Prelude.{◌≤◌, ◌<◌};

use cells::{DrawnTable, Place};
use picture::Edge;
use print::Output;
use printing::argument::{argument, word, word_count};
use printing::input::{INPUT, read_input};
use printing::output::write_output;
use selection::table::{DigitTable, Outcome};
use selection::{Estimate, TABLE_LENGTH};
use std::io;

// What is drawn: each cell's digit for a divider with this estimate, or how often each cell is met.
#[derive(Clone, Copy)]
enum Plot {
    Digits(Estimate),
    Visits,
}

// Up to so many bad cells, each stretch of them in a row gets a ring.
const FEW: u64 = 16;

// The mark of some bad cells that follow each other.
fn mark(out: &mut Output, edge: Edge, ring: bool) -> io::Result<()> {
    picture::print_mark(out, edge)?;
    if ring {
        picture::print_ring(out, edge)?;
    }
    Ok(())
}

// The marks of a row's bad cells from a place on. The next ones begin where the last ones end, which no range tells.
fn mark_row(out: &mut Output, drawn: &DrawnTable, start: Place, rings: bool) -> io::Result<()> {
    let mut column = start.column;
    while let Some(edge) = drawn.next_bad(start.in_column(column)) {
        mark(out, edge, rings)?;
        column = edge.end;
    }
    Ok(())
}

fn draw_cells(out: &mut Output, drawn: &DrawnTable) -> io::Result<()> {
    for k in 0..TABLE_LENGTH {
        let cell = drawn.cell(Place::of(k));
        if let Some(edge) = cell.place.edge() {
            picture::print_cell(out, &cell, edge)?;
        }
    }
    Ok(())
}

// The marks come last, above all cells and lines.
fn draw_marks(out: &mut Output, drawn: &DrawnTable, rings: bool) -> io::Result<()> {
    for row in 0..16 {
        mark_row(out, drawn, Place { row, column: 0 }, rings)?;
    }
    Ok(())
}

fn print_digits_start(out: &mut Output, estimate: Estimate) -> io::Result<()> {
    let bits = match estimate {
        Estimate::SevenBits => "seven",
        Estimate::EightBits => "eight",
    };
    picture::print_start(
        out,
        format_args!("P-D plot of a table of quotient digits, by {bits} bits"),
        format_args!("P-D plot by {bits} bits: the quotient digit in each cell of the table"),
    )
}

// A table, by what the check says of it.
fn draw_table(out: &mut Output, drawn: &DrawnTable) -> io::Result<()> {
    print_digits_start(out, drawn.estimate)?;
    let report = drawn.table.check(drawn.estimate);
    match report.outcome {
        Outcome::Passed => picture::print_passed(out)?,
        Outcome::Bad(cell) => picture::print_bad(out, report.count, cell)?,
    }
    draw_cells(out, drawn)?;
    picture::print_frame(out)?;
    draw_marks(out, drawn, report.count <= FEW)?;
    picture::print_axes(out)?;
    picture::print_legend(out)
}

// What is no table gets the two lines of a refusal.
fn draw_digits(out: &mut Output, estimate: Estimate, bytes: &[u8]) -> io::Result<()> {
    match DigitTable::new(bytes) {
        Ok(table) => draw_table(out, &DrawnTable { estimate, table }),
        Err(refusal) => picture::print_refusal(out, refusal),
    }
}

fn draw(out: &mut Output, plot: Plot, bytes: &[u8]) -> io::Result<()> {
    match plot {
        Plot::Digits(estimate) => draw_digits(out, estimate, bytes),
        Plot::Visits => visits::draw_visits(out, bytes),
    }
}

// Whether the first argument is the word. A longer one does not fit, and is none.
fn asks_visits(rt: &HostRuntime) -> bool {
    let mut first = [0u8; 6];
    let length = word(rt, 1, &mut first);
    &first[..length] == b"visits".as_slice()
}

fn asked(rt: &HostRuntime) -> Option<Plot> {
    if word_count(rt) == 2 && asks_visits(rt) {
        Some(Plot::Visits)
    } else {
        argument(rt).map(Plot::Digits)
    }
}

// A read that fails is told, since a table read in part would look too short, and so is a write: a picture cut short lacks its marks.
fn run(rt: &HostRuntime) -> Result<(), &'static str> {
    let plot = asked(rt).ok_or("usage: plot [7|8|visits] < TABLE\n")?;
    let mut bytes = [0u8; INPUT];
    let count = read_input(&mut rt.stdin(), &mut bytes).map_err(|_| "plot: not all was read\n")?;
    draw(&mut Output(rt.stdout()), plot, &bytes[..count]).map_err(|_| "plot: not all was written\n")
}

fn main(rt: HostRuntime) {
    if let Err(message) = run(&rt) {
        write_output(&mut rt.stderr(), message.as_bytes());
    }
}
