// The picture of how often each cell is met: the visits of runs of 28 digits, of all pairs of operands of 6 significant bits.
ghost use Rattle.std.specs.Prelude.{◌≡◌, ◌+◌, ◌*◌, nat_lt, count_by};
ghost use Rattle.plot.specs.Visits.{ShadeIs, VisitsAt};

use crate::cells::Place;
use crate::picture;
use crate::picture::Edge;
use crate::print::Output;
use selection::{Estimate, NO_REFUSAL, TABLE_LENGTH};
use std::io;
use std::io::Write;

const BITS: u64 = 6;

const DIGITS: usize = 28;

// What the picture shows of a cell: its place, whether it has a point, and its visits.
#[derive(Clone, Copy)]
struct Visited {
    place: Place,
    in_range: bool,
    visits: u32,
}

fn visited_at(visits: &[u32; TABLE_LENGTH], place: Place) -> Visited
    ensures { VisitsAt visits.now (128 * place.row + place.column) result }
{
    Visited {
        place,
        in_range: place.has_point(Estimate::EightBits),
        visits: visits[place.index()],
    }
}

// The shade of a number of visits; 0 for none. A number, since the style's class of a shade is its number.
fn shade_of(visits: u32) -> u8
    ensures { ShadeIs visits result }
{
    match visits {
        0 => 0,
        1..=7 => 1,
        8..=15 => 2,
        16..=31 => 3,
        32..=63 => 4,
        64..=127 => 5,
        _ => 6,
    }
}

// The class of a cell, by its visits or by why it has none.
fn print_class(out: &mut Output, cell: Visited) -> io::Result<()> {
    if 0 < cell.visits {
        write!(out, "v{}", shade_of(cell.visits))
    } else if cell.in_range {
        out.write_all(b"never")
    } else {
        out.write_all(b"none")
    }
}

// A cell, and what a browser shows of it under the pointer.
fn print_visited(out: &mut Output, cell: Visited, edge: Edge) -> io::Result<()> {
    out.write_all(b"<path class='")?;
    print_class(out, cell)?;
    write!(out, "' {edge}>")?;
    let place = cell.place;
    write!(out, "<title>row {}, column {}, ", place.row, place.column)?;
    let range = if cell.in_range { "" } else { ", out of range" };
    writeln!(out, "visits: {}{range}</title></path>", cell.visits)
}

fn draw_cells(out: &mut Output, visits: &[u32; TABLE_LENGTH]) -> io::Result<()> {
    for k in 0..TABLE_LENGTH {
        let cell = visited_at(visits, Place::of(k));
        if let Some(edge) = cell.place.edge() {
            print_visited(out, cell, edge)?;
        }
    }
    Ok(())
}

// How many cells are met.
fn count_met(visits: &[u32; TABLE_LENGTH]) -> usize
    ensures { result ≡ count_by (λ n. nat_lt 0 n) visits.now }
{
    visits.iter().filter(|count| 0 < **count).count()
}

// The shades, from light to dark, and stripes for a cell that is never met; the line below the heading.
fn print_shades(out: &mut Output, met: usize) -> io::Result<()> {
    out.write_all(
        b"<style>\n\
        .v1{fill:#fdf3b8}.v2{fill:#fbd97c}.v3{fill:#f5a54f}.v4{fill:#dd5f3c}.v5{fill:#a92a50}.v6{fill:#4d1259}\n\
        .never{fill:url(#stripes)}.none{fill:#efefef}\n\
        </style>\n\
        <defs><pattern id='stripes' width='6' height='6' patternUnits='userSpaceOnUse'>\
        <path fill='#fff' d='M0 0h6v6H0z'/><path stroke='#2a7de1' stroke-width='1.2' d='M-1 4L4 -1M2 7L7 2'/>\
        </pattern></defs>\n\
        <text x='100' y='60' font-size='16'>28 digits of each of the 1,024 pairs of operands of 6 significant bits: \
        28,672 digits, taken at ",
    )?;
    writeln!(out, "{met} cells.</text>\n<g class='cells'>")
}

fn print_legend(out: &mut Output) -> io::Result<()> {
    out.write_all(
        b"<text x='836' y='96' font-weight='bold'>visits of a cell</text>\n\
        <path class='v6' d='M836 106h34v20h-34z'/><text x='880' y='121'>128 or more</text>\n\
        <path class='v5' d='M836 133h34v20h-34z'/><text x='880' y='148'>64 to 127</text>\n\
        <path class='v4' d='M836 160h34v20h-34z'/><text x='880' y='175'>32 to 63</text>\n\
        <path class='v3' d='M836 187h34v20h-34z'/><text x='880' y='202'>16 to 31</text>\n\
        <path class='v2' d='M836 214h34v20h-34z'/><text x='880' y='229'>8 to 15</text>\n\
        <path class='v1' d='M836 241h34v20h-34z'/><text x='880' y='256'>1 to 7</text>\n\
        <path class='never' d='M836 268h34v20h-34z'/><text x='880' y='283'>never met</text>\n\
        <path class='none' d='M836 295h34v20h-34z'/><text x='880' y='310'>out of range</text>\n",
    )?;
    picture::print_line_keys(out)
}

fn draw_picture(out: &mut Output, visits: &[u32; TABLE_LENGTH]) -> io::Result<()> {
    picture::print_start(
        out,
        "P-D plot of the visits of a table's cells",
        "P-D plot: how often each cell of the table is met",
    )?;
    print_shades(out, count_met(visits))?;
    draw_cells(out, visits)?;
    picture::print_frame(out)?;
    picture::print_axes(out)?;
    print_legend(out)
}

// What the call refuses gets the two lines of a refusal.
pub(crate) fn draw_visits(out: &mut Output, bytes: &[u8]) -> io::Result<()> {
    let mut visits = [0u32; TABLE_LENGTH];
    let refusal = recurrence::visits::count_visits(bytes, BITS, DIGITS, &mut visits);
    if refusal != NO_REFUSAL {
        return picture::print_refusal(out, refusal);
    }
    draw_picture(out, &visits)
}
