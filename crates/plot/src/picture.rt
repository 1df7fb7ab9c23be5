// The marks of the picture, in SVG. A cell is 40 wide and 6 high; the lower left corner of row 0, column 16 is at (100, 660), so that
// D is 640 wide from 1 to 2 and P 576 high from -6 to 6. The texts are in ASCII.
ghost use Rattle.std.specs.Prelude.{◌≤◌, ◌<◌};

use crate::cells::Cell;
use crate::print::Output;
use printing::text::Text;
use selection::table::BadCell;
use selection::{Refusal, digit_of};
use std::fmt::{Display, Formatter};
use std::io::Write;
use std::{fmt, io};

// Some drawn cells of a row: the columns from `from` to before `end`. It is printed as the path round them.
#[derive(Clone, Copy)]
pub(crate) struct Edge {
    pub(crate) row: usize,
    pub(crate) from: usize,
    pub(crate) end: usize,
    ghost row_bound: { row ≤ 15 },
    ghost not_empty: { from < end },
    ghost end_bound: { end ≤ 112 },
}

impl Display for Edge {
    fn fmt<W: fmt::Write>(&self, f: &mut Formatter<W>) -> fmt::Result {
        let left = 100 + 40 * self.row;
        let top = 756 - 6 * self.end;
        let height = 6 * (self.end - self.from);
        write!(f, "d='M{left} {top}h40v{height}h-40z'")
    }
}

// Which digits may stand in a cell, and whether its own may not.
fn print_choice(out: &mut Output, cell: &Cell) -> io::Result<()> {
    if !cell.in_range {
        return out.write_all(b"out of range: any digit will do");
    }
    if !cell.good {
        out.write_all(b"bad, ")?;
    }
    out.write_all(b"allowed:")?;
    for (digit, allowed) in (-2..=2).zip(cell.allowed) {
        if allowed {
            write!(out, " {digit}")?;
        }
    }
    Ok(())
}

// A cell in its digit's colour, faded where it has no point, and what a browser shows of it under the pointer. The style's class of a digit has the
// number of its byte.
pub(crate) fn print_cell(out: &mut Output, cell: &Cell, edge: Edge) -> io::Result<()> {
    let range = if cell.in_range { "" } else { "out " };
    write!(out, "<path class='{range}q{}' {edge}>", cell.byte)?;
    let place = cell.place;
    let digit = digit_of(cell.byte);
    write!(
        out,
        "<title>row {}, column {}, digit {digit}, ",
        place.row, place.column
    )?;
    print_choice(out, cell)?;
    out.write_all(b"</title></path>\n")
}

// The outline of bad cells, which leaves their colours to be seen.
pub(crate) fn print_mark(out: &mut Output, edge: Edge) -> io::Result<()> {
    writeln!(out, "<path class='over bad' {edge}/>")
}

// A ring round the outline, so that a single bad cell is seen.
pub(crate) fn print_ring(out: &mut Output, edge: Edge) -> io::Result<()> {
    let x = 120 + 40 * edge.row;
    let y = 756 - 3 * (edge.from + edge.end);
    let radius = 9 + 5 * (edge.end - edge.from);
    writeln!(
        out,
        "<ellipse class='over ring' cx='{x}' cy='{y}' rx='28' ry='{radius}'/>"
    )
}

// The start of a picture: its title, and the heading in it.
pub(crate) fn print_start<T: Display + Drop, H: Display + Drop>(
    out: &mut Output,
    title: T,
    heading: H,
) -> io::Result<()> {
    out.write_all(
        b"<svg xmlns='http://www.w3.org/2000/svg' viewBox='0 0 1030 770' width='1030' height='770' \
        font-family='Helvetica,Arial,sans-serif' font-size='15' fill='#222'>\n",
    )?;
    writeln!(out, "<title>{title}</title>")?;
    print_style(out)?;
    out.write_all(b"<path fill='#fff' d='M0 0h1030v770H0z'/>\n")?;
    writeln!(
        out,
        "<text x='100' y='32' font-size='21' font-weight='bold'>{heading}</text>"
    )
}

// Colours: orange for digits below zero, grey for 0, blue above. They differ in lightness too. What is drawn above the cells leaves
// the pointer to them.
fn print_style(out: &mut Output) -> io::Result<()> {
    out.write_all(
        b"<style>\n\
        .q0{fill:#c4560d}.q1{fill:#f6b26b}.q2{fill:#c4c4c4}.q3{fill:#8fc1e3}.q4{fill:#1f63ad}.out{fill-opacity:.2}\n\
        .cells path{shape-rendering:crispEdges}.over{fill:none;pointer-events:none}\n\
        .grid{stroke:#fff;stroke-opacity:.55}.axis{stroke:#222}.line{stroke:#000;stroke-width:1.3}\n\
        .range{stroke:#000;stroke-width:2.5;stroke-dasharray:9 4}\n\
        .bad{stroke:#e0007a;stroke-width:2}.ring{stroke:#e0007a;stroke-width:2.5}\n\
        .m{text-anchor:middle}.e{text-anchor:end}.small{font-size:13px;fill:#555}\n\
        </style>\n",
    )
}

pub(crate) fn print_passed(out: &mut Output) -> io::Result<()> {
    out.write_all(
        b"<text x='100' y='60' font-size='16'>The table passes the check: no bad cell.</text>\n<g class='cells'>\n",
    )
}

// The number of bad cells, and the first of them.
pub(crate) fn print_bad(out: &mut Output, count: u64, first: BadCell) -> io::Result<()> {
    out.write_all(b"<text x='100' y='60' font-size='16' font-weight='bold' fill='#b0006a'>")?;
    writeln!(
        out,
        "Bad cells: {count}; the first is row {}, column {}</text>",
        first.row, first.column
    )?;
    out.write_all(b"<g class='cells'>\n")
}

// The rows' grid, the frame with its ticks and the line P = 0, and the lines P = k/3 D: at k = 8 and -8 the range of P; the digit q
// may stand between k = 3q - 2 and 3q + 2, so that between k = 1 and 2, and between 4 and 5, there is a choice of two.
pub(crate) fn print_frame(out: &mut Output) -> io::Result<()> {
    out.write_all(
        b"</g>\n<path class='over grid' d='M140 84v576M180 84v576M220 84v576M260 84v576M300 84v576M340 84v576M380 84v576\
        M420 84v576M460 84v576M500 84v576M540 84v576M580 84v576M620 84v576M660 84v576M700 84v576'/>\n",
    )?;
    out.write_all(
        b"<path class='over axis' d='M100 84h640v576H100zM100 372h640\
            M94 84h6M94 180h6M94 276h6M94 372h6M94 468h6M94 564h6M94 660h6\
            M100 660v6M260 660v6M420 660v6M580 660v6M740 660v6'/>\n",
    )?;
    out.write_all(
        b"<path class='over line' d='M100 356L740 340M100 340L740 308M100 308L740 244M100 292L740 212\
            M100 388L740 404M100 404L740 436M100 436L740 500M100 452L740 532'/>\n\
            <path class='over range' d='M100 244L740 116M100 500L740 628'/>\n",
    )
}

// The names of rows and columns, small, outside them the values of D and P, and the names of the lines where they end.
pub(crate) fn print_axes(out: &mut Output) -> io::Result<()> {
    out.write_all(
        b"<g class='m small'>\n\
        <text x='120' y='681'>0</text><text x='160' y='681'>1</text><text x='200' y='681'>2</text><text x='240' y='681'>3</text>\n\
        <text x='280' y='681'>4</text><text x='320' y='681'>5</text><text x='360' y='681'>6</text><text x='400' y='681'>7</text>\n\
        <text x='440' y='681'>8</text><text x='480' y='681'>9</text><text x='520' y='681'>10</text><text x='560' y='681'>11</text>\n\
        <text x='600' y='681'>12</text><text x='640' y='681'>13</text><text x='680' y='681'>14</text><text x='720' y='681'>15</text>\n\
        </g>\n\
        <g class='e small'>\n\
        <text x='90' y='681'>row</text><text x='90' y='72'>column</text>\n\
        <text x='90' y='665'>16</text><text x='90' y='569'>32</text><text x='90' y='473'>48</text>\n\
        <text x='90' y='377'>64</text><text x='90' y='281'>80</text><text x='90' y='185'>96</text>\n\
        </g>\n",
    )?;
    out.write_all(
        b"<g class='m'>\n\
            <text x='100' y='703'>1</text><text x='260' y='703'>1.25</text><text x='420' y='703'>1.5</text>\n\
            <text x='580' y='703'>1.75</text><text x='740' y='703'>2</text>\n\
            <text x='420' y='728'>divisor D, 1 to 2</text>\n\
            <text transform='translate(24 372)rotate(-90)'>remainder P</text>\n\
            </g>\n\
            <g class='e'>\n\
            <text x='56' y='665'>-6</text><text x='56' y='569'>-4</text><text x='56' y='473'>-2</text><text x='56' y='377'>0</text>\n\
            <text x='56' y='281'>2</text><text x='56' y='185'>4</text><text x='56' y='89'>6</text>\n\
            </g>\n\
            <text x='748' y='121'>8/3 D</text><text x='748' y='217'>5/3 D</text><text x='748' y='249'>4/3 D</text>\n\
            <text x='748' y='313'>2/3 D</text><text x='748' y='345'>1/3 D</text><text x='748' y='409'>-1/3 D</text>\n\
            <text x='748' y='441'>-2/3 D</text><text x='748' y='505'>-4/3 D</text><text x='748' y='537'>-5/3 D</text>\n\
            <text x='748' y='633'>-8/3 D</text>\n\
            <g class='small'>\n\
            <text x='758' y='232'>1 or 2</text><text x='758' y='328'>0 or 1</text>\n\
            <text x='758' y='424'>-1 or 0</text><text x='758' y='520'>-2 or -1</text>\n\
            </g>\n\
            <text class='small' x='100' y='754'>D and P are the stored numbers divided by 2^60. A cell is drawn at its truncated estimate t; \
            P is from t to almost 1.5 columns above t.</text>\n",
    )
}

pub(crate) fn print_legend(out: &mut Output) -> io::Result<()> {
    out.write_all(
        b"<text x='836' y='96' font-weight='bold'>digit q</text>\n\
        <path class='q4' d='M836 106h34v20h-34z'/><text x='880' y='121'>2</text>\n\
        <path class='q3' d='M836 133h34v20h-34z'/><text x='880' y='148'>1</text>\n\
        <path class='q2' d='M836 160h34v20h-34z'/><text x='880' y='175'>0</text>\n\
        <path class='q1' d='M836 187h34v20h-34z'/><text x='880' y='202'>-1</text>\n\
        <path class='q0' d='M836 214h34v20h-34z'/><text x='880' y='229'>-2</text>\n\
        <path class='out q4' d='M836 256h17v20h-17z'/><path class='out q2' d='M853 256h17v20h-17z'/>\n\
        <text x='880' y='264'>out of range:</text><text x='880' y='282'>any digit will do</text>\n\
        <path class='q2' d='M836 310h34v6h-34z'/><path class='over bad' d='M836 310h34v6h-34z'/>\n\
        <text x='880' y='318'>bad cell</text>\n",
    )?;
    print_line_keys(out)
}

// What the lines are, and the picture's end.
pub(crate) fn print_line_keys(out: &mut Output) -> io::Result<()> {
    out.write_all(
        b"<path class='over range' d='M836 350h34'/>\n\
        <text x='880' y='355'>range of P:</text><text x='880' y='373'>-8/3 D to 8/3 D</text>\n\
        <path class='over line' d='M836 406h34'/>\n\
        <text x='880' y='411'>q is allowed from</text><text x='880' y='429'>(q - 2/3) D</text>\n\
        <text x='880' y='447'>to (q + 2/3) D</text>\n\
        </svg>\n",
    )
}

// The two lines of a refusal, as the listing program prints them.
pub(crate) fn print_refusal(out: &mut Output, refusal: Refusal) -> io::Result<()> {
    let mut text = Text::<56>::new();
    text.push_refusal(refusal);
    out.write_all(text.as_bytes())
}
