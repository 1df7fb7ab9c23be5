// The listing program: the bad cells of a table that is read from standard input, in a divider that adds as many bits as the argument says, 7 or 8 (8 where there is none).
#![tactic(auto)]

ghost use Rattle.std.specs.Prelude.{◌*◌, ◌≤◌, ◌<◌, ◌≡◌, length, drop};
ghost use Rattle.io.specs.Counts.{IsPrefixLen};
ghost use Rattle.printing.specs.Text.{Adds, Empty};
ghost use Rattle.listing.specs.Listing.{Listed, Lists, ListsRead, line_of, witness_text, line_text, text_of, lines_upto, table_text, listing_of};

use printing::argument::argument;
use printing::input::{INPUT, read_input};
use printing::output::write_output;
use printing::text::Text;
use selection::cell::check_cell;
use selection::table::DigitTable;
use selection::{Estimate, TABLE_LENGTH, Witness, digit_of};

// What the listing has of a bad cell: the row, the column, the digit and the witness against it.
#[derive(Clone, Copy)]
struct Line {
    row: u64,
    column: u64,
    digit: i64,
    witness: Witness,
}

// Room for the longest text: 35 bytes of names, and 2,048 lines of five numbers, each of 20 digits, with a sign to two of them.
const ROOM: usize = 219171;

// The line of cell k. No cell of a table is refused.
fn line_of(estimate: Estimate, table: &DigitTable<'_>, k: usize) -> Option<Line>
    requires { k < 2048 }
    ensures { (result ≡ line_of estimate table.now.bytes.now k) × Listed estimate table.now.bytes.now k result }
{
    let row = (k / 128) as u64;
    let column = (k % 128) as u64;
    let byte = table.bytes[k];
    let witness = check_cell(estimate, row, column, byte).unwrap()?;
    Some(Line {
        row,
        column,
        digit: digit_of(byte),
        witness,
    })
}

// The end of a line: the witness's divisor and its remainder.
#[tactic(auto, using(printing::proofs::Texts::pushed_pushed))]
fn push_witness(out: &mut Text<ROOM>, witness: Witness)
    requires { 43 ≤ length out.old.rest }
    ensures { Adds out.old (witness_text witness) 43 out.new }
{
    out.push_number(witness.divisor, b" ");
    out.push_signed(witness.remainder, b"\n");
}

#[tactic(auto, using(printing::proofs::Texts::pushed_pushed))]
fn push_line(out: &mut Text<ROOM>, line: Line)
    requires { 107 ≤ length out.old.rest }
    ensures { Adds out.old (line_text line) 107 out.new }
{
    out.push_number(line.row, b" ");
    out.push_number(line.column, b" ");
    out.push_signed(line.digit, b" ");
    push_witness(out, line.witness);
}

// The lines of all cells, in index order.
fn push_lines(out: &mut Text<ROOM>, estimate: Estimate, table: &DigitTable<'_>)
    requires { 107 * 2048 ≤ length out.old.rest }
    ensures { Adds out.old (lines_upto estimate table.now.bytes.now 2048) (107 * 2048) out.new }
{
    for k in 0..TABLE_LENGTH {
        if let Some(line) = line_of(estimate, table, k) {
            push_line(out, line);
        }
    }
}

#[tactic(auto, using(printing::proofs::Texts::pushed_pushed))]
fn push_table(out: &mut Text<ROOM>, estimate: Estimate, table: &DigitTable<'_>)
    requires { ROOM ≤ length out.old.rest }
    ensures { Adds out.old (table_text estimate table.now.bytes.now) ROOM out.new }
{
    out.push(b"row column digit divisor remainder\n");
    push_lines(out, estimate, table);
}

// All that is printed: a table's lines, or of what is no table the two lines of a refusal.
fn listing(estimate: Estimate, bytes: &[u8], out: &mut Text<ROOM>)
    requires { Empty out.old ROOM }
    ensures out_after { (out.new.text ≡ listing_of estimate bytes.now) × Lists estimate bytes.now out.new.text }
    ensures out_unchanged { out.new.rest ≡ drop (length out.new.text) out.old.rest }
{
    match DigitTable::new(bytes) {
        Ok(table) => push_table(out, estimate, &table),
        Err(refusal) => out.push_refusal(refusal),
    }
}

// The same for what was read of standard input: `count` bytes, all of it or as much as there is room for.
// Buffer and count are two arguments, as ListsRead has them: a full buffer means that there may be more input.
fn listing_of_input(estimate: Estimate, bytes: &[u8; INPUT], count: usize, out: &mut Text<ROOM>)
    requires { IsPrefixLen count bytes.now × Empty out.old ROOM }
    ensures fact { (ListsRead estimate) bytes.now count out.new.text }
    ensures out_unchanged { out.new.rest ≡ drop (length out.new.text) out.old.rest }
{
    listing(estimate, &bytes[..count], out);
}

// A read or a write that fails is told: a table that is read in part would look too short, and a lost line would make a bad cell look allowed.
fn run(rt: &HostRuntime) -> Result<(), &'static str> {
    let estimate = argument(rt).ok_or("usage: listing [7|8] < TABLE\n")?;
    let mut bytes = [0u8; INPUT];
    let count = read_input(&mut rt.stdin(), &mut bytes).map_err(|_| "listing: not all was read\n")?;
    let mut out = Text::new();
    listing_of_input(estimate, &bytes, count, &mut out);
    let text = out.as_bytes();
    if write_output(&mut rt.stdout(), text) < text.len() {
        return Err("listing: not all was written\n");
    }
    Ok(())
}

fn main(rt: HostRuntime) {
    if let Err(message) = run(&rt) {
        write_output(&mut rt.stderr(), message.as_bytes());
    }
}
