// The repair program: a table as it was read back comes from standard input, its repair goes to standard output and a line for each change to standard error. It is for a divider that
// adds as many bits as the argument says, 7 or 8 (8 where there is none).
#![tactic(auto)]

ghost use Rattle.std.specs.Prelude.{◌*◌, ◌≤◌, length};
ghost use Rattle.io.specs.Counts.{IsPrefixLen};
ghost use Rattle.printing.specs.Text.{Adds, Empty};
ghost use Rattle.repair.specs.Changes.{cell_text, cells_upto, changes_text, Writes, WritesRead};

use printing::argument::argument;
use printing::input::{INPUT, read_input};
use printing::output::write_output;
use printing::text::Text;
use selection::repair::repair_table;
use selection::{Estimate, NO_REFUSAL, TABLE_LENGTH};

// Room for the longest text: 20 bytes of names, 2,048 lines of four numbers, each of 20 digits and a byte behind it, and 59 bytes of the last line.
const ROOM: usize = 172111;

// The line of cell k, where `byte` was read back and `new` is the repaired table's: none if they are one.
#[tactic(auto, using(printing::proofs::Texts::pushed_pushed))]
fn push_cell(out: &mut Text<ROOM>, k: usize, byte: u8, new: u8)
    requires { 84 ≤ length out.old.rest }
    ensures { Adds out.old (cell_text k byte new) 84 out.new }
{
    if byte == new {
        return;
    }
    out.push_number((k / 128) as u64, b" ");
    out.push_number((k % 128) as u64, b" ");
    out.push_number(u64::from(byte), b" ");
    out.push_number(u64::from(new), b"\n");
}

// The lines of all cells, in index order.
#[tactic(auto, using(printing::proofs::Texts::pushed_pushed, printing::proofs::Texts::adds_none), unfolding(crate::specs::Changes::cells_upto))]
fn push_cells(out: &mut Text<ROOM>, table: &[u8; TABLE_LENGTH], repaired: &[u8; TABLE_LENGTH])
    requires { 84 * 2048 ≤ length out.old.rest }
    ensures { Adds out.old (cells_upto table.now repaired.now 2048) (84 * 2048) out.new }
{
    for k in 0..TABLE_LENGTH {
        push_cell(out, k, table[k], repaired[k]);
    }
}

// The whole text of a repair.
fn push_changes(
    out: &mut Text<ROOM>,
    estimate: Estimate,
    table: &[u8; TABLE_LENGTH],
    repaired: &[u8; TABLE_LENGTH],
    count: u64,
)
    requires { ROOM ≤ length out.old.rest }
    ensures { Adds out.old (changes_text estimate table.now repaired.now count) ROOM out.new }
{
    out.push(b"row column byte new\n");
    push_cells(out, table, repaired);
    out.push(b"changes ");
    out.push_number(count, b" for ");
    out.push_number(u64::from(estimate), b" bits\n");
}

// All that is written for the bytes of an input: the bytes of the repaired table, none for a refusal, and the text.
fn repair(estimate: Estimate, bytes: &[u8], table: &mut Text<TABLE_LENGTH>, text: &mut Text<ROOM>)
    requires { Empty table.old TABLE_LENGTH × Empty text.old ROOM }
    ensures { (Writes estimate) bytes.now table.new.text text.new.text }
{
    let mut repaired = [0u8; TABLE_LENGTH];
    let mut changed = [0u8; TABLE_LENGTH];
    let answer = repair_table(estimate, bytes, &mut repaired, &mut changed);
    if answer.refusal != NO_REFUSAL {
        text.push_refusal(answer.refusal);
        return;
    }
    table.push(&repaired);
    // What is not refused has the length of a table.
    let read_back = bytes.as_array().unwrap();
    push_changes(text, estimate, read_back, &repaired, answer.count);
}

// The same for what was read of standard input: `count` bytes, all of it or as much as there is room for.
// Buffer and count are two arguments, as WritesRead has them: a full buffer means that there may be more input.
fn repair_input(
    estimate: Estimate,
    bytes: &[u8; INPUT],
    count: usize,
    table: &mut Text<TABLE_LENGTH>,
    text: &mut Text<ROOM>,
)
    requires { IsPrefixLen count bytes.now × (Empty table.old TABLE_LENGTH × Empty text.old ROOM) }
    ensures { (WritesRead estimate) bytes.now count table.new.text text.new.text }
{
    repair(estimate, &bytes[..count], table, text);
}

// A read or a write that fails is told. Where the text cannot be told, the table is not written: a repair is not handed on in silence.
fn run(rt: &HostRuntime) -> Result<(), &'static str> {
    let estimate = argument(rt).ok_or("usage: repair [7|8] < TABLE > REPAIRED\n")?;
    let mut bytes = [0u8; INPUT];
    let count = read_input(&mut rt.stdin(), &mut bytes).map_err(|_| "repair: not all was read\n")?;
    let mut table = Text::new();
    let mut text = Text::new();
    repair_input(estimate, &bytes, count, &mut table, &mut text);
    let text = text.as_bytes();
    if write_output(&mut rt.stderr(), text) < text.len() {
        return Ok(());
    }
    let table = table.as_bytes();
    if write_output(&mut rt.stdout(), table) < table.len() {
        return Err("repair: not all was written\n");
    }
    Ok(())
}

fn main(rt: HostRuntime) {
    if let Err(message) = run(&rt) {
        write_output(&mut rt.stderr(), message.as_bytes());
    }
}
