// Public test vectors of IEEE 754 division and square root through the unit: of each file how many lines were run, and how many of them differ.
#![tactic(auto)]

ghost use Rattle.std.specs.Prelude.{◌≡◌, ◌+◌, ◌^◌, ◌≤◌, ◌<◌, length, map, IfOk};
ghost use Rattle.io.specs.Counts.{IsPrefixLen};
ghost use Rattle.printing.specs.Text.{Adds};
ghost use Rattle.vectors.specs.Vectors.{nibble_of, hex_of, is_root, operation_of, vector_of, line_fits, formed, answer_of, differs_in, line_differs, counts_of, Ran};
ghost use Rattle.vectors.specs.Report.{file_names, counts_text, total_text, Reports};

use division::format::Binary64;
use printing::argument::word_count;
use printing::input::read_input;
use printing::output::write_output;
use printing::text::Text;
use selection::NO_REFUSAL;
use std::fs::File;
use std::io;
use std::io::{Cursor, Write};

// What a line asks for: the quotient of two operands, or the root of one.
#[derive(Clone, Copy)]
enum Operation {
    Quotient(u64, u64),
    Root(u64),
}

// One case: an operation, its direction, and the pattern and flags that are expected, by the numbers that the unit's calls take and give.
#[derive(Clone, Copy)]
struct Vector {
    operation: Operation,
    direction: u64,
    pattern: u64,
    flags: u64,
}

#[derive(Clone, Copy)]
struct Counts {
    run: u64,
    differ: u64,
}

// The files of the vectors.
const FILES: [&str; 7] = [
    "div-testfloat.txt",
    "div-glibc.txt",
    "div-llvm.txt",
    "div-mpfr.txt",
    "div-nan.txt",
    "sqrt-testfloat.txt",
    "sqrt-glibc.txt",
];

// Room for the longest report: 16 bytes of names, seven lines of a name of at most 18 bytes and two numbers of 20 digits, and 86 bytes for all files.
const ROOM: usize = 16 + 7 * (18 + 43) + 86;

// Room for the bytes of 16,000 lines and one byte more, so that a longer file is seen.
const FILE: usize = 16000 * LINE + 1;

// The bytes of a line, its end among them.
const LINE: usize = 56;

// The value of a hexadecimal digit; of another byte 0. The library's `to_digit` takes capital letters too.
fn nibble(c: u8) -> u64
    ensures { (result ≡ nibble_of c) × (result < 16) }
{
    match c {
        b'0'..=b'9' => u64::from(c - b'0'),
        b'a'..=b'f' => u64::from(c - b'a') + 10,
        _ => 0,
    }
}

// Whether a line may have the byte c at index i: of a root the second operand is blank.
fn fits(root: bool, i: usize, c: u8) -> bool
    ensures { result ≡ line_fits root i c }
{
    match i {
        17..=32 if root => c == b' ',
        16 | 33 | 35 | 52 => c == b' ',
        34 | 53 | 54 => c.is_ascii_digit(),
        55 => c == b'\n',
        _ => matches!(c, b'0'..=b'9' | b'a'..=b'f'),
    }
}

// Whether a line is a root's: its second operand is blank.
fn is_root(line: &[u8; LINE]) -> bool
    ensures { result ≡ is_root line.now }
{
    line[17] == b' '
}

fn well_formed(line: &[u8; LINE]) -> bool
    ensures { result ≡ formed line.now }
{
    let root = is_root(line);
    line.iter().enumerate().all(|(i, c)| fits(root, i, *c))
}

// The number that hexadecimal digits spell.
fn hex(digits: &[u8]) -> u64
    requires { length digits.now ≤ 16 }
    ensures { (result ≡ hex_of digits.now) × (result < 16 ^ length digits.now) }
{
    let mut value = 0;
    for c in digits {
        value = 16 * value + nibble(*c);
    }
    value
}

fn operation_of(line: &[u8; LINE]) -> Operation
    ensures { result ≡ operation_of line.now }
{
    let a = hex(&line[..16]);
    if is_root(line) {
        Operation::Root(a)
    } else {
        Operation::Quotient(a, hex(&line[17..33]))
    }
}

fn parse(line: &[u8; LINE]) -> Vector
    ensures { result ≡ vector_of line.now }
{
    Vector {
        operation: operation_of(line),
        direction: hex(&line[34..35]),
        pattern: hex(&line[36..52]),
        flags: 10 * hex(&line[53..54]) + hex(&line[54..55]),
    }
}

// The unit's answer: a root, or a quotient through the kept table. A direction above 3 is refused there.
fn answer_of(operation: Operation, direction: u64) -> Binary64
    ensures { result ≡ answer_of operation direction }
{
    match operation {
        Operation::Quotient(a, b) => division::binary64::divide_binary64_kept(a, b, direction),
        Operation::Root(a) => division::root::root_binary64(a, direction),
    }
}

// Whether the unit's answer differs from the expected one: it is a refusal, or in the pattern, or in the flags.
fn differs(v: Vector) -> bool
    ensures { result ≡ differs_in v }
{
    let answer = answer_of(v.operation, v.direction);
    answer.refusal != NO_REFUSAL || answer.pattern != v.pattern || answer.flags != v.flags
}

// A line that is cut short or not in the form differs.
fn line_differs(line: &[u8]) -> bool
    ensures { result ≡ line_differs line.now }
{
    let Some(line) = line.as_array() else {
        return true;
    };
    !well_formed(line) || differs(parse(line))
}

// The last line may be cut short.
fn count_lines(bytes: &[u8]) -> Counts
    requires { length bytes.now ≤ 896000 }
    ensures { result ≡ counts_of bytes.now }
{
    let lines = bytes.chunks(LINE);
    Counts {
        run: lines.len() as u64,
        differ: lines.filter(|line| line_differs(line)).count() as u64,
    }
}

// Where the number begins that std puts behind the system's words for an error, or else where a text that zeros follow ends.
fn words_end(text: &[u8]) -> usize
    ensures { result ≤ length text.now }
{
    for (i, c) in text.iter().enumerate() {
        if *c == 0 || text[i..].starts_with(b" (os error ") {
            return i;
        }
    }
    text.len()
}

// Why a file was not read, in the system's words.
fn tell_failure(rt: &HostRuntime, name: &str, error: io::Error) {
    let mut words = Cursor::new([0u8; 320]);
    let _ = write!(words, "{error}");
    let text = words.into_inner();
    let mut stderr = rt.stderr();
    write_output(&mut stderr, name.as_bytes());
    write_output(&mut stderr, b": ");
    write_output(&mut stderr, &text[..words_end(&text)]);
    write_output(&mut stderr, b"\n");
}

// How many bytes of a file were read. An open or a read that a signal interrupts is made again.
fn read_file(rt: &HostRuntime, name: &str, bytes: &mut [u8; FILE]) -> io::Result<usize>
    ensures { IfOk result (λ n. IsPrefixLen n bytes.new) }
{
    let mut file = File::open(rt, name)?;
    read_input(&mut file, bytes).map_err(|cut| cut.error)
}

fn tell_too_long(rt: &HostRuntime, name: &str) {
    let mut stderr = rt.stderr();
    write_output(&mut stderr, name.as_bytes());
    write_output(&mut stderr, b": more than 16000 lines\n");
}

// What is told of a file: nothing where not all of it was read, and otherwise its counts. Why it was not read is told on standard error.
fn run_file(rt: &HostRuntime, name: &str) -> Option<Counts>
    ensures { Ran result }
{
    let mut bytes = [0u8; FILE];
    match read_file(rt, name, &mut bytes) {
        Err(error) => {
            tell_failure(rt, name, error);
            None
        }
        Ok(FILE) => {
            tell_too_long(rt, name);
            None
        }
        Ok(count) => Some(count_lines(&bytes[..count])),
    }
}

// A name, the number of lines and how many of them differ, and what follows them.
#[tactic(auto, using(printing::proofs::Texts::pushed_pushed))]
fn push_counts(out: &mut Text<ROOM>, name: &[u8], counts: Counts, end: &[u8])
    requires { length name.now + 42 + length end.now ≤ length out.old.rest }
    ensures { Adds out.old (counts_text name.now counts end.now) (length name.now + 42 + length end.now) out.new }
{
    out.push(name);
    out.push(b" ");
    out.push_number(counts.run, b" ");
    out.push_number(counts.differ, end);
}

// The line for all files. Where some were not read it says how many: `total 0 0` alone would look like a pass.
#[tactic(auto, using(printing::proofs::Texts::pushed_pushed))]
fn push_total(out: &mut Text<ROOM>, total: Counts, unread: u64)
    requires { 86 ≤ length out.old.rest }
    ensures { Adds out.old (total_text total unread) 86 out.new }
{
    if unread == 0 {
        push_counts(out, b"total", total, b"\n");
    } else {
        push_counts(out, b"total", total, b", files not read: ");
        out.push_number(unread, b"\n");
    }
}

// All that is printed of the files by these names.
fn report(rt: &HostRuntime, names: &[&str]) -> Text<ROOM>
    requires { map (λ name. name.now) names.now ≡ file_names }
    ensures { Reports result.text }
{
    let mut out = Text::new();
    out.push(b"file run differ\n");
    let mut total = Counts { run: 0, differ: 0 };
    let mut unread = 0;
    for name in names {
        match run_file(rt, name) {
            Some(counts) => {
                push_counts(&mut out, name.as_bytes(), counts, b"\n");
                total.run += counts.run;
                total.differ += counts.differ;
            }
            None => unread += 1,
        }
    }
    push_total(&mut out, total, unread);
    out
}

// The program runs where its files are: the first of them can be opened.
fn run(rt: &HostRuntime) -> Result<(), &'static str> {
    if 1 < word_count(rt) {
        return Err("usage: vectors (in crates/vectors/data)\n");
    }
    if File::open(rt, FILES[0]).is_err() {
        return Err("vectors: no div-testfloat.txt here; run it in crates/vectors/data\n");
    }
    let out = report(rt, &FILES);
    let text = out.as_bytes();
    if write_output(&mut rt.stdout(), text) < text.len() {
        return Err("vectors: not all was written\n");
    }
    Ok(())
}

fn main(rt: HostRuntime) {
    if let Err(message) = run(&rt) {
        write_output(&mut rt.stderr(), message.as_bytes());
    }
}
