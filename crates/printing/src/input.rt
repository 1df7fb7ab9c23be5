// Reading into a lent buffer. `Read::read_exact` does not tell how much came before the end of the input.
ghost use Rattle.std.specs.Prelude.{◌<◌, length, take, IfOk};
ghost use Rattle.std.specs.Io.KnownBytes.{Consumes, IsAtEnd, ReadConsumes};
ghost use Rattle.std.specs.Io.{ReadsAtMost};
ghost use Rattle.io.specs.Counts.{IsPrefixLen};
ghost use Rattle.printing.specs.Input.{count_of};

use crate::{AGAIN, interrupted};
use selection::TABLE_LENGTH;
use std::io;
use std::io::{Error, Read};

// One byte more than a table has, so that a longer input is seen.
pub const INPUT: usize = TABLE_LENGTH + 1;

// A read failed: how many bytes came before it, and why it failed.
#[derive(Clone, Copy, Debug)]
pub struct CutShort {
    pub count: usize,
    pub error: Error,
}

// One read, made again where a signal has interrupted it.
// Beside write_again: with one function for both, which took a closure, it was not proved what reader and buffer hold after it.
fn read_again<R: Read>(reader: &mut R, buffer: &mut [u8]) -> io::Result<usize>
    ensures bound { ReadsAtMost result buffer.new }
    ensures bytes { ReadConsumes (R.remaining reader.old) (R.remaining reader.new) result buffer.new }
{
    for _ in 0..AGAIN {
        match reader.read(buffer) {
            Err(error) if interrupted(&error) => {}
            result => return result,
        }
    }
    reader.read(buffer)
}

// How many bytes were read: all of the input, or as much as there is room for. Of a reader that tells its bytes, those that it has lost stand at the start of
// the buffer; and none is left where no read failed and there is room for more.
pub fn read_input<R: Read>(reader: &mut R, buffer: &mut [u8]) -> Result<usize, CutShort>
    ensures count { IsPrefixLen (count_of result) buffer.new }
    ensures bytes { Consumes (R.remaining reader.old) (R.remaining reader.new) (take (count_of result) buffer.new) }
    ensures end { IfOk result (λ n. n < length buffer.new → IsAtEnd (R.remaining reader.new)) }
{
    let mut count = 0;
    // A `while`, since the count goes on by what a read gave.
    while count < buffer.len() {
        match read_again(reader, &mut buffer[count..]) {
            Ok(0) => break,
            Ok(more) => count += more,
            Err(error) => return Err(CutShort { count, error }),
        }
    }
    Ok(count)
}
