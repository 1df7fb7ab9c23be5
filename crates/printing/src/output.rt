// Writing what a lent buffer holds. `Write::write_all` does not tell how many bytes were taken, and makes an interrupted write again up to 2^64 times.
ghost use Rattle.std.specs.Prelude.{◌≤◌, length, take};
ghost use Rattle.std.specs.Io.{WritesAtMost};
ghost use Rattle.std.specs.Io.KnownBytes.{Appends, WriteAppends};

use crate::{AGAIN, interrupted};
use std::io::{Result, Write};

// One write, made again where a signal has interrupted it.
fn write_again<W: Write>(writer: &mut W, bytes: &[u8]) -> Result<usize>
    ensures bound { WritesAtMost result bytes.now }
    ensures bytes { WriteAppends (W.contents writer.old) (W.contents writer.new) result bytes.now }
{
    for _ in 0..AGAIN {
        match writer.write(bytes) {
            Err(error) if interrupted(&error) => {}
            result => return result,
        }
    }
    writer.write(bytes)
}

// How many bytes were taken: all of them, or those before the first write that failed or took none. A writer that tells its bytes has them behind those that
// it had.
pub fn write_output<W: Write>(writer: &mut W, bytes: &[u8]) -> usize
    ensures count { result ≤ length bytes.now }
    ensures taken { Appends (W.contents writer.old) (W.contents writer.new) (take result bytes.now) }
{
    let mut count = 0;
    // A `while`, since the count goes on by what a write took.
    while count < bytes.len() {
        match write_again(writer, &bytes[count..]) {
            Ok(0) | Err(_) => break,
            Ok(more) => count += more,
        }
    }
    count
}
