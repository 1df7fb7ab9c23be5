// Standard output. No contract can say which bytes reach the system.
use printing::output::write_output;
use std::io::{Error, ErrorKind, Result, Stdout, Write};

#[derive(Drop)]
pub(crate) struct Output(pub(crate) Stdout);

impl Write for Output {
    fn write(&mut self, bytes: &[u8]) -> Result<usize> {
        self.0.write(bytes)
    }

    fn flush(&mut self) -> Result<()> {
        self.0.flush()
    }

    // A write that a signal interrupts is made again as often as `write_output` does it: `Write::write_all` would do it up to 2^64 times.
    fn write_all(&mut self, bytes: &[u8]) -> Result<()> {
        if write_output(&mut self.0, bytes) == bytes.len() {
            Ok(())
        } else {
            Err(Error::from(ErrorKind::WriteZero))
        }
    }
}
