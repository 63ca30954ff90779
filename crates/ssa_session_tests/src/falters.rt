//! A writer that falters.

use std::alloc::Global;
use std::io;
use std::io::{ErrorKind, Write};

/// A `std` writer that takes one byte at a call, until it has been called so often; then it fails, or takes nothing of what it
/// is to write.
#[derive(Drop)]
pub struct Falters {
    bytes: Vec<u8>,
    calls_left: usize,
    takes_nothing: bool,
}

impl Falters {
    pub fn new(alloc: Global, calls_left: usize, takes_nothing: bool) -> Falters {
        Falters {
            bytes: Vec::new(alloc),
            calls_left,
            takes_nothing,
        }
    }

    /// What was written.
    pub fn into_bytes(self) -> Vec<u8> {
        self.bytes
    }

    // Counts a call.
    fn turn(&mut self) -> io::Result<()> {
        if self.calls_left == 0 {
            return Err(io::Error::from(ErrorKind::TimedOut));
        }
        self.calls_left -= 1;
        Ok(())
    }
}

impl Write for Falters {
    fn write(&mut self, buf: &[u8]) -> io::Result<usize> {
        if self.takes_nothing && self.calls_left == 0 {
            return Ok(0);
        }
        self.turn()?;
        let Some(byte) = buf.first() else {
            return Ok(0);
        };
        self.bytes.push(*byte)?;
        Ok(1)
    }

    fn flush(&mut self) -> io::Result<()> {
        self.turn()
    }
}
