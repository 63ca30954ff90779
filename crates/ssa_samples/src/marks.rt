//! A sink that tells when it is flushed.
ghost use Rattle.std.specs.Prelude.{◌≡◌, None, IsTrue, IsErr};
ghost use Rattle.ssa_json.specs.Devices.{is_fault};

use ssa_json::sink::Sink;
use ssa_json::source::DeviceFault;
use std::alloc::Global;

/// Takes one byte at a time, and marks each flush by a bar.
#[derive(Drop)]
pub struct Marks {
    bytes: Vec<u8>,
    has_failed: bool,
    is_handed_on: bool,
}

impl Marks {
    pub fn new(alloc: Global) -> Marks {
        Marks {
            bytes: Vec::new(alloc),
            has_failed: false,
            is_handed_on: true,
        }
    }

    /// What was written, with a bar for each flush.
    pub fn bytes(&self) -> &[u8] {
        self.bytes.as_slice()
    }

    // Takes a byte, unless it has failed.
    fn take(&mut self, byte: u8) -> Result<(), DeviceFault>
        ensures failed { self.new.has_failed ≡ is_fault result }
        ensures stays_failed { IsTrue self.old.has_failed → IsErr result }
    {
        if self.has_failed {
            return Err(DeviceFault);
        }
        if self.bytes.push(byte).is_err() {
            self.has_failed = true;
            return Err(DeviceFault);
        }
        Ok(())
    }
}

impl Sink for Marks {
    ghost contents = { λ _. None };

    ghost has_failed = { λ s. s.has_failed };

    ghost is_handed_on = { λ s. s.is_handed_on };

    fn write(&mut self, bytes: &[u8]) -> Result<usize, DeviceFault> {
        let Some(first) = bytes.first() else {
            return if self.has_failed {
                Err(DeviceFault)
            } else {
                Ok(0)
            };
        };
        self.take(*first)?;
        self.is_handed_on = false;
        Ok(1)
    }

    fn flush(&mut self) -> Result<(), DeviceFault> {
        self.take(b'|')?;
        self.is_handed_on = true;
        Ok(())
    }
}
