//! Where bytes go.
ghost use Rattle.std.specs.Prelude.{◌≡◌, ℕ, ◌<◌, ◌≤◌, List, length, Bool, true, Option, IfOk, OnOk, OnErr, IsTrue, IsErr, false};
ghost use Rattle.std.specs.Io.KnownBytes.{Appends, Keeps, WriteAppends};
ghost use Rattle.ssa_json.specs.Devices.{AppendsPart, is_fault};

use crate::retrying::write_on;
use crate::source::DeviceFault;
use std::io::Write;

/// A writer.
pub trait Sink {
    // The bytes that were written, where the sink tells them.
    ghost contents: { Self → Option (List ℕ) };

    // Whether the device has failed.
    ghost has_failed: { Self → Bool };

    // Whether all that was written is handed on to the device: from a flush on, until more is written.
    ghost is_handed_on: { Self → Bool };

    /// Writes the first bytes, at least one where there is one, and says how many.
    fn write(&mut self, bytes: &[u8]) -> Result<usize, DeviceFault>
        ensures bound { IfOk result (λ n. n ≤ length bytes.now) }
        ensures some { IfOk result (λ n. 0 < length bytes.now → 0 < n) }
        ensures bytes { WriteAppends (contents self.old) (contents self.new) result bytes.now }
        ensures not_handed_on { IfOk result (λ n. 0 < n → is_handed_on self.new ≡ false) }
        ensures failed { has_failed self.new ≡ is_fault result }
        ensures stays_failed { IsTrue (has_failed self.old) → IsErr result };

    /// Hands on what was written.
    fn flush(&mut self) -> Result<(), DeviceFault>
        ensures bytes { Keeps (contents self.old) (contents self.new) }
        ensures handed_on { OnOk result (is_handed_on self.new ≡ true) }
        ensures failed { has_failed self.new ≡ is_fault result }
        ensures stays_failed { IsTrue (has_failed self.old) → IsErr result };
}

/// Writes all the bytes. A fault leaves a beginning of them written.
pub fn write_all<W: Sink>(writer: &mut W, bytes: &[u8]) -> Result<(), DeviceFault>
    ensures ok { OnOk result (Appends (W.contents writer.old) (W.contents writer.new) bytes.now) }
    ensures err { OnErr result (AppendsPart (W.contents writer.old) (W.contents writer.new) bytes.now) }
    ensures failed { OnErr result (W.has_failed writer.new ≡ true) }
{
    let mut rest = bytes;
    while !rest.is_empty() {
        let n = writer.write(rest)?;
        rest = &rest[n..];
    }
    Ok(())
}

/// A `std` writer as a sink. It has failed once the writer fails or takes no byte of some, and fails from then on.
#[derive(Drop)]
pub struct OfWriter<W> {
    writer: W,
    has_failed: bool,
    is_handed_on: bool,
}

impl<W: Write> OfWriter<W> {
    pub fn new(writer: W) -> OfWriter<W>
        ensures { result ≡ record { writer = writer; has_failed = false; is_handed_on = true } }
    {
        OfWriter {
            writer,
            has_failed: false,
            is_handed_on: true,
        }
    }

    /// The writer.
    pub fn into_inner(self) -> W
        ensures { result ≡ self.writer }
    {
        self.writer
    }
}

impl<W: Write> Sink for OfWriter<W> {
    ghost contents = { λ s. W.contents s.writer };

    ghost has_failed = { λ s. s.has_failed };

    ghost is_handed_on = { λ s. s.is_handed_on };

    fn write(&mut self, bytes: &[u8]) -> Result<usize, DeviceFault> {
        if self.has_failed {
            return Err(DeviceFault);
        }
        self.is_handed_on = false;
        match write_on(&mut self.writer, bytes) {
            Ok(n) if n > 0 || bytes.is_empty() => Ok(n),
            _ => {
                self.has_failed = true;
                Err(DeviceFault)
            }
        }
    }

    fn flush(&mut self) -> Result<(), DeviceFault> {
        if self.has_failed {
            return Err(DeviceFault);
        }
        match self.writer.flush() {
            Ok(()) => {
                self.is_handed_on = true;
                Ok(())
            }
            Err(_) => {
                self.has_failed = true;
                Err(DeviceFault)
            }
        }
    }
}
