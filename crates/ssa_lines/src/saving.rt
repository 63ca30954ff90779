//! The lines of a bench file's text, and how it is written.
ghost use Rattle.std.specs.Prelude.{◌≡◌, ◌≤◌, [], ◌∷◌, ◌++◌, IfErr, OnErr, OnOk, length, true};
ghost use Rattle.std.specs.Io.KnownBytes.{Appends};
ghost use Rattle.ssa_model.specs.definitions.Limits.{most_bench_bytes};
ghost use Rattle.ssa_model.specs.definitions.BenchText.{line};
ghost use Rattle.ssa_json.specs.Devices.{AppendsPart};
ghost use Rattle.ssa_json.specs.View.{view};
ghost use Rattle.ssa_json.specs.Writable.{IsOfProgram};
ghost use Rattle.ssa_lines.specs.Saving.{CannotHold};
ghost use Rattle.ssa_lines.specs.declared.saving.SaveFault.TheVariants.{Io, OutOfMemory};

use ssa_json::sink::{Sink, write_all};
use ssa_json::source::DeviceFault;
use ssa_json::value::Json;
use std::alloc::AllocError;
use thiserror::Error;

/// The most bytes of a bench file.
pub const MOST_FILE_BYTES: usize = 67_108_864;

/// Why a bench is not saved.
#[derive(Debug, Drop, Error)]
pub enum SaveFault {
    /// The file would have more than [`MOST_FILE_BYTES`] bytes. Nothing was written.
    #[error("more than 67,108,864 bytes")]
    BenchTooLong,
    /// The sink has failed, perhaps after a beginning was written.
    #[error("the sink has failed")]
    Io,
    /// A growth of memory was refused. Nothing was written.
    #[error("out of memory")]
    OutOfMemory,
}

impl From<AllocError> for SaveFault {
    ghost from_gives = { λ _ e. e ≡ OutOfMemory };

    fn from(_refused: AllocError) -> SaveFault {
        SaveFault::OutOfMemory
    }
}

impl From<DeviceFault> for SaveFault {
    ghost from_gives = { λ _ e. e ≡ Io };

    fn from(_fault: DeviceFault) -> SaveFault {
        SaveFault::Io
    }
}

/// Ends the line that stands last, where the text then has no more bytes than a file may have.
pub fn end_line(text: &mut Vec<u8>) -> Result<(), SaveFault>
    ensures ok { OnOk result (text.new.items ≡ text.old.items ++ 10 ∷ []) }
    ensures fits { OnOk result (length text.new.items ≤ most_bench_bytes) }
    ensures refused { IfErr result (λ f. CannotHold f (text.old.items ++ 10 ∷ [])) }
{
    if text.len() >= MOST_FILE_BYTES {
        return Err(SaveFault::BenchTooLong);
    }
    text.extend_from_slice(b"\n")?;
    Ok(())
}

/// Appends a value's line, where the text then has no more bytes than a file may have.
pub fn push_line(text: &mut Vec<u8>, value: &Json) -> Result<(), SaveFault>
    requires { length text.old.items ≤ most_bench_bytes }
    ensures ok { OnOk result (text.new.items ≡ text.old.items ++ line (view value.now)) }
    ensures fits { OnOk result (length text.new.items ≤ most_bench_bytes) }
    ensures of_program { OnOk result (IsOfProgram (view value.now)) }
    ensures refused { IfErr result (λ f. CannotHold f (text.old.items ++ line (view value.now))) }
{
    value.push_text(text)?;
    end_line(text)
}

/// Writes the text of a bench file, and hands it on. A fault leaves a beginning written.
pub fn write_text<S: Sink>(sink: &mut S, text: &[u8]) -> Result<(), DeviceFault>
    ensures ok { OnOk result (Appends (S.contents sink.old) (S.contents sink.new) text.now) }
    ensures handed_on { OnOk result (S.is_handed_on sink.new ≡ true) }
    ensures err { OnErr result (AppendsPart (S.contents sink.old) (S.contents sink.new) text.now) }
    ensures failed { OnErr result (S.has_failed sink.new ≡ true) }
{
    write_all(sink, text)?;
    sink.flush()
}
