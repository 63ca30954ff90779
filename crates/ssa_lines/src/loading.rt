//! The values of a bench file, read line by line.
ghost use Rattle.std.specs.Prelude.{◌≡◌, ◌≢◌, ◌≤◌, ◌+◌, true, false, Err, IfOk, IfSome, None};
ghost use Rattle.ssa_model.specs.definitions.Json.{compact, same_text};
ghost use Rattle.ssa_model.specs.definitions.BenchOfStates.{spelled_value};
ghost use Rattle.ssa_json.specs.FaultCodes.{code_view};
ghost use Rattle.ssa_json.specs.Readings.{readings};
ghost use Rattle.ssa_json.specs.View.{view};
ghost use Rattle.ssa_json.specs.Writable.{IsOfProgram};
ghost use Rattle.ssa_lines.specs.Loading.{IsSpelledAs, ReadsValue, load_code};
ghost use Rattle.ssa_lines.specs.declared.loading.LoadFault.TheVariants.{Io, OutOfMemory};

use crate::line::Line;
use crate::read_line::{LineEnd, read_line};
use ssa_json::fault::JsonFault;
use ssa_json::fault_code::FaultCode;
use ssa_json::source::{DeviceFault, Source};
use ssa_json::value::Json;
use std::alloc::{AllocError, Global};
use thiserror::Error;

/// Why a bench file is not taken.
#[derive(Debug, Drop, Error)]
pub enum LoadFault {
    /// The bytes are not the text of a bench.
    #[error("not the text of a bench")]
    BenchText,
    /// A line's record is none from the state that it is told of to a valid one.
    #[error("a record that does not fit its state")]
    RecordDoesNotFit,
    /// The source has failed.
    #[error("the source has failed")]
    Io,
    /// A growth of memory was refused.
    #[error("out of memory")]
    OutOfMemory,
}

impl LoadFault {
    /// The fault as it is told.
    pub fn code(&self) -> FaultCode
        ensures { code_view result ≡ load_code self.now }
    {
        match self {
            LoadFault::BenchText => FaultCode::BenchText,
            LoadFault::RecordDoesNotFit => FaultCode::RecordDoesNotFit,
            LoadFault::Io => FaultCode::Io,
            LoadFault::OutOfMemory => FaultCode::OutOfMemory,
        }
    }
}

impl From<AllocError> for LoadFault {
    ghost from_gives = { λ _ e. e ≡ OutOfMemory };

    fn from(_refused: AllocError) -> LoadFault {
        LoadFault::OutOfMemory
    }
}

impl From<DeviceFault> for LoadFault {
    ghost from_gives = { λ _ e. e ≡ Io };

    fn from(_fault: DeviceFault) -> LoadFault {
        LoadFault::Io
    }
}

/// A line of a bench file: a value, and its compact text.
#[derive(Drop)]
pub struct FileLine {
    pub value: Json,
    pub text: Vec<u8>,
}

/// Whether two texts have the same bytes.
pub fn is_same_bytes(text: &[u8], other: &[u8]) -> bool
    ensures { result ≡ same_text text.now other.now }
{
    text.cmp(other).is_eq()
}

// The value of which the text is the compact text.
fn value_of(alloc: Global, text: Vec<u8>) -> Result<FileLine, LoadFault>
    ensures ok { IfOk result (λ l. IsSpelledAs l text.items) }
    ensures of_program { IfOk result (λ l. IsOfProgram (view l.value)) }
    ensures refused { result ≡ Err LoadFault.BenchText → spelled_value readings text.items ≡ None }
    ensures memory { result ≢ Err LoadFault.Io }
    ensures told { result ≢ Err LoadFault.RecordDoesNotFit }
{
    let value = match Json::read(alloc, &text, text.len()) {
        Ok(value) => value,
        Err(JsonFault::OutOfMemory) => return Err(LoadFault::OutOfMemory),
        Err(_) => return Err(LoadFault::BenchText),
    };
    let spelled = value.to_text(alloc)?;
    if !is_same_bytes(&spelled, &text) {
        return Err(LoadFault::BenchText);
    }
    Ok(FileLine { value, text })
}

// Takes the bytes of a line and its line feed from what the file may still have.
fn take_room(room: &mut usize, len: usize) -> bool
    ensures taken { result ≡ true → len + 1 + room.new ≡ room.old }
    ensures refused { result ≡ false → room.old ≤ len }
{
    if len >= *room {
        return false;
    }
    *room -= len + 1;
    true
}

/// Reads the next line of a bench file that may still have `room` bytes, none at its end.
///
/// `BenchText` where the line is not ended by a line feed, is not the compact text of a value, or
/// reaches beyond the room.
pub fn read_value<R: Source>(
    alloc: Global,
    reader: &mut R,
    room: &mut usize,
) -> Result<Option<FileLine>, LoadFault>
    ensures read { ReadsValue (R.remaining reader.old) (R.remaining reader.new) room.old room.new result }
    ensures spelled { IfOk result (λ o. IfSome o (λ l. l.text.items ≡ compact (view l.value))) }
    ensures of_program { IfOk result (λ o. IfSome o (λ l. IsOfProgram (view l.value))) }
    ensures failed { result ≡ Err LoadFault.Io → R.has_failed reader.new ≡ true }
{
    let mut line = Line::new(alloc);
    let end = read_line(alloc, reader, &mut line, *room)?;
    match (end, line) {
        (LineEnd::EndOfInput, line) => {
            if line.is_empty() {
                Ok(None)
            } else {
                Err(LoadFault::BenchText)
            }
        }
        (LineEnd::LineFeed, Line::OutOfMemory) => Err(LoadFault::OutOfMemory),
        (LineEnd::LineFeed, Line::TooLong) => Err(LoadFault::BenchText),
        (LineEnd::LineFeed, Line::Kept(text)) => {
            if !take_room(room, text.len()) {
                return Err(LoadFault::BenchText);
            }
            Ok(Some(value_of(alloc, text)?))
        }
    }
}
