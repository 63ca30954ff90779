//! Why a call of the program does not come to its reply, and what is told then.
ghost use Rattle.std.specs.Prelude.{◌≡◌, ◌++◌, ◌∷◌, ◌⊎◌, [], true, IfOk, OnOk};
ghost use Rattle.ssa_model.specs.definitions.Json.{compact};
ghost use Rattle.ssa_model.specs.definitions.Lines.{line_feed};
ghost use Rattle.ssa_model.specs.definitions.Replies.{fault_json};
ghost use Rattle.ssa_model.specs.definitions.Session.{out_of_memory_text};
ghost use Rattle.ssa_json.specs.FaultCodes.{code_view};
ghost use Rattle.ssa_program.specs.Names.{named_line};
ghost use Rattle.ssa_program.specs.Telling.{IsTold};
ghost use Rattle.ssa_program.specs.Trouble.{EndsBy, Tells, draft_line};
ghost use Rattle.ssa_program.specs.declared.trouble.Trouble.TheVariants.{CannotPrint, File, OutOfMemory};

use crate::names::{named_line, push_name};
use crate::status::Status;
use ssa_json::fault_code::FaultCode;
use ssa_json::sink::Sink;
use ssa_json::source::DeviceFault;
use ssa_lines::fault_line::write_fault;
use ssa_lines::loading::LoadFault;
use ssa_lines::write_line::write_line;
use ssa_session::files::{FileFault, tell};
use std::alloc::{AllocError, Global};

/// Why a call of the program does not come to its reply, with the name of the file that it is told of.
#[derive(Drop)]
pub enum Trouble<'a> {
    /// The file cannot be opened or read.
    CannotRead(&'a str),
    /// The bench's file cannot be written. It is as it was.
    CannotWrite(&'a str),
    /// The bench's name leads to something that is no plain file.
    NoPlainFile(&'a str),
    /// The bench that is to be made would take the place of the schema or the object that it is made of.
    OwnSource(&'a str),
    /// The draft beside the bench's file is there: another call is at work, or one broke off.
    DraftIsThere {
        /// The draft's name.
        draft: String,
        /// The bench's name.
        bench: &'a str,
    },
    /// The bench's file is not taken.
    Load(LoadFault),
    /// A schema file or an object file is refused.
    File(FileFault),
    /// The bench's text is longer than a file may be. Its file is as it was.
    BenchTooLong,
    /// A growth of memory was refused.
    OutOfMemory,
    /// The session broke off. The bench's file is as it was.
    SessionBroken,
    /// The reply cannot be printed.
    CannotPrint,
    /// The bench's file is saved, but the reply cannot be printed.
    SavedUnprinted(&'a str),
}

impl From<AllocError> for Trouble<'_> {
    ghost from_gives = { λ _ e. e ≡ OutOfMemory };

    fn from(_refused: AllocError) -> Self {
        Trouble::OutOfMemory
    }
}

impl From<DeviceFault> for Trouble<'_> {
    ghost from_gives = { λ _ e. e ≡ CannotPrint };

    fn from(_fault: DeviceFault) -> Self {
        Trouble::CannotPrint
    }
}

impl From<FileFault> for Trouble<'_> {
    ghost from_gives = { λ f e. e ≡ File f };

    fn from(fault: FileFault) -> Self {
        Trouble::File(fault)
    }
}

// What is told where the draft beside a bench's file is there.
fn draft_line(alloc: Global, draft: &str, bench: &str) -> Result<Vec<u8>, AllocError>
    ensures { IfOk result (λ text. text.items ≡ draft_line draft.now bench.now) }
{
    let between = " is there: another call is at work on ";
    let mut text = named_line(alloc, "ssabench: ", draft, between)?;
    push_name(&mut text, bench)?;
    text.extend_from_slice(b", or one broke off; if none is, remove it")?;
    Ok(text)
}

// Writes a line after which the program can only end, whether the line was taken or not.
pub(crate) fn end_by<W: Sink>(writer: &mut W, line: &[u8]) -> Status
    ensures told { IsTold W.contents W.has_failed writer.old writer.new (line.now ++ line_feed ∷ []) }
    ensures status { result ≡ Status.Broken }
{
    match write_line(writer, line) {
        Ok(()) => Status::Broken,
        Err(_) => Status::Broken,
    }
}

// Writes a fault's line, after which the program can only end, whether the line was taken or not.
pub(crate) fn end_by_fault<W: Sink>(writer: &mut W, code: FaultCode) -> Status
    ensures told { IsTold W.contents W.has_failed writer.old writer.new (compact (fault_json (code_view code)) ++ line_feed ∷ []) }
    ensures status { result ≡ Status.Broken }
{
    match write_fault(writer, code) {
        Ok(()) => Status::Broken,
        Err(_) => Status::Broken,
    }
}

// Tells a person of a file by its name.
fn end_by_name<W: Sink, E: Sink>(
    alloc: Global,
    before: &str,
    name: &str,
    after: &str,
    writer: &mut W,
    errors: &mut E,
) -> Status
    ensures told { (IsTold E.contents E.has_failed errors.old errors.new (named_line before.now name.now after.now ++ line_feed ∷ []) × (writer.new ≡ writer.old))
        ⊎ (IsTold W.contents W.has_failed writer.old writer.new (out_of_memory_text ++ line_feed ∷ []) × (errors.new ≡ errors.old)) }
    ensures status { result ≡ Status.Broken }
{
    match named_line(alloc, before, name, after) {
        Ok(line) => end_by(errors, &line),
        Err(_) => end_by_fault(writer, FaultCode::OutOfMemory),
    }
}

// Tells a person of the draft that is there.
fn end_by_draft<W: Sink, E: Sink>(
    alloc: Global,
    draft: &str,
    bench: &str,
    writer: &mut W,
    errors: &mut E,
) -> Status
    ensures told { (IsTold E.contents E.has_failed errors.old errors.new (draft_line draft.now bench.now ++ line_feed ∷ []) × (writer.new ≡ writer.old))
        ⊎ (IsTold W.contents W.has_failed writer.old writer.new (out_of_memory_text ++ line_feed ∷ []) × (errors.new ≡ errors.old)) }
    ensures status { result ≡ Status.Broken }
{
    match draft_line(alloc, draft, bench) {
        Ok(line) => end_by(errors, &line),
        Err(_) => end_by_fault(writer, FaultCode::OutOfMemory),
    }
}

/// Tells the trouble, and with which status the program ends by it: what has a fault's line to the writer, where the
/// replies stand, and the others to a person.
pub fn tell_trouble<W: Sink, E: Sink>(
    alloc: Global,
    trouble: &Trouble<'_>,
    writer: &mut W,
    errors: &mut E,
) -> Status
    // All of the line is written, or the device has failed, and nothing to the other device.
    ensures told { Tells (λ line. IsTold W.contents W.has_failed writer.old writer.new (line ++ line_feed ∷ []) × (errors.new ≡ errors.old))
        (λ line. IsTold E.contents E.has_failed errors.old errors.new (line ++ line_feed ∷ []) × (writer.new ≡ writer.old))
        ((writer.new ≡ writer.old) × (errors.new ≡ errors.old)) trouble.now }
    ensures status { EndsBy (W.has_failed writer.new ≡ true) (IsTold W.contents W.has_failed writer.old writer.new (out_of_memory_text ++ line_feed ∷ []))
        trouble.now result }
{
    match trouble {
        Trouble::CannotRead(name) => {
            end_by_name(alloc, "ssabench: cannot read ", name, "", writer, errors)
        }
        Trouble::CannotWrite(name) => {
            end_by_name(alloc, "ssabench: cannot write ", name, "", writer, errors)
        }
        Trouble::NoPlainFile(name) => {
            let told = " is no plain file";
            end_by_name(alloc, "ssabench: ", name, told, writer, errors)
        }
        Trouble::OwnSource(name) => {
            let told = " is the schema or the object itself";
            end_by_name(alloc, "ssabench: ", name, told, writer, errors)
        }
        Trouble::DraftIsThere { draft, bench } => {
            end_by_draft(alloc, draft.as_str(), bench, writer, errors)
        }
        Trouble::Load(fault) => end_by_fault(writer, fault.code()),
        Trouble::File(fault) => match tell(alloc, writer, fault) {
            Ok(ending) => Status::from(ending),
            Err(_) => Status::Broken,
        },
        Trouble::BenchTooLong => end_by_fault(writer, FaultCode::BenchTooLong),
        Trouble::OutOfMemory => end_by_fault(writer, FaultCode::OutOfMemory),
        Trouble::SessionBroken => end_by(errors, b"ssabench: session ended unsaved"),
        Trouble::CannotPrint => Status::Broken,
        Trouble::SavedUnprinted(name) => {
            let told = " is saved, but the reply cannot be printed";
            end_by_name(alloc, "ssabench: ", name, told, writer, errors)
        }
    }
}
