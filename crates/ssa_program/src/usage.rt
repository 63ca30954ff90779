//! What is told where the words are no call.
ghost use Rattle.std.specs.Prelude.{◌≡◌, true};
ghost use Rattle.ssa_program.specs.Telling.{IsTold};
ghost use Rattle.ssa_program.specs.Usage.{EndsByUsage, TellsUsage};

use crate::status::Status;
use crate::trouble::end_by_fault;
use ssa_json::fault_code::FaultCode;
use ssa_json::sink::Sink;
use ssa_lines::saving::write_text;
use ssa_words::usage::Usage;

/// What is told of a word that is not UTF-8.
pub const NOT_UTF8: &str =
    "error: invalid UTF-8 was detected in one or more arguments\n\nUsage: ssabench <COMMAND>\n\nFor more information, try '--help'.\n";

/// Prints the text that the words ask for, or tells a person why they are no call; and gives the status.
pub fn tell_usage<W: Sink, E: Sink>(usage: &Usage, writer: &mut W, errors: &mut E) -> Status
    // All of the text is written, or the device has failed, and nothing to the other device.
    ensures told { TellsUsage (λ text. IsTold W.contents W.has_failed writer.old writer.new text × (errors.new ≡ errors.old))
        (λ text. IsTold E.contents E.has_failed errors.old errors.new text × (writer.new ≡ writer.old)) usage.now }
    ensures status { EndsByUsage (W.has_failed writer.new ≡ true) usage.now result }
{
    match usage {
        Usage::Asked { text } => match write_text(writer, text.as_bytes()) {
            Ok(()) => Status::Done,
            Err(_) => Status::Broken,
        },
        Usage::Refused { text } => refuse_words(errors, text.as_str()),
        Usage::OutOfMemory => end_by_fault(writer, FaultCode::OutOfMemory),
    }
}

/// Tells a person why the words are no call.
pub fn refuse_words<E: Sink>(errors: &mut E, text: &str) -> Status
    ensures told { IsTold E.contents E.has_failed errors.old errors.new text.now }
    ensures status { result ≡ Status.Usage }
{
    match write_text(errors, text.as_bytes()) {
        Ok(()) => Status::Usage,
        Err(_) => Status::Usage,
    }
}
