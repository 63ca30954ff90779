//! The session: reads lines, has each answered, and writes the replies.
ghost use Rattle.std.specs.Prelude.{◌≡◌, ◌<◌, ℕ, List, true, OnOk, OnErr, OnSome, Err};
ghost use Rattle.std.specs.Io.KnownBytes.{IsAtEnd, Appends};
ghost use Rattle.ssa_json.specs.Devices.{AppendsPart};
ghost use Rattle.ssa_model.specs.definitions.Limits.{most_line_bytes};
ghost use Rattle.ssa_lines.specs.Held.{Holds};
ghost use Rattle.ssa_session.specs.Session.{AnswersLine};
ghost use Rattle.ssa_session.specs.Outcome.{AnswersAll, AnswersWhole, AnswersPartly};

use crate::machine::Machine;
use crate::watcher::Watcher;
use ssa_json::fault_code::FaultCode;
use ssa_json::reading_room::ReadingRoom;
use ssa_json::sink::Sink;
use ssa_json::source::{DeviceFault, Source};
use ssa_lines::fault_line::write_fault;
use ssa_lines::line::Line;
use ssa_lines::read_line::{LineEnd, read_line};
use ssa_lines::write_line::write_reply;
use std::alloc::Global;
use thiserror::Error;

/// Which device has failed.
#[derive(Clone, Copy, Debug, PartialEq, Eq, Error)]
pub enum SessionFault {
    /// The one that lines are read from.
    #[error("the reader has failed")]
    Reader,
    /// The one that replies are written to.
    #[error("the writer has failed")]
    Writer,
}

/// The most bytes of a line, without its line feed.
pub const LINE_LIMIT: usize = 1_048_576;

/// Answers each line of the input, and writes the replies, each ended by a line feed and flushed. Bytes
/// after the last line feed are a line too, once the input has ended. Holds one line at a time. The watcher
/// looks at the machine behind each reply.
pub fn session<R: Source, W: Sink, M: Machine, T: Watcher<M>>(
    alloc: Global,
    reader: &mut R,
    writer: &mut W,
    machine: &mut M,
    watcher: &mut T,
) -> Result<(), SessionFault>
    // All lines of the input are answered, and the input has ended.
    ensures ok { OnOk result (AnswersAll M.reply M.after (R.remaining reader.old) (R.remaining reader.new)
        (W.contents writer.old) (W.contents writer.new) machine.old machine.new) }
    ensures at_end { OnOk result (OnSome (R.remaining reader.old) (IsAtEnd (R.remaining reader.new))) }
    ensures met_end { OnOk result (R.ends_met reader.old < R.ends_met reader.new) }

    // All replies are handed on.
    ensures handed_on { OnOk result (W.is_handed_on writer.old ≡ true → W.is_handed_on writer.new ≡ true) }

    // It looked at the machine, and did nothing else.
    ensures watched { T.goes watcher.old watcher.new }

    // The reader failed: the whole lines that were read are answered.
    ensures reader { result ≡ Err SessionFault.Reader → AnswersWhole M.reply M.after (R.remaining reader.old) (R.remaining reader.new)
        (W.contents writer.old) (W.contents writer.new) machine.old machine.new }
    ensures reader_failed { result ≡ Err SessionFault.Reader → R.has_failed reader.new ≡ true }

    // The writer failed: of the last reply a beginning is written.
    ensures writer { result ≡ Err SessionFault.Writer → AnswersPartly M.reply M.after (R.remaining reader.old) (R.remaining reader.new)
        (W.contents writer.old) (W.contents writer.new) machine.old machine.new }
    ensures writer_failed { result ≡ Err SessionFault.Writer → W.has_failed writer.new ≡ true }
{
    let mut line = Line::new(alloc);
    let mut room = ReadingRoom::new(alloc);
    loop {
        let Ok(end) = read_line(alloc, reader, &mut line, LINE_LIMIT) else {
            return Err(SessionFault::Reader);
        };
        match end {
            LineEnd::LineFeed => {
                let Ok(()) = answer_line(alloc, writer, machine, &mut room, &line) else {
                    return Err(SessionFault::Writer);
                };
                watcher.look(alloc, machine, &line);
            }
            LineEnd::EndOfInput => {
                if line.is_empty() {
                    return Ok(());
                }
                let Ok(()) = answer_line(alloc, writer, machine, &mut room, &line) else {
                    return Err(SessionFault::Writer);
                };
                watcher.look(alloc, machine, &line);
                return Ok(());
            }
        }
    }
}

// Answers the line that is held.
fn answer_line<W: Sink, M: Machine>(
    alloc: Global,
    writer: &mut W,
    machine: &mut M,
    room: &mut ReadingRoom,
    line: &Line,
) -> Result<(), DeviceFault>
    ensures ok { OnOk result ((text : List ℕ) → Holds most_line_bytes line.now text
        → AnswersLine M.reply M.after machine.old machine.new text (Appends (W.contents writer.old) (W.contents writer.new))) }
    ensures handed_on { OnOk result (W.is_handed_on writer.new ≡ true) }
    ensures err { OnErr result ((text : List ℕ) → Holds most_line_bytes line.now text
        → AnswersLine M.reply M.after machine.old machine.new text (AppendsPart (W.contents writer.old) (W.contents writer.new))) }
    ensures failed { OnErr result (W.has_failed writer.new ≡ true) }
{
    match line {
        Line::TooLong => write_fault(writer, FaultCode::TooLong),
        Line::OutOfMemory => write_fault(writer, FaultCode::OutOfMemory),
        Line::Kept(bytes) => match machine.answer(alloc, room, bytes) {
            Ok(text) => write_reply(writer, text),
            Err(_) => write_fault(writer, FaultCode::OutOfMemory),
        },
    }
}
