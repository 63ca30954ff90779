//! Carries out what the words of the program ask for.
ghost use Rattle.std.specs.Prelude.{◌≡◌, ◌<◌, Ok, Err, true, IfErr, IfOk};
ghost use Rattle.ssa_program.specs.Done.{IsDone, IsNamedBy, IsStopped};
ghost use Rattle.ssa_program.specs.Performed.{IsPerformed};
ghost use Rattle.ssa_program.specs.Watching.{IsBegun};

use crate::changing::{change_bench, look, move_bench};
use crate::holding::hold_session;
use crate::making::init;
use crate::notes::Notes;
use crate::status::Status;
use crate::trouble::{Trouble, tell_trouble};
use ssa_answers::asked::Asked;
use ssa_disk::disk::Disk;
use ssa_json::sink::Sink;
use ssa_json::source::Source;
use ssa_words::call::Call;
use std::alloc::Global;

/// Carries out a call on the files that it names, with these three for standard input, output and error, and gives the
/// exit status. The bench's file is written before the reply is. Where a refusal is, is told on standard error after its
/// fault line, but for those of a session.
pub fn perform<D: Disk, R: Source, W: Sink, E: Sink>(
    disk: &mut D,
    alloc: Global,
    call: &Call<'_>,
    reader: &mut R,
    writer: &mut W,
    errors: &mut E,
) -> u8
    ensures status { result < 4 }
    ensures performed { D.tells ≡ true → IsPerformed (D.view disk.old) (D.view disk.new) W.contents W.has_failed writer.old writer.new
        E.contents E.has_failed errors.old errors.new (R.remaining reader.old) (R.remaining reader.new) (R.has_failed reader.new ≡ true) call.now result }
{
    let mut notes = Notes::new(alloc);
    match carry_out(disk, alloc, call, reader, writer, errors, &mut notes) {
        Ok(status) => {
            notes.tell(errors);
            status.code()
        }
        Err(trouble) => {
            let status = tell_trouble(alloc, &trouble, writer, errors);
            notes.tell(errors);
            status.code()
        }
    }
}

fn carry_out<'a, D: Disk, R: Source, W: Sink, E: Sink>(
    disk: &mut D,
    alloc: Global,
    call: &Call<'a>,
    reader: &mut R,
    writer: &mut W,
    errors: &mut E,
    notes: &mut Notes,
) -> Result<Status, Trouble<'a>>
    ensures begun { IsBegun E.contents E.has_failed errors.old errors.new call.now }
    ensures done { IfOk result (λ s. D.tells ≡ true → IsDone (D.view disk.old) (D.view disk.new) W.contents W.has_failed writer.old writer.new
        (R.remaining reader.old) (R.remaining reader.new) (R.has_failed reader.new ≡ true) call.now s) }
    ensures named { IfErr result (IsNamedBy call.now) }
    ensures stopped { IfErr result (λ t. D.tells ≡ true → IsStopped (D.view disk.old) (D.view disk.new) W.contents W.has_failed writer.old writer.new
        (R.remaining reader.old) (R.remaining reader.new) (R.has_failed reader.new ≡ true) call.now t) }
{
    match *call {
        Call::Init {
            schema,
            object,
            bench,
            depth,
        } => init(disk, alloc, writer, notes, schema, object, bench, depth),
        Call::Apply { bench, file, .. } => {
            change_bench(disk, alloc, writer, notes, bench, file, call)
        }
        Call::Update { bench, file, .. } => {
            change_bench(disk, alloc, writer, notes, bench, file, call)
        }
        Call::Strip { bench } => move_bench(disk, alloc, writer, notes, bench, Asked::Strip),
        Call::Undo { bench } => move_bench(disk, alloc, writer, notes, bench, Asked::Undo),
        Call::Redo { bench } => move_bench(disk, alloc, writer, notes, bench, Asked::Redo),
        Call::Show { bench, managed } => {
            look(disk, alloc, writer, notes, bench, Asked::Show { managed })
        }
        Call::Owners { bench, path } => {
            look(disk, alloc, writer, notes, bench, Asked::Owners { path })
        }
        Call::Log { bench } => look(disk, alloc, writer, notes, bench, Asked::Log),
        Call::Session { bench } => {
            hold_session(disk, alloc, reader, writer, errors, notes, bench)
        }
    }
}
