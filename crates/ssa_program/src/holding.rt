//! A session on the bench of a file.
ghost use Rattle.std.specs.Prelude.{◌≡◌, ◌⊎◌, [], Some, Ok, Err, true, IfErr, IfOk, OnErr, OnOk, string_bytes};
ghost use Rattle.ssa_model.specs.definitions.BenchText.{depths};
ghost use Rattle.ssa_model.specs.definitions.RecordedBench.{recorded_text};
ghost use Rattle.ssa_disk.specs.Files.{IsAsBut, under};
ghost use Rattle.ssa_program.specs.Done.{BreaksOff, HoldStops, Holds, IsHeld, RunsToEnd};
ghost use Rattle.ssa_program.specs.Kept.{IsKeptBy};
ghost use Rattle.ssa_program.specs.Stops.{IsUnloaded, IsUnsaved, Stops};
ghost use Rattle.ssa_program.specs.Trouble.{IsNamed};
ghost use Rattle.ssa_program.specs.Watching.{IsWarned};

use crate::draft::{lock_bench, put_draft};
use crate::files::load_bench;
use crate::notes::Notes;
use crate::status::Status;
use crate::trouble::Trouble;
use crate::watch::LengthWatch;
use ssa_bench::bench::Bench;
use ssa_disk::disk::Disk;
use ssa_disk::draft::{Draft, end};
use ssa_json::sink::Sink;
use ssa_json::source::Source;
use ssa_session::bench_session::watched_session;
use ssa_session::engine::SessionFault;
use std::alloc::Global;
use std::mem::ManuallyDrop;

// Holds a session on the bench of a file. Until it ends, no other call may save the bench.
pub(crate) fn hold_session<'a, D: Disk, R: Source, W: Sink, E: Sink>(
    disk: &mut D,
    alloc: Global,
    reader: &mut R,
    writer: &mut W,
    errors: &mut E,
    notes: &mut Notes,
    name: &'a str,
) -> Result<Status, Trouble<'a>>
    ensures warned { IsWarned E.contents E.has_failed errors.old errors.new name.now }
    ensures done { IfOk result (λ s. D.tells ≡ true → Holds (D.view disk.old) (D.view disk.new) W.contents W.has_failed writer.old writer.new
        (R.remaining reader.old) (R.remaining reader.new) (R.has_failed reader.new ≡ true) name.now s) }
    ensures named { IfErr result (IsNamed name.now name.now name.now) }
    ensures stopped { IfErr result (λ t. D.tells ≡ true → HoldStops (D.view disk.old) (D.view disk.new) W.contents W.has_failed writer.old writer.new
        (R.remaining reader.old) (R.remaining reader.new) (R.has_failed reader.new ≡ true) name.now t) }
{
    let mut draft = lock_bench(disk, alloc, name)?;
    let ended = hold_locked(disk, alloc, reader, writer, errors, notes, &mut draft, name);
    end(disk, draft);
    ended
}

// Holds a session on the bench of a file, whose draft is taken.
fn hold_locked<'a, D: Disk, R: Source, W: Sink, E: Sink>(
    disk: &mut D,
    alloc: Global,
    reader: &mut R,
    writer: &mut W,
    errors: &mut E,
    notes: &mut Notes,
    draft: &mut Draft<D::Made, D::Found>,
    name: &'a str,
) -> Result<Status, Trouble<'a>>
    ensures warned { IsWarned E.contents E.has_failed errors.old errors.new name.now }
    ensures own { draft.new.name ≡ draft.old.name }
    ensures done { IfOk result (λ s. D.tells ≡ true → D.Made.contents draft.old.made ≡ Some [] → (s ≡ Status.Done)
        × IsHeld (D.view disk.old) name.now (λ held after.
        RunsToEnd (R.remaining reader.old) (R.remaining reader.new) (W.contents writer.old) (W.contents writer.new) held after
        × IsKeptBy (Some (recorded_text depths after)) draft.new.is_placed
        (string_bytes draft.old.name) (string_bytes draft.old.place.name) (D.view disk.old) (D.view disk.new))) }
    ensures named { IfErr result (IsNamed name.now name.now name.now) }
    ensures stopped { IfErr result (λ t. D.tells ≡ true → Stops
        (IsAsBut (string_bytes draft.old.name) (D.view disk.old) (D.view disk.new)
        × ((IsUnloaded (under (D.view disk.old) name.now) t × (writer.new ≡ writer.old))
        ⊎ IsHeld (D.view disk.old) name.now (λ held after.
        RunsToEnd (R.remaining reader.old) (R.remaining reader.new) (W.contents writer.old) (W.contents writer.new) held after
        × IsUnsaved (Some (recorded_text depths after)) t)))
        (λ said. ⊥)
        (IsAsBut (string_bytes draft.old.name) (D.view disk.old) (D.view disk.new)
        × IsHeld (D.view disk.old) name.now (BreaksOff (R.has_failed reader.new ≡ true) (W.has_failed writer.new ≡ true)
        (R.remaining reader.old) (R.remaining reader.new) (W.contents writer.old) (W.contents writer.new)))
        t) }
{
    let mut bench = ManuallyDrop::new(load_bench(disk, alloc, notes, name)?);
    hold_and_save(disk, alloc, reader, writer, errors, draft, name, &mut bench)
}

// Holds a session on a bench, and saves it at the end of the input.
fn hold_and_save<'a, D: Disk, R: Source, W: Sink, E: Sink>(
    disk: &mut D,
    alloc: Global,
    reader: &mut R,
    writer: &mut W,
    errors: &mut E,
    draft: &mut Draft<D::Made, D::Found>,
    name: &'a str,
    bench: &mut Bench,
) -> Result<Status, Trouble<'a>>
    ensures warned { IsWarned E.contents E.has_failed errors.old errors.new name.now }
    ensures own { draft.new.name ≡ draft.old.name }
    ensures ended { IfOk result (λ s. s ≡ Status.Done) }
    ensures runs { OnOk result (RunsToEnd (R.remaining reader.old) (R.remaining reader.new) (W.contents writer.old) (W.contents writer.new) bench.old bench.new) }
    ensures kept { OnOk result (D.tells ≡ true → D.Made.contents draft.old.made ≡ Some []
        → IsKeptBy (Some (recorded_text depths bench.new)) draft.new.is_placed
        (string_bytes draft.old.name) (string_bytes draft.old.place.name) (D.view disk.old) (D.view disk.new)) }
    ensures named { IfErr result (IsNamed name.now name.now name.now) }

    // A session that broke off, or was not saved, leaves the file.
    ensures stopped { IfErr result (λ t. Stops
        (RunsToEnd (R.remaining reader.old) (R.remaining reader.new) (W.contents writer.old) (W.contents writer.new) bench.old bench.new
        × IsUnsaved (Some (recorded_text depths bench.new)) t)
        (λ said. ⊥)
        (BreaksOff (R.has_failed reader.new ≡ true) (W.has_failed writer.new ≡ true)
        (R.remaining reader.old) (R.remaining reader.new) (W.contents writer.old) (W.contents writer.new) bench.old bench.new)
        t) }
    ensures left { OnErr result (IsAsBut (string_bytes draft.old.name) (D.view disk.old) (D.view disk.new)) }
{
    let mut watch = LengthWatch::new(errors, name);
    match watched_session(alloc, reader, writer, bench, &mut watch) {
        Ok(()) => {}
        Err(SessionFault::Reader) => return Err(Trouble::SessionBroken),
        Err(SessionFault::Writer) => return Err(Trouble::SessionBroken),
    }
    put_draft(disk, alloc, draft, name, bench)?;
    Ok(Status::Done)
}
