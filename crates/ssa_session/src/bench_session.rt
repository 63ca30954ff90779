//! A session on a bench.
ghost use Rattle.std.specs.Prelude.{◌≡◌, ◌<◌, true, OnOk, OnSome, Err};
ghost use Rattle.std.specs.Io.KnownBytes.{IsAtEnd};
ghost use Rattle.ssa_session.specs.Effects.{RunsAll, RunsWhole, RunsPartly};

use crate::engine;
use crate::engine::SessionFault;
use crate::watcher::{Unwatched, Watcher};
use ssa_bench::bench::Bench;
use ssa_json::sink::Sink;
use ssa_json::source::Source;
use ssa_model::headline_holds;
use std::alloc::Global;

/// Answers each line of the input by what the bench answers, and writes the replies, each ended by a line feed.
/// Any line may be answered by want of memory, and then counts as not given.
pub fn session<R: Source, W: Sink>(
    alloc: Global,
    reader: &mut R,
    writer: &mut W,
    bench: &mut Bench,
) -> Result<(), SessionFault>
    // All lines that were read are answered, and the input has ended. The bench is that of the commands
    // that the lines gave.
    ensures ok { OnOk result (RunsAll (R.remaining reader.old) (R.remaining reader.new)
        (W.contents writer.old) (W.contents writer.new) bench.old bench.new) }
    ensures at_end { OnOk result (OnSome (R.remaining reader.old) (IsAtEnd (R.remaining reader.new))) }
    ensures met_end { OnOk result (R.ends_met reader.old < R.ends_met reader.new) }

    // All replies are handed on.
    ensures handed_on { OnOk result (W.is_handed_on writer.old ≡ true → W.is_handed_on writer.new ≡ true) }

    // The reader failed: the same of the whole lines that were read.
    ensures reader { result ≡ Err SessionFault.Reader → RunsWhole (R.remaining reader.old) (R.remaining reader.new)
        (W.contents writer.old) (W.contents writer.new) bench.old bench.new }
    ensures reader_failed { result ≡ Err SessionFault.Reader → R.has_failed reader.new ≡ true }

    // The writer failed: the same, and of the last reply a beginning is written.
    ensures writer { result ≡ Err SessionFault.Writer → RunsPartly (R.remaining reader.old) (R.remaining reader.new)
        (W.contents writer.old) (W.contents writer.new) bench.old bench.new }
    ensures writer_failed { result ≡ Err SessionFault.Writer → W.has_failed writer.new ≡ true }
{
    watched_session(alloc, reader, writer, bench, &mut Unwatched)
}

/// A [`session`] at which somebody looks on: the watcher sees the bench behind each reply.
pub fn watched_session<R: Source, W: Sink, T: Watcher<Bench>>(
    alloc: Global,
    reader: &mut R,
    writer: &mut W,
    bench: &mut Bench,
    watcher: &mut T,
) -> Result<(), SessionFault>
    // All lines that were read are answered, and the input has ended. The bench is that of the commands
    // that the lines gave.
    ensures ok { OnOk result (RunsAll (R.remaining reader.old) (R.remaining reader.new)
        (W.contents writer.old) (W.contents writer.new) bench.old bench.new) }
    ensures at_end { OnOk result (OnSome (R.remaining reader.old) (IsAtEnd (R.remaining reader.new))) }
    ensures met_end { OnOk result (R.ends_met reader.old < R.ends_met reader.new) }

    // The watcher looked on, and nothing else has become of it.
    ensures watched { T.goes watcher.old watcher.new }

    // All replies are handed on.
    ensures handed_on { OnOk result (W.is_handed_on writer.old ≡ true → W.is_handed_on writer.new ≡ true) }

    // The reader failed: the same of the whole lines that were read.
    ensures reader { result ≡ Err SessionFault.Reader → RunsWhole (R.remaining reader.old) (R.remaining reader.new)
        (W.contents writer.old) (W.contents writer.new) bench.old bench.new }
    ensures reader_failed { result ≡ Err SessionFault.Reader → R.has_failed reader.new ≡ true }

    // The writer failed: the same, and of the last reply a beginning is written.
    ensures writer { result ≡ Err SessionFault.Writer → RunsPartly (R.remaining reader.old) (R.remaining reader.new)
        (W.contents writer.old) (W.contents writer.new) bench.old bench.new }
    ensures writer_failed { result ≡ Err SessionFault.Writer → W.has_failed writer.new ≡ true }
{
    headline_holds();
    bench.is_valid();
    engine::session(alloc, reader, writer, bench, watcher)
}
