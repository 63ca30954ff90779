//! A bench is taken from its file, line by line.
ghost use Rattle.std.specs.Prelude.{◌≡◌, ◌≤◌, ◌<◌, ◌+◌, true, Err, IfOk, OnOk, length};
ghost use Rattle.ssa_model.specs.definitions.Answers.{lone_state};
ghost use Rattle.ssa_model.specs.definitions.History.{appended, past_len, preceded};
ghost use Rattle.ssa_model.specs.definitions.Json.{compact};
ghost use Rattle.ssa_model.specs.definitions.BenchOfStates.{schema_in};
ghost use Rattle.ssa_model.specs.laws.LineByLine.{later_from, moves_from, rest_from, shown_in};
ghost use Rattle.ssa_json.specs.Readings.{readings};
ghost use Rattle.ssa_json.specs.View.{view};
ghost use Rattle.ssa_json.specs.Writable.{IsOfProgram};
ghost use Rattle.ssa_file.specs.Heads.{IsFew, counts_view, head_depth, head_view, place_view};
ghost use Rattle.ssa_file.specs.Recording.{format_view};
ghost use Rattle.ssa_lines.specs.declared.loading.LoadFault.TheVariants.{Io};
ghost use Rattle.ssa_bench.specs.Loading.{Loads, ReadsEnd, ReadsHead, ReadsLine, ReadsMoves, ReadsOn, ReadsPart, ReadsSteps};

use crate::bench::Bench;
use crate::taking::{head_of, schema_of};
use ssa_file::head::{FileHead, RecordCounts, StatePlace};
use ssa_file::recording::RecordFormat;
use ssa_json::source::Source;
use ssa_lines::loading::{FileLine, LoadFault, read_value};
use ssa_lines::saving::MOST_FILE_BYTES;
use ssa_model::files::{files_are_read, files_are_taken};
use ssa_schema::schema::Schema;
use std::alloc::Global;

// Reads a line that must be there.
fn next_line<R: Source>(
    alloc: Global,
    reader: &mut R,
    room: &mut usize,
) -> Result<FileLine, LoadFault>
    ensures read { ReadsLine (R.remaining reader.old) (R.remaining reader.new) room.old room.new result }
    ensures spelled { IfOk result (λ l. l.text.items ≡ compact (view l.value)) }
    ensures of_program { IfOk result (λ l. IsOfProgram (view l.value)) }
    ensures failed { result ≡ Err LoadFault.Io → R.has_failed reader.new ≡ true }
{
    match read_value(alloc, reader, room)? {
        Some(line) => Ok(line),
        None => Err(LoadFault::BenchText),
    }
}

// Reads the first line: the format, and the numbers that stand there.
fn read_head<R: Source>(
    alloc: Global,
    reader: &mut R,
    room: &mut usize,
) -> Result<FileHead, LoadFault>
    ensures few { IfOk result IsFew }
    ensures read { ReadsHead (R.remaining reader.old) (R.remaining reader.new) room.old room.new result }
    ensures failed { result ≡ Err LoadFault.Io → R.has_failed reader.new ≡ true }
{
    let line = next_line(alloc, reader, room)?;
    head_of(alloc, &line)
}

// Reads the second line: the schema.
fn read_schema<R: Source>(
    alloc: Global,
    reader: &mut R,
    room: &mut usize,
) -> Result<Schema, LoadFault>
    ensures read { ReadsPart schema_in (R.remaining reader.old) (R.remaining reader.new) room.old room.new result }
    ensures failed { result ≡ Err LoadFault.Io → R.has_failed reader.new ≡ true }
{
    let line = next_line(alloc, reader, room)?;
    schema_of(alloc, line.value)
}

// Reads the third line: the first state or the present one, by the format, and with it the bench of that state.
fn read_shown<R: Source>(
    alloc: Global,
    reader: &mut R,
    room: &mut usize,
    head: &FileHead,
    schema: Schema,
) -> Result<Bench, LoadFault>
    ensures lone { IfOk result (λ b. b.timeline ≡ lone_state b.timeline.first) }
    ensures depth { IfOk result (λ b. b.depth ≡ head_depth head.now) }
    ensures read { ReadsPart (shown_in readings (head_view head.now) schema) (R.remaining reader.old) (R.remaining reader.new) room.old room.new result }
    ensures failed { result ≡ Err LoadFault.Io → R.has_failed reader.new ≡ true }
{
    let line = next_line(alloc, reader, room)?;
    Bench::of_shown_line(alloc, head, schema, line)
}

// Reads the lines of so many later states, and goes on along them.
fn read_steps<R: Source>(
    alloc: Global,
    reader: &mut R,
    room: &mut usize,
    bench: &mut Bench,
    count: usize,
    number: &mut usize,
) -> Result<(), LoadFault>
    requires few { past_len bench.old.timeline + count ≤ bench.old.depth }
    ensures read { ReadsSteps count (R.remaining reader.old) (R.remaining reader.new) room.old room.new bench.old bench.new result }
    ensures many { OnOk result (past_len bench.new.timeline ≡ past_len bench.old.timeline + count) }
    ensures within { OnOk result (past_len bench.new.timeline ≤ length bench.new.timeline.later) }
    ensures failed { result ≡ Err LoadFault.Io → R.has_failed reader.new ≡ true }
{
    for _ in 0..count {
        *number = number.saturating_add(1);
        let line = next_line(alloc, reader, room)?;
        bench.take_line(alloc, line)?;
    }
    bench.place_is_within();
    Ok(())
}

// Reads the lines of the past, and goes back along them.
fn read_past<R: Source>(
    alloc: Global,
    reader: &mut R,
    room: &mut usize,
    bench: &mut Bench,
    format: RecordFormat,
    count: usize,
    number: &mut usize,
) -> Result<(), LoadFault>
    requires first { past_len bench.old.timeline ≡ 0 }
    requires few { length bench.old.timeline.later + count ≤ bench.old.depth }
    ensures read { ReadsMoves (format_view format) preceded count (R.remaining reader.old) (R.remaining reader.new) room.old room.new bench.old bench.new result }
    ensures many { OnOk result (length bench.new.timeline.later ≡ length bench.old.timeline.later + count) }
    ensures depth { OnOk result (bench.new.depth ≡ bench.old.depth) }
    ensures failed { result ≡ Err LoadFault.Io → R.has_failed reader.new ≡ true }
{
    for _ in 0..count {
        *number = number.saturating_add(1);
        let line = next_line(alloc, reader, room)?;
        bench.go_back_by(alloc, format, &line)?;
    }
    Ok(())
}

// Reads the lines of the future, and goes on along them.
fn read_future<R: Source>(
    alloc: Global,
    reader: &mut R,
    room: &mut usize,
    bench: &mut Bench,
    format: RecordFormat,
    count: usize,
    number: &mut usize,
) -> Result<(), LoadFault>
    requires few { past_len bench.old.timeline + count ≤ bench.old.depth }
    ensures read { ReadsMoves (format_view format) appended count (R.remaining reader.old) (R.remaining reader.new) room.old room.new bench.old bench.new result }
    ensures many { OnOk result (past_len bench.new.timeline ≡ past_len bench.old.timeline + count) }
    ensures within { OnOk result (past_len bench.new.timeline ≤ length bench.new.timeline.later) }
    ensures failed { result ≡ Err LoadFault.Io → R.has_failed reader.new ≡ true }
{
    for _ in 0..count {
        *number = number.saturating_add(1);
        let line = next_line(alloc, reader, room)?;
        bench.go_on_by(alloc, format, &line)?;
    }
    bench.place_is_within();
    Ok(())
}

// Reads that nothing stands behind.
fn read_end<R: Source>(alloc: Global, reader: &mut R, room: &mut usize) -> Result<(), LoadFault>
    ensures read { ReadsEnd (R.remaining reader.old) (R.remaining reader.new) room.old result }
    ensures failed { result ≡ Err LoadFault.Io → R.has_failed reader.new ≡ true }
{
    match read_value(alloc, reader, room)? {
        Some(_) => Err(LoadFault::BenchText),
        None => Ok(()),
    }
}

// Reads the lines behind the first state, to the end of a file of whole states, and has the bench go along them and to the place.
fn read_later<R: Source>(
    alloc: Global,
    reader: &mut R,
    room: &mut usize,
    bench: &mut Bench,
    place: &StatePlace,
    number: &mut usize,
) -> Result<(), LoadFault>
    requires lone { bench.old.timeline ≡ lone_state bench.old.timeline.first }
    requires within { place.now.place < place.now.states }
    requires few { place.now.states ≤ bench.old.depth + 1 }
    ensures read { ReadsOn (later_from readings (place_view place.now) bench.old) (R.remaining reader.old) (R.remaining reader.new) room.old bench.new result }
    ensures failed { result ≡ Err LoadFault.Io → R.has_failed reader.new ≡ true }
{
    read_steps(alloc, reader, room, bench, place.states - 1, number)?;
    *number = number.saturating_add(1);
    read_end(alloc, reader, room)?;
    bench.go_to(place.place);
    Ok(())
}

// Reads the lines behind the present object, to the end of a file of records, and has the bench go along them.
fn read_history<R: Source>(
    alloc: Global,
    reader: &mut R,
    room: &mut usize,
    bench: &mut Bench,
    counts: &RecordCounts,
    number: &mut usize,
) -> Result<(), LoadFault>
    requires lone { bench.old.timeline ≡ lone_state bench.old.timeline.first }
    requires few { counts.now.past + counts.now.future ≤ bench.old.depth }
    ensures read { ReadsOn (moves_from readings (counts_view counts.now) bench.old) (R.remaining reader.old) (R.remaining reader.new) room.old bench.new result }
    ensures failed { result ≡ Err LoadFault.Io → R.has_failed reader.new ≡ true }
{
    read_past(
        alloc,
        reader,
        room,
        bench,
        counts.format,
        counts.past,
        number,
    )?;
    bench.go_to(counts.past);
    read_future(
        alloc,
        reader,
        room,
        bench,
        counts.format,
        counts.future,
        number,
    )?;
    *number = number.saturating_add(1);
    read_end(alloc, reader, room)?;
    bench.go_to(counts.past);
    Ok(())
}

// Reads all that stands behind the state that the third line shows, by the format.
fn read_rest<R: Source>(
    alloc: Global,
    reader: &mut R,
    room: &mut usize,
    bench: &mut Bench,
    head: &FileHead,
    number: &mut usize,
) -> Result<(), LoadFault>
    requires lone { bench.old.timeline ≡ lone_state bench.old.timeline.first }
    requires few { IsFew head.now }
    requires depth { bench.old.depth ≡ head_depth head.now }
    ensures read { ReadsOn (rest_from readings (head_view head.now) bench.old) (R.remaining reader.old) (R.remaining reader.new) room.old bench.new result }
    ensures failed { result ≡ Err LoadFault.Io → R.has_failed reader.new ≡ true }
{
    match head {
        FileHead::States(place) => read_later(alloc, reader, room, bench, place, number),
        FileHead::Records(counts) => read_history(alloc, reader, room, bench, counts, number),
    }
}

impl Bench {
    /// Takes a bench from its file: the text of the bench in one of the formats, and nothing else.
    ///
    /// The first line says the format. In formats 2 to 4, of which [`save`](Bench::save) writes the last, the
    /// present object stands first, then the records that lead back from it, and those that lead on; in
    /// format 1 all states stand there, from the first on, each as its object. In formats 1 and 2 no
    /// command and no manager has a subresource. In format 4 the first line says the depth of the bench;
    /// in the others the bench has depth 1,000. Reads line by line, and holds one line beside the bench
    /// that it makes. Each record's room is made on the way, so that undo and redo take no memory. Of
    /// several faulty lines the first is told.
    /// `BenchText` is answered for a line that is not as it is written in the format: another spelling of
    /// a value, a schema, an object or an entry that is refused, a label that no command gives, what has
    /// not the shape of a record, in format 1 managers in another order than before, in formats 1 and 2 a
    /// subresource; for a first line of no format; for a wrong count of lines; for more commands than the
    /// depth; and for more than [`MOST_FILE_BYTES`](ssa_lines::saving::MOST_FILE_BYTES) bytes.
    /// `RecordDoesNotFit` is answered for a record that is none from the state that it is told of to a
    /// valid one. Of what the commands of the history do nothing is asked: their states are taken as
    /// they stand there, or as the records lead to them.
    pub fn load<R: Source>(alloc: Global, reader: &mut R) -> Result<Bench, LoadFault>
        // A bench is taken exactly from its file; of want of memory and of a failed reader nothing is said.
        ensures loaded { Loads (R.remaining reader.old) (R.remaining reader.new) result }
        ensures failed { result ≡ Err LoadFault.Io → R.has_failed reader.new ≡ true }
    {
        let mut number = 0;
        Bench::load_telling(alloc, reader, &mut number)
    }

    /// [`load`](Bench::load), which also tells the number of the line that it came to, from 1: of a bench that is refused,
    /// that of the first faulty line, or of the one that is missing. For people: no contract speaks of it.
    pub fn load_telling<R: Source>(
        alloc: Global,
        reader: &mut R,
        number: &mut usize,
    ) -> Result<Bench, LoadFault>
        ensures loaded { Loads (R.remaining reader.old) (R.remaining reader.new) result }
        ensures failed { result ≡ Err LoadFault.Io → R.has_failed reader.new ≡ true }
    {
        files_are_read();
        files_are_taken();
        let mut room = MOST_FILE_BYTES;
        *number = 1;
        let head = read_head(alloc, reader, &mut room)?;
        *number = 2;
        let schema = read_schema(alloc, reader, &mut room)?;
        *number = 3;
        let mut bench = read_shown(alloc, reader, &mut room, &head, schema)?;
        read_rest(alloc, reader, &mut room, &mut bench, &head, number)?;
        bench.is_valid();
        bench.paths_are_read();
        Ok(bench)
    }
}
