//! The line of the state that a bench file shows first, and those of its records, each taken on the bench that the lines before it made.
ghost use Rattle.std.specs.Prelude.{◌≡◌, ◌||◌, ◌≤◌, ◌<◌, IfOk, length, not, true};
ghost use Rattle.ssa_model.specs.definitions.Answers.{lone_state};
ghost use Rattle.ssa_model.specs.definitions.BenchText.{whole_object};
ghost use Rattle.ssa_model.specs.definitions.Formats.{can_tell_state, tells_parts};
ghost use Rattle.ssa_model.specs.definitions.History.{appended, past_len, present, preceded};
ghost use Rattle.ssa_model.specs.definitions.Json.{compact, same_text};
ghost use Rattle.ssa_model.specs.definitions.MemberNames.{has_rising_names};
ghost use Rattle.ssa_model.specs.definitions.ToldParts.{has_subresource, tells_subresource};
ghost use Rattle.ssa_model.specs.laws.LineByLine.{at_place, shown_in};
ghost use Rattle.ssa_model.specs.definitions.BenchOfRecords.{present_in};
ghost use Rattle.ssa_json.specs.Readings.{readings};
ghost use Rattle.ssa_json.specs.View.{view};
ghost use Rattle.ssa_file.specs.Heads.{head_depth, head_view};
ghost use Rattle.ssa_file.specs.Recording.{format_view};
ghost use Rattle.ssa_bench.specs.Taking.{IsTaken, MovesBy, TellsMove};

use super::Bench;
use crate::record_reading::RecordReading;
use crate::taking::{Step, answered_step, label_of, load_fault};
use ssa_file::head::{FileHead, RecordCounts};
use ssa_file::recording::RecordFormat;
use ssa_json::value::Json;
use ssa_lines::loading::{FileLine, LoadFault};
use ssa_lines::written::is_text_of;
use ssa_model::records::recorded_moves;
use ssa_schema::schema::Schema;
use ssa_told::line_values::line_values;
use ssa_told::subresources::tells_subresource;
use std::alloc::{AllocError, Global};

// Whether a line of the format can tell the command and the record.
fn can_tell(format: RecordFormat, command: &Json, record: &Json) -> bool
    ensures { result ≡ (tells_parts (format_view format) || not (has_subresource (view command.now) || tells_subresource (view record.now))) }
{
    match format {
        RecordFormat::Records => {
            command.member("subresource").is_none() && !tells_subresource(record)
        }
        RecordFormat::Parts | RecordFormat::Depths => true,
    }
}

impl Bench {
    // The bench of the state that a third line shows: of the first one or of the present one, by the format.
    pub(crate) fn of_shown_line(
        alloc: Global,
        head: &FileHead,
        schema: Schema,
        line: FileLine,
    ) -> Result<Bench, LoadFault>
        requires { line.text.items ≡ compact (view line.value) }
        ensures taken { IsTaken result (shown_in readings (head_view head.now) schema (view line.value)) }
        ensures depth { IfOk result (λ b. b.depth ≡ head_depth head.now) }
        ensures lone { IfOk result (λ b. b.timeline ≡ lone_state b.timeline.first) }
    {
        match head {
            FileHead::States(_) => Bench::of_first_line(alloc, schema, line),
            FileHead::Records(counts) => Bench::of_present_line(alloc, counts, schema, line),
        }
    }

    // Whether the text is that of the only state's object.
    fn is_present_line(&self, alloc: Global, text: &[u8]) -> Result<bool, AllocError>
        requires { self.now.timeline ≡ lone_state self.now.timeline.first }
        ensures { IfOk result (λ same. same ≡ same_text (compact (whole_object self.now self.now.timeline.first)) text.now) }
    {
        let shown = self.show(alloc, true)?;
        is_text_of(alloc, &shown, text)
    }

    // Whether the format can tell the managers of the present state.
    fn is_of_format(&self, format: RecordFormat) -> bool
        ensures { result ≡ can_tell_state (format_view format) (present self.now.timeline) }
    {
        match format {
            RecordFormat::Records => self.has_main_managers(),
            RecordFormat::Parts | RecordFormat::Depths => true,
        }
    }

    // The bench of the present state that a line shows.
    fn of_present_line(
        alloc: Global,
        counts: &RecordCounts,
        schema: Schema,
        line: FileLine,
    ) -> Result<Bench, LoadFault>
        requires { line.text.items ≡ compact (view line.value) }
        ensures taken { IsTaken result (present_in readings (format_view counts.now.format) counts.now.depth schema (view line.value)) }
        ensures depth { IfOk result (λ b. b.depth ≡ counts.now.depth) }
        ensures lone { IfOk result (λ b. b.timeline ≡ lone_state b.timeline.first) }
    {
        let FileLine { value, text } = line;
        match Bench::with_depth(alloc, schema, value, counts.depth) {
            Ok(bench) => {
                if !bench.is_of_format(counts.format) {
                    return Err(LoadFault::BenchText);
                }
                if bench.is_present_line(alloc, &text)? {
                    Ok(bench)
                } else {
                    Err(LoadFault::BenchText)
                }
            }
            Err(fault) => Err(load_fault(fault)),
        }
    }

    // The command of a line, and its record, made ready for its turns in the present state.
    fn told_move(
        &mut self,
        alloc: Global,
        format: RecordFormat,
        value: &Json,
    ) -> Result<Step, LoadFault>
        requires { has_rising_names (view value.now) ≡ true }
        ensures same { self.new ≡ self.old }
        ensures told { TellsMove (format_view format) self.old result (view value.now) }
    {
        recorded_moves();
        self.is_valid();
        self.paths_are_read();
        let Some(values) = line_values(value) else {
            return Err(LoadFault::BenchText);
        };
        if !can_tell(format, values.command, values.record) {
            return Err(LoadFault::BenchText);
        }
        let Some(label) = label_of(alloc, values.command)? else {
            return Err(LoadFault::BenchText);
        };
        let version = self.identity.version();
        let answer = self.timeline.read(RecordReading {
            alloc,
            schema: &self.schema,
            version,
            value: values.record,
        })?;
        answered_step(label, answer)
    }

    // Goes by a line to the state before all others.
    pub(crate) fn go_back_by(
        &mut self,
        alloc: Global,
        format: RecordFormat,
        line: &FileLine,
    ) -> Result<(), LoadFault>
        requires names { has_rising_names (view line.now.value) ≡ true }
        requires first { past_len self.old.timeline ≡ 0 }
        requires few { length self.old.timeline.later < self.old.depth }
        ensures moves { MovesBy (format_view format) preceded self.old self.new result (view line.now.value) }
        ensures depth { self.new.depth ≡ self.old.depth }
    {
        let step = self.told_move(alloc, format, &line.value)?;
        self.timeline.precede(step.boxed(alloc)?)?;
        Ok(())
    }

    // Goes by a line to the state behind the present one.
    pub(crate) fn go_on_by(
        &mut self,
        alloc: Global,
        format: RecordFormat,
        line: &FileLine,
    ) -> Result<(), LoadFault>
        requires names { has_rising_names (view line.now.value) ≡ true }
        requires few { past_len self.old.timeline < self.old.depth }
        ensures moves { MovesBy (format_view format) appended self.old self.new result (view line.now.value) }
        ensures depth { self.new.depth ≡ self.old.depth }
    {
        self.timeline.place_is_within();
        let step = self.told_move(alloc, format, &line.value)?;
        self.timeline.append(step.boxed(alloc)?)?;
        Ok(())
    }

    // The place is that of one of the states.
    pub(crate) fn place_is_within(&self)
        ensures { past_len self.now.timeline ≤ length self.now.timeline.later }
    {
        self.timeline.place_is_within();
    }

    // Goes to a place of the history.
    pub(crate) fn go_to(&mut self, place: usize)
        requires { place ≤ length self.old.timeline.later }
        ensures { self.new ≡ at_place place self.old }
    {
        self.timeline.go_to(place);
    }
}
