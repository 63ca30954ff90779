//! The parts of a bench file's lines.
ghost use Rattle.std.specs.List.{list_all};
ghost use Rattle.std.specs.Prelude.{◌≡◌, IfOk, option_map};
ghost use Rattle.ssa_model.specs.definitions.Formats.{is_main, is_main_label};
ghost use Rattle.ssa_model.specs.definitions.BenchOfStates.{schema_in};
ghost use Rattle.ssa_json.specs.View.{view};
ghost use Rattle.ssa_path.specs.Subresources.{part_view};
ghost use Rattle.ssa_turn.specs.Histories.{label_view};
ghost use Rattle.ssa_file.specs.Heads.{IsFew};
ghost use Rattle.ssa_bench.specs.Taking.{IsTaken, TakesHead, answered_step, load_fault, of_schema_fault, written_label};

use ssa_answers::fault::Fault;
use ssa_file::head::{FileHead, file_head};
use ssa_json::value::Json;
use ssa_lines::loading::{FileLine, LoadFault};
use ssa_lines::written::is_text_of;
use ssa_merge::managers::{Entry, Managers};
use ssa_path::part::Part;
use ssa_record::read_record::RecordAnswer;
use ssa_schema::fault::SchemaFault;
use ssa_schema::schema::Schema;
use ssa_turn::label::Label;
use ssa_turn_state::live_state::StateDelta;
use std::alloc::{AllocError, Global};

// A command, and the record that leads from the state before it to the one that it makes.
#[derive(Drop)]
pub(crate) struct Step {
    pub(crate) label: Label,
    pub(crate) delta: StateDelta,
}

impl Step {
    // The record and the label in one box, as the history keeps them.
    pub(crate) fn boxed(self, alloc: Global) -> Result<Box<(StateDelta, Label)>, AllocError>
        ensures { IfOk result (λ b. b.value ≡ (self.delta, self.label)) }
    {
        let Step { label, delta } = self;
        let boxed = Box::new(alloc, (delta, label))?;
        Ok(boxed)
    }
}

// Why the text is no bench's, where an object is refused.
pub(crate) fn load_fault(fault: Fault) -> LoadFault
    ensures { result ≡ load_fault fault }
{
    match fault {
        Fault::OutOfMemory => LoadFault::OutOfMemory,
        _ => LoadFault::BenchText,
    }
}

// Why the text is no bench's, where a schema is refused.
fn schema_fault(fault: SchemaFault) -> LoadFault
    ensures { result ≡ of_schema_fault fault }
{
    match fault {
        SchemaFault::OutOfMemory => LoadFault::OutOfMemory,
        _ => LoadFault::BenchText,
    }
}

// The schema that a value is.
pub(crate) fn schema_of(alloc: Global, value: Json) -> Result<Schema, LoadFault>
    ensures { IsTaken result (schema_in (view value)) }
{
    match Schema::read(alloc, value) {
        Ok(schema) => Ok(schema),
        Err(fault) => Err(schema_fault(fault)),
    }
}

// What a first line says.
pub(crate) fn head_of(alloc: Global, line: &FileLine) -> Result<FileHead, LoadFault>
    ensures few { IfOk result IsFew }
    ensures taken { TakesHead result (view line.now.value) }
{
    match file_head(alloc, &line.value)? {
        Some(head) => Ok(head),
        None => Err(LoadFault::BenchText),
    }
}

// The label that a value is, none where it isn't written as one.
pub(crate) fn label_of(alloc: Global, value: &Json) -> Result<Option<Label>, AllocError>
    ensures { IfOk result (λ found. option_map label_view found ≡ written_label (view value.now)) }
{
    let Some(label) = Label::from_json(alloc, value)? else {
        return Ok(None);
    };
    let written = label.to_json(alloc)?;
    let text = value.to_text(alloc)?;
    if is_text_of(alloc, &written, &text)? {
        Ok(Some(label))
    } else {
        Ok(None)
    }
}

// Whether a label tells no subresource.
pub(crate) fn is_main_label(label: &Label) -> bool
    ensures { result ≡ is_main_label (label_view label.now) }
{
    match label {
        Label::Apply { part, .. } | Label::Update { part, .. } => matches!(part, Part::Main),
        Label::Strip => true,
    }
}

// Whether none of these acts through a subresource.
fn are_main_entries(entries: &[Entry]) -> bool
    ensures { result ≡ list_all (λ e. is_main (part_view e.key.part)) entries.now }
{
    for entry in entries {
        if !matches!(entry.key.part, Part::Main) {
            return false;
        }
    }
    true
}

// Whether no manager acts through a subresource.
pub(crate) fn are_main_managers(managers: &Managers) -> bool
    ensures { result ≡ list_all (λ e. is_main e.manager.part) managers.now }
{
    are_main_entries(managers.entries())
}

// The step of a command and its record that was read, or why their line is refused.
pub(crate) fn answered_step(label: Label, answer: RecordAnswer) -> Result<Step, LoadFault>
    ensures { result ≡ answered_step label answer }
{
    match answer {
        RecordAnswer::NoRecord => Err(LoadFault::BenchText),
        RecordAnswer::Misfit => Err(LoadFault::RecordDoesNotFit),
        RecordAnswer::Fits(delta) => Ok(Step { label, delta }),
    }
}
