//! The parts of a line of a bench file of whole states.
ghost use Rattle.std.specs.Prelude.{◌≡◌, ◌&&◌, codes, IfOk, option_map};
ghost use Rattle.ssa_model.specs.definitions.Answers.{file_state};
ghost use Rattle.ssa_model.specs.definitions.Commands.{value_in};
ghost use Rattle.ssa_model.specs.definitions.Formats.{is_main_label, is_main_state};
ghost use Rattle.ssa_model.specs.definitions.Json.{member_at};
ghost use Rattle.ssa_model.specs.definitions.Valid.{IsValidState};
ghost use Rattle.ssa_model.specs.definitions.BenchOfStates.{label_in, object_in};
ghost use Rattle.ssa_json.specs.Readings.{readings};
ghost use Rattle.ssa_json.specs.View.{view};
ghost use Rattle.ssa_merge.specs.States.{state_view};
ghost use Rattle.ssa_turn.specs.Histories.{label_view};
ghost use Rattle.ssa_bench.specs.Benches.{IsGivenState, version_in};

use crate::bench::file_state;
use crate::taking::{are_main_managers, is_main_label};
use ssa_answers::fault::Fault;
use ssa_json::value::Json;
use ssa_members::Members;
use ssa_merge::state::State;
use ssa_schema::schema::Schema;
use ssa_turn::label::Label;
use std::alloc::{AllocError, Global};

// The command that a line tells, and the state that it made.
#[derive(Drop)]
pub(crate) struct TakenStep {
    pub(crate) label: Label,
    pub(crate) state: State,
}

impl TakenStep {
    // Whether neither the command nor a manager of the state acts through a subresource.
    pub(crate) fn is_main(&self) -> bool
        ensures { result ≡ (is_main_label (label_view self.now.label) && is_main_state (state_view self.now.state)) }
    {
        is_main_label(&self.label) && are_main_managers(&self.state.managers)
    }
}

// The label of the command that a line says, none where it says none.
pub(crate) fn label_in(alloc: Global, value: &Json) -> Result<Option<Label>, AllocError>
    ensures { IfOk result (λ found. option_map label_view found ≡ label_in readings (value_in (member_at (codes "command") (view value.now)))) }
{
    match value.member("command") {
        Some(command) => Label::from_json(alloc, command),
        None => Ok(Some(Label::Strip)),
    }
}

// The object that a line says, moved out of it; an empty one where it says none.
pub(crate) fn object_in(alloc: Global, value: Json) -> Json
    ensures { view result ≡ object_in (view value) }
{
    match value {
        Json::Object(mut members) => match members.remove("object") {
            Some(object) => object,
            None => Json::Object(Members::new(alloc)),
        },
        _ => Json::Object(Members::new(alloc)),
    }
}

// The version that an object says, the empty one where it says none.
fn version_in(object: &Json) -> &str
    ensures { result.now ≡ version_in (view object.now) }
{
    match object.member("apiVersion") {
        Some(version) => match version.as_text() {
            Some(text) => text,
            None => "",
        },
        None => "",
    }
}

// The state that an object says, or its first fault.
pub(crate) fn state_in(alloc: Global, schema: &Schema, object: Json) -> Result<State, Fault>
    ensures given { IsGivenState result (file_state readings schema.now.kind (view object)) }
    ensures valid { IfOk result (λ s. IsValidState schema.now.kind (state_view s)) }
{
    let version = String::from_str(alloc, version_in(&object))?;
    file_state(alloc, schema, object, version.as_str())
}
