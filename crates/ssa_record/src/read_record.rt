//! A record read from its value, in the state that it leads from.
ghost use Rattle.std.specs.Prelude.{◌≡◌, IfOk};
ghost use Rattle.ssa_model.specs.definitions.Valid.{IsValidState};
ghost use Rattle.ssa_json.specs.View.{view};
ghost use Rattle.ssa_merge.specs.States.{state_view};
ghost use Rattle.ssa_record.specs.RecordAnswers.{IsAnswer};

use crate::told_delta::told_delta;
use ssa_json::value::Json;
use ssa_merge::state::State;
use ssa_schema::schema::Schema;
use ssa_told::told_reading::told_record;
use ssa_turn_state::live_state::{StateDelta, turn_state};
use ssa_turn_state::own_paths::own_state_is_read;
use std::alloc::{AllocError, Global};

/// What a value is, where the record of a state is wanted.
#[derive(Drop)]
pub enum RecordAnswer {
    /// It has not the shape of a record.
    NoRecord,
    /// It has the shape, but it isn't the record of the state and of another valid one.
    Misfit,
    /// It is the record, with room for every turn of it.
    Fits(StateDelta),
}

/// The record of a state that a value is, as `StateDelta::to_json` writes it, for objects of this
/// `apiVersion`.
///
/// The record is made anew from what the value tells, and its value is compared with the one that is
/// read, so that no second spelling is taken. Nothing is changed; `Err` comes where memory is refused.
/// The state is turned to where the record leads, and back, so that what holds of each state of a
/// program is known of that one too: its paths, moments and sets are read from their texts.
pub fn read_record(
    alloc: Global,
    schema: &Schema,
    version: &str,
    state: &mut State,
    value: &Json,
) -> Result<RecordAnswer, AllocError>
    requires { IsValidState schema.now.kind (state_view state.old) }
    ensures same { state_view state.new ≡ state_view state.old }
    ensures answer { IfOk result (λ r. IsAnswer schema.now.kind version.now (state_view state.old) (view value.now) r) }
{
    let _kind = schema.kind();
    let Some(told) = told_record(alloc, value)? else {
        return Ok(RecordAnswer::NoRecord);
    };
    let Some(mut delta) = told_delta(alloc, schema, state, told)? else {
        return Ok(RecordAnswer::Misfit);
    };
    let made = delta.to_json(alloc, version)?;
    if !made.same(value) {
        return Ok(RecordAnswer::Misfit);
    }
    turn_state(state, &mut delta);
    own_state_is_read(state);
    state.managers.own_entries_are_read();
    turn_state(state, &mut delta);
    Ok(RecordAnswer::Fits(delta))
}
