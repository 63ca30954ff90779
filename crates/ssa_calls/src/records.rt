//! Records of two states, each with its size.
ghost use Rattle.ssa_model.specs.definitions.Operations.{State as StateValue};
ghost use Rattle.ssa_model.specs.definitions.Valid.{IsValidState, KeepsOrder};
ghost use Rattle.ssa_merge.specs.States.{state_view};
ghost use Rattle.ssa_turn_state.specs.States.{HasStateRoom, IsTaken, state_steps};
ghost use Rattle.ssa_calls.specs.Samples.{IsSample};

use crate::plans::applied;
use crate::sample::{AGAIN, FORCED, LESS, Sample, VERSION};
use crate::stop::Stop;
use ssa_merge::plan::Plan;
use ssa_merge::state::State;
use ssa_schema::schema::Schema;
use ssa_turn_state::live_state::StateDelta;
use std::alloc::{AllocError, Global};

/// The size and the text of a record.
pub fn record_text(alloc: Global, delta: &StateDelta) -> Result<String, AllocError>
    requires taken { (v w : StateValue) × IsTaken (state_steps delta.now) v w }
    requires room { (v : StateValue) × HasStateRoom delta.now v }
{
    let size = delta.size();
    let value = delta.to_json(alloc, VERSION)?.to_string(alloc)?;
    let head = format!(in alloc; "{size} ")?;
    [head.as_str(), value.as_str()].concat(alloc)
}

// The record that leads from one state to another.
fn leading(alloc: Global, schema: &Schema, from: &State, to: State) -> Result<String, AllocError>
    requires from { IsValidState schema.now.kind (state_view from.now) }
    requires to { IsValidState schema.now.kind (state_view to) }
    requires order { KeepsOrder (state_view from.now).table (state_view to).table }
{
    let delta = StateDelta::leading(alloc, from, to)?;
    record_text(alloc, &delta)
}

// The record that leads from a state to a plan's target.
fn between(alloc: Global, schema: &Schema, state: &State, plan: Plan) -> Result<String, AllocError>
    requires from { IsValidState schema.now.kind (state_view state.now) }
    requires to { IsValidState schema.now.kind (state_view plan.target) }
    requires order { KeepsOrder (state_view state.now).table (state_view plan.target).table }
{
    let delta = StateDelta::between(alloc, state, plan)?;
    record_text(alloc, &delta)
}

/// From the sample to what the forced Apply leads to.
pub fn leading_there(alloc: Global, sample: &Sample) -> Result<String, Stop>
    requires { IsSample sample.now }
{
    let plan = applied(alloc, &sample.schema, &sample.state, &FORCED)?;
    let text = leading(alloc, &sample.schema, &sample.state, plan.into_target())?;
    Ok(text)
}

/// From there back to the sample.
pub fn leading_back(alloc: Global, sample: &Sample) -> Result<String, Stop>
    requires { IsSample sample.now }
{
    let plan = applied(alloc, &sample.schema, &sample.state, &FORCED)?;
    let before = sample.state.clone(alloc)?;
    let text = leading(alloc, &sample.schema, &plan.target, before)?;
    Ok(text)
}

/// From the sample to what is left where the third manager gives up fields.
pub fn between_there(alloc: Global, sample: &Sample) -> Result<String, Stop>
    requires { IsSample sample.now }
{
    let plan = applied(alloc, &sample.schema, &sample.state, &LESS)?;
    let text = between(alloc, &sample.schema, &sample.state, plan)?;
    Ok(text)
}

/// From there to what its next Apply brings back.
pub fn between_back(alloc: Global, sample: &Sample) -> Result<String, Stop>
    requires { IsSample sample.now }
{
    let less = applied(alloc, &sample.schema, &sample.state, &LESS)?;
    let plan = applied(alloc, &sample.schema, &less.target, &AGAIN)?;
    let text = between(alloc, &sample.schema, &less.target, plan)?;
    Ok(text)
}
