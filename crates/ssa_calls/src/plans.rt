//! Plans of commands on the sample.
ghost use Rattle.std.specs.Prelude.{IfOk};
ghost use Rattle.ssa_model.specs.definitions.Valid.{IsValidState};
ghost use Rattle.ssa_merge.specs.States.{state_view};
ghost use Rattle.ssa_calls.specs.Samples.{IsNext, IsSample};

use crate::sample::{AT, Config, OBJECT, Sample, body_of};
use crate::shown::state_text;
use crate::stop::Stop;
use ssa_json::moment::Moment;
use ssa_merge::names::is_manager_name;
use ssa_merge::plan::{Plan, plan_apply, plan_strip, plan_update};
use ssa_merge::state::State;
use ssa_path::part::Part;
use ssa_schema::schema::Schema;
use ssa_typed::alike::bodies_are_alike;
use std::alloc::Global;

/// The plan of an Apply.
pub fn applied(alloc: Global, schema: &Schema, state: &State, config: &Config) -> Result<Plan, Stop>
    requires { IsValidState schema.now.kind (state_view state.now) }
    ensures { IfOk result (λ p. IsNext schema.now.kind (state_view state.now) (state_view p.target)) }
{
    let who = config.who;
    if !is_manager_name(who) {
        return Err(Stop::NotAsMeant);
    }
    let at = Moment::read(AT)?;
    let body = body_of(alloc, schema, config.text)?;
    bodies_are_alike();
    let plan = plan_apply(alloc, state, body, who, Part::Main, config.force, at)?;
    Ok(plan)
}

/// What an Apply leads to.
pub fn apply(alloc: Global, sample: &Sample, config: &Config) -> Result<String, Stop>
    requires { IsSample sample.now }
{
    let plan = applied(alloc, &sample.schema, &sample.state, config)?;
    let text = state_text(alloc, &plan.target)?;
    Ok(text)
}

/// What the Update leads to.
pub fn update(alloc: Global, sample: &Sample) -> Result<String, Stop> {
    let at = Moment::read(AT)?;
    let object = body_of(alloc, &sample.schema, OBJECT)?;
    let plan = plan_update(alloc, &sample.state, object, "kubectl", Part::Main, at)?;
    let text = state_text(alloc, &plan.target)?;
    Ok(text)
}

/// What the strip leads to.
pub fn strip(alloc: Global, sample: &Sample) -> Result<String, Stop> {
    let plan = plan_strip(alloc, &sample.state)?;
    let text = state_text(alloc, &plan.target)?;
    Ok(text)
}
