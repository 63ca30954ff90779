//! Bodies and states of the sample schema.
ghost use Rattle.std.specs.Prelude.{IfOk};
ghost use Rattle.ssa_model.specs.definitions.Fitting.{IsBodyOf};
ghost use Rattle.ssa_model.specs.definitions.Valid.{IsValidState};
ghost use Rattle.ssa_merge.specs.States.{state_view};
ghost use Rattle.ssa_typed.specs.Alike.{AreAlike};

use ssa_json::value::Json;
use ssa_merge::managers::Managers;
use ssa_merge::state::State;
use ssa_samples::sample::{json, schema};
use ssa_schema::schema::Schema;
use ssa_typed::body::Body;
use std::alloc::Global;
use std::test::Fail;

/// The body of a value under a schema.
pub fn body_under(alloc: Global, schema: &Schema, value: Json) -> Result<Body, Fail>
    ensures { IfOk result (λ b. IsBodyOf schema.now.kind b) }
{
    Ok(Body::from_json(alloc, schema, value)?)
}

/// The body of a text under the sample schema.
pub fn body(alloc: Global, text: &str) -> Result<Body, Fail> {
    let value = json(alloc, text)?;
    let schema = schema(alloc)?;
    body_under(alloc, &schema, value)
}

// The bodies of two values under a schema.
fn bodies_under(
    alloc: Global,
    schema: &Schema,
    before: Json,
    after: Json,
) -> Result<(Body, Body), Fail>
    ensures { IfOk result (λ bodies. AreAlike bodies.0 bodies.1) }
{
    let before = body_under(alloc, schema, before)?;
    let after = body_under(alloc, schema, after)?;
    Ok((before, after))
}

/// The bodies of two texts under the sample schema.
pub fn bodies(alloc: Global, before: &str, after: &str) -> Result<(Body, Body), Fail>
    ensures { IfOk result (λ bodies. AreAlike bodies.0 bodies.1) }
{
    let before = json(alloc, before)?;
    let after = json(alloc, after)?;
    let schema = schema(alloc)?;
    bodies_under(alloc, &schema, before, after)
}

/// The state of a text's body under a schema, with no managers.
pub fn state(alloc: Global, schema: &Schema, text: &str) -> Result<State, Fail>
    ensures { IfOk result (λ s. IsValidState schema.now.kind (state_view s)) }
{
    let value = json(alloc, text)?;
    let body = Body::from_json(alloc, schema, value)?;
    let managers = Managers::new(alloc);
    Ok(State { body, managers })
}
