//! The changes of a body that the value of a record tells.
ghost use Rattle.std.specs.Prelude.{◌≡◌, IfOk, IfSome};
ghost use Rattle.ssa_model.specs.definitions.Body.{Body};
ghost use Rattle.ssa_model.specs.definitions.Takes.{BodyTakes};
ghost use Rattle.ssa_model.specs.definitions.Valid.{IsValidBody};
ghost use Rattle.ssa_model.specs.definitions.Record.{BodyRecord};
ghost use Rattle.ssa_json.specs.View.{view};
ghost use Rattle.ssa_turn_body.specs.Records.{body_told};
ghost use Rattle.ssa_turn_body.specs.Rooms.{HasBodyRoom};
ghost use Rattle.ssa_told.specs.Told.{told_body, told_of};
ghost use Rattle.ssa_record.specs.LedBodies.{IsRead, IsSaid, IsShown};
ghost use Rattle.ssa_record.specs.Places.{maps_of, AllTouched};
ghost use Rattle.ssa_record.specs.Spots.{AreSteps};

use crate::led_value::led_value;
use crate::places::ToldPlaces;
use crate::spot::Spot;
use crate::standing::{told_are_few, told_stands};
use crate::steps_there::{is_inner, steps_there};
use crate::told_places::places_told;
use crate::told_spot::spot_from;
use ssa_json::value::Json;
use ssa_schema::schema::Schema;
use ssa_told::told::ToldBody;
use ssa_turn_body::between::steps_between;
use ssa_turn_body::steps::BodySteps;
use ssa_typed::body::Body;
use ssa_typed::fault::TypedFault;
use std::alloc::{AllocError, Global};

// The value of the body after the record, where what is told is the record of two bodies.
fn value_after(
    alloc: Global,
    body: &Body,
    told: &ToldPlaces<'_>,
) -> Result<Option<Json>, AllocError>
    requires { AllTouched (maps_of told.now) }
    ensures { IfOk result (λ o. IsShown (maps_of told.now) body.now o) }
{
    let mut path = Vec::new(alloc);
    let touched = told.touched.root();
    let value = led_value(alloc, told, touched, &mut path, body.root())?;
    Ok(value)
}

// The body of a value, where it has one under the schema.
fn body_of(alloc: Global, schema: &Schema, value: Json) -> Result<Option<Body>, AllocError>
    ensures valid { IfOk result (λ o. IfSome o (λ b. IsValidBody schema.now.kind b)) }
    ensures read { IfOk result (λ o. IsRead schema.now.kind (view value) o) }
{
    let _kind = schema.kind();
    match Body::from_json(alloc, schema, value) {
        Ok(body) => Ok(Some(body)),
        Err(TypedFault::OutOfMemory) => Err(AllocError),
        Err(TypedFault::Body(_)) => Ok(None),
        Err(TypedFault::TooManyPaths) => Ok(None),
    }
}

// The changes of the whole body: it is walked and read once.
fn steps_of_whole(
    alloc: Global,
    schema: &Schema,
    body: &Body,
    told: &ToldPlaces<'_>,
) -> Result<Option<BodySteps>, AllocError>
    requires valid { IsValidBody schema.now.kind body.now }
    requires all { AllTouched (maps_of told.now) }
    ensures { IfOk result (λ o. AreSteps (maps_of told.now) schema.now.kind body.now o) }
{
    let _kind = schema.kind();
    let Some(value) = value_after(alloc, body, told)? else {
        return Ok(None);
    };
    match body_of(alloc, schema, value)? {
        Some(after) => Ok(Some(steps_between(alloc, body, after)?)),
        None => Ok(None),
    }
}

/// The changes that lead from a body to where the record leads that is told, with room for every
/// turn of them, or none where what is told is not the record of the body and another valid one.
///
/// What is made is the record of the body and of a valid one; whether it is the one that was told is
/// left to who compares its value with the told one. Where all that is told is at and below one place
/// that fields lead to, also those of items, only what the body has there is walked and read, else the
/// whole.
pub fn told_steps(
    alloc: Global,
    schema: &Schema,
    body: &Body,
    told: &ToldBody,
) -> Result<Option<BodySteps>, AllocError>
    requires { IsValidBody schema.now.kind body.now }
    ensures taken { IfOk result (λ o. IfSome o (λ s. (w : Body) × BodyTakes schema.now.kind (body_told s) body.now w × IsValidBody schema.now.kind w)) }
    ensures room { IfOk result (λ o. IfSome o (λ s. HasBodyRoom s body.now)) }
    ensures whole { IfOk result (λ o. (d : BodyRecord) (w : Body) → BodyTakes schema.now.kind d body.now w → IsValidBody schema.now.kind w
        → told_body told.now ≡ told_of schema.now.kind d → IsSaid o d) }
{
    if !told_are_few(told) {
        return Ok(None);
    }
    if !told_stands(body, told) {
        return Ok(None);
    }
    let kind = schema.kind();
    let places = places_told(alloc, told)?;
    let root = Spot {
        touched: places.touched.root(),
        node: body.root(),
        kind,
    };
    let mut path = Vec::new(alloc);
    let spot = spot_from(alloc, &places, &mut path, root)?;
    if is_inner(&path) {
        steps_there(alloc, schema, body, &places, path, &spot)
    } else {
        steps_of_whole(alloc, schema, body, &places)
    }
}
