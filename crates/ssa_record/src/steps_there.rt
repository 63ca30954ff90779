//! The changes of a body at and below one place of it.
ghost use Rattle.std.specs.Prelude.{◌≡◌, ◌+◌, ◌≤◌, [], ◌∷◌, nat_le, not, false, true, length, IfOk};
ghost use Rattle.ssa_model.specs.definitions.Lawful.{is_lawful};
ghost use Rattle.ssa_model.specs.definitions.Limits.{most_places};
ghost use Rattle.ssa_model.specs.definitions.Path.{under};
ghost use Rattle.ssa_model.specs.definitions.PathMap.{size};
ghost use Rattle.ssa_model.specs.definitions.Valid.{metadata_path, IsValidBody};
ghost use Rattle.ssa_path.specs.View.{element_view, path_view};
ghost use Rattle.ssa_typed.specs.Rows.{rows};
ghost use Rattle.ssa_record.specs.Places.{maps_of, AllTouched};
ghost use Rattle.ssa_record.specs.Spots.{AreSteps, IsSpot};

use crate::led_value::led_value;
use crate::places::ToldPlaces;
use crate::spot::Spot;
use ssa_json::text::is_same_text;
use ssa_path::element::Elem;
use ssa_schema::schema::Schema;
use ssa_turn_body::between_at::steps_at;
use ssa_turn_body::steps::BodySteps;
use ssa_typed::at_kind::tree_at;
use ssa_typed::body::{Body, MOST_PLACES};
use ssa_typed::node::Node;
use std::alloc::{AllocError, Global};

// Whether the element is that of the field `metadata`.
fn is_metadata(element: &Elem) -> bool
    ensures { result ≡ under (element_view element.now ∷ []) metadata_path }
{
    match element {
        Elem::Field(name) => is_same_text(name.as_str(), "metadata"),
        Elem::Key(_) => false,
        Elem::Value(_) => false,
    }
}

/// Whether a path is neither the root nor `metadata`, of which a valid body has none that is empty.
pub fn is_inner(path: &[Elem]) -> bool
    ensures { result ≡ not (under (path_view path.now) metadata_path) }
{
    match path {
        [] => false,
        [only] => !is_metadata(only),
        [_first, _second, ..] => true,
    }
}

// Whether a body is still no larger than a body may be with one tree in place of another one of it.
fn has_room(body: &Body, from: &Node, to: &Node) -> bool
    requires few { size body.now ≤ most_places }
    requires part { length (rows from.now) ≤ size body.now }
    ensures { result ≡ nat_le (size body.now + length (rows to.now)) (most_places + length (rows from.now)) }
{
    let gone = from.size();
    let come = to.size();
    come <= gone || come - gone <= MOST_PLACES - body.size()
}

/// The changes at and below a place at and below which is all that is touched. Only what the body
/// has there is walked and read; where it grows, the places of the body are counted.
pub fn steps_there(
    alloc: Global,
    schema: &Schema,
    body: &Body,
    told: &ToldPlaces<'_>,
    mut path: Vec<Elem>,
    spot: &Spot<'_>,
) -> Result<Option<BodySteps>, AllocError>
    requires lawful { is_lawful schema.now.kind ≡ true }
    requires valid { IsValidBody schema.now.kind body.now }
    requires all { AllTouched (maps_of told.now) }
    requires spot { IsSpot (maps_of told.now) schema.now.kind body.now (path_view path.items) spot.now }
    requires inner { under (path_view path.items) metadata_path ≡ false }
    ensures { IfOk result (λ o. AreSteps (maps_of told.now) schema.now.kind body.now o) }
{
    let Some(value) = led_value(alloc, told, spot.touched, &mut path, spot.node)? else {
        return Ok(None);
    };
    let Some(after) = tree_at(alloc, spot.kind, value)? else {
        return Ok(None);
    };
    if !has_room(body, spot.node, &after) {
        return Ok(None);
    }
    Ok(Some(steps_at(alloc, path, spot.node, after)?))
}
