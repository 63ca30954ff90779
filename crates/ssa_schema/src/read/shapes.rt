//! The shapes of atomic values' schemas.
ghost use Rattle.std.specs.Prelude.{◌≡◌, IfOk};
ghost use Rattle.ssa_model.specs.definitions.Schema.{scalar_kind_of, shape_fields, property_members};
ghost use Rattle.ssa_json.specs.View.{view, members_view};
ghost use Rattle.ssa_schema.specs.Kinds.{scalar_kind_view, shape_view, shape_fields_view};
ghost use Rattle.ssa_schema.specs.Builds.{shape_at, object_shape, list_shape_at, fields_shape_at};

use crate::kind::{ScalarKind, Shape};
use crate::read::members::{is_array_type, is_object_type, member_is};
use crate::read::rules::property_members;
use ssa_json::members::find_member;
use ssa_json::value::Json;
use ssa_members::Members;
use std::alloc::{AllocError, Global};

/// The kind of a scalar's schema.
pub fn scalar_kind_of(members: &Members<Json>) -> ScalarKind
    ensures { scalar_kind_view result ≡ scalar_kind_of (members_view members.now.entries) }
{
    if member_is(members, "type", "string") {
        ScalarKind::Text
    } else if member_is(members, "type", "integer") {
        ScalarKind::Whole
    } else {
        ScalarKind::Truth
    }
}

/// The shape that a schema in an atomic value asks for, where so many levels are left.
#[cycle(shapes)]
pub fn shape_of(alloc: Global, schema: &Json, levels: usize) -> Result<Shape, AllocError>
    ensures { IfOk result (λ s. shape_view s ≡ shape_at levels (view schema.now)) }
{
    if levels == 0 {
        return Ok(Shape::Record(Members::new(alloc)));
    }
    match schema {
        Json::Object(members) => shape_of_object(alloc, members, levels - 1),
        Json::List(_) => Ok(Shape::Record(Members::new(alloc))),
        Json::Scalar(_) => Ok(Shape::Record(Members::new(alloc))),
    }
}

#[cycle(shapes)]
fn shape_of_object(
    alloc: Global,
    members: &Members<Json>,
    levels: usize,
) -> Result<Shape, AllocError>
    ensures { IfOk result (λ s. shape_view s ≡ object_shape levels (members_view members.now.entries)) }
{
    if is_array_type(members) {
        list_shape(alloc, members, levels)
    } else if is_object_type(members) {
        fields_shape(alloc, members, levels)
    } else {
        Ok(Shape::Scalar(scalar_kind_of(members)))
    }
}

// The shape of a list.
#[cycle(shapes)]
fn list_shape(alloc: Global, members: &Members<Json>, levels: usize) -> Result<Shape, AllocError>
    ensures { IfOk result (λ s. shape_view s ≡ list_shape_at levels (members_view members.now.entries)) }
{
    match find_member(members, "items") {
        Some(items) => {
            let inside = shape_of(alloc, items, levels)?;
            Ok(Shape::List(Box::new(alloc, inside)?))
        }
        None => Ok(Shape::Record(Members::new(alloc))),
    }
}

// The shape of an object.
#[cycle(shapes)]
fn fields_shape(alloc: Global, members: &Members<Json>, levels: usize) -> Result<Shape, AllocError>
    ensures { IfOk result (λ s. shape_view s ≡ fields_shape_at levels (members_view members.now.entries)) }
{
    match find_member(members, "additionalProperties") {
        Some(any) => {
            let inside = shape_of(alloc, any, levels)?;
            Ok(Shape::Dict(Box::new(alloc, inside)?))
        }
        None => Ok(Shape::Record(property_shapes(alloc, members, levels)?)),
    }
}

// The shapes of the fields.
#[cycle(shapes)]
fn property_shapes(
    alloc: Global,
    members: &Members<Json>,
    levels: usize,
) -> Result<Members<Shape>, AllocError>
    ensures { IfOk result (λ m. shape_fields_view m.entries ≡ shape_fields (shape_at levels) (property_members (members_view members.now.entries))) }
{
    match property_members(members) {
        Some(properties) => shapes_of(alloc, properties, levels),
        None => Ok(Members::new(alloc)),
    }
}

// The shapes of schemas under names.
#[cycle(shapes)]
fn shapes_of(
    alloc: Global,
    schemas: &Members<Json>,
    levels: usize,
) -> Result<Members<Shape>, AllocError>
    ensures { IfOk result (λ m. shape_fields_view m.entries ≡ shape_fields (shape_at levels) (members_view schemas.now.entries)) }
{
    let mut found = Vec::with_capacity(alloc, schemas.len())?;
    for (name, schema) in schemas.entries() {
        let key = name.copy(alloc)?;
        found.push((key, shape_of(alloc, schema, levels)?))?;
    }
    Ok(Members::of_rising(found))
}
