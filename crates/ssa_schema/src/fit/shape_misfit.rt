//! What is wrong inside an atomic value: all of it is told at the atomic value's own path.
ghost use Rattle.ssa_model.specs.definitions.Kind.{wrong_type, is_of, fault_unless, shape_faults, shape_field_faults, shape_entry_faults, shape_item_faults};
ghost use Rattle.ssa_json.specs.View.{view, items_view, members_view, scalar_view};
ghost use Rattle.ssa_schema.specs.Kinds.{scalar_kind_view, shape_view, shape_fields_view};
ghost use Rattle.ssa_schema.specs.Finds.{Breaks};

use crate::fit::found::Misfit;
use crate::kind::{ScalarKind, Shape, find_shape};
use ssa_json::value::{Json, Scalar};
use ssa_members::Members;

/// What is wrong with a scalar.
pub fn scalar_misfit(scalar: &Scalar, wanted: &ScalarKind) -> Option<Misfit>
    ensures { Breaks result (fault_unless (is_of (scalar_kind_view wanted.now) (scalar_view scalar.now)) wrong_type) }
{
    if wanted.has(scalar) {
        None
    } else {
        Some(Misfit::WrongType)
    }
}

/// The first thing that is wrong with a value of an atomic kind.
#[cycle(shape)]
pub fn shape_misfit(value: &Json, shape: &Shape) -> Option<Misfit>
    ensures { Breaks result (shape_faults (shape_view shape.now) (view value.now)) }
{
    match (shape, value) {
        (Shape::Scalar(wanted), Json::Scalar(scalar)) => scalar_misfit(scalar, wanted),
        (Shape::Record(fields), Json::Object(members)) => fields_misfit(members, fields),
        (Shape::Dict(inside), Json::Object(members)) => entries_misfit(members, inside),
        (Shape::List(inside), Json::List(items)) => items_misfit(items, inside),
        _ => Some(Misfit::WrongType),
    }
}

// The first thing that is wrong with the members of an object with named fields.
#[cycle(shape)]
fn fields_misfit(members: &Members<Json>, fields: &Members<Shape>) -> Option<Misfit>
    ensures { Breaks result (shape_field_faults (shape_fields_view fields.now.entries) (members_view members.now.entries)) }
{
    for (name, member) in members.entries() {
        let Some(shape) = find_shape(fields, name.as_str()) else {
            return Some(Misfit::UnknownField);
        };
        if let Some(misfit) = shape_misfit(member, shape) {
            return Some(misfit);
        }
    }
    None
}

// The first thing that is wrong with the members of an object with any names.
#[cycle(shape)]
fn entries_misfit(members: &Members<Json>, inside: &Shape) -> Option<Misfit>
    ensures { Breaks result (shape_entry_faults (shape_view inside.now) (members_view members.now.entries)) }
{
    for (_, member) in members.entries() {
        if let Some(misfit) = shape_misfit(member, inside) {
            return Some(misfit);
        }
    }
    None
}

// The first thing that is wrong with the items of a list.
#[cycle(shape)]
fn items_misfit(items: &[Json], inside: &Shape) -> Option<Misfit>
    ensures { Breaks result (shape_item_faults (shape_view inside.now) (items_view items.now)) }
{
    for item in items {
        if let Some(misfit) = shape_misfit(item, inside) {
            return Some(misfit);
        }
    }
    None
}
