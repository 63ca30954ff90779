//! The first fault of a value under a kind.
ghost use Rattle.std.specs.Prelude.{[], IfOk};
ghost use Rattle.ssa_model.specs.definitions.Kind.{faults, field_faults, entry_faults, value_faults, item_faults};
ghost use Rattle.ssa_json.specs.View.{view, items_view, members_view};
ghost use Rattle.ssa_schema.specs.Kinds.{scalar_kind_view, kind_view, fields_view, names_view};
ghost use Rattle.ssa_schema.specs.Finds.{Finds, keyed_faults};

use crate::fit::found::{Found, Misfit};
use crate::fit::item_keys::keys_misfit;
use crate::fit::leading::{repeated_item, repeated_value, scalar_of};
use crate::fit::names::{field_name, key_name, value_name};
use crate::fit::repeated::is_other;
use crate::fit::shape_misfit::{scalar_misfit, shape_misfit};
use crate::kind::{Kind, ScalarKind, find_field_near};
use ssa_json::value::Json;
use ssa_members::Members;
use std::alloc::{AllocError, Global};

/// The first fault of a value, in the order of the walk; none where it fits.
#[cycle(walk)]
#[inline(always)]
pub fn value_fault(alloc: Global, value: &Json, kind: &Kind) -> Result<Option<Found>, AllocError>
    ensures { IfOk result (λ f. Finds f (faults (kind_view kind.now) (view value.now))) }
{
    match (kind, value) {
        (Kind::Scalar(wanted), Json::Scalar(scalar)) => {
            Ok(Found::at_place(alloc, scalar_misfit(scalar, wanted)))
        }
        (Kind::AtomicOf(shape), _) => Ok(Found::at_place(alloc, shape_misfit(value, shape))),
        (Kind::Record(fields), Json::Object(members)) => fields_fault(alloc, members, fields),
        (Kind::Dict(inside), Json::Object(members)) => entries_fault(alloc, members, inside),
        (Kind::SetOf(wanted), Json::List(items)) => set_fault(alloc, items, wanted),
        (Kind::ItemsOf { keys, fields }, Json::List(items)) => {
            items_fault(alloc, items, keys, fields)
        }
        _ => Ok(Found::at_place(alloc, Some(Misfit::WrongType))),
    }
}

// The first fault of the members of an object with named fields.
#[cycle(walk)]
fn fields_fault(
    alloc: Global,
    members: &Members<Json>,
    fields: &Members<Kind>,
) -> Result<Option<Found>, AllocError>
    ensures { IfOk result (λ f. Finds f (field_faults (fields_view fields.now.entries) (members_view members.now.entries))) }
{
    let mut near = 0;
    for (name, member) in members.entries() {
        let Some(kind) = find_field_near(fields, &mut near, name.as_str()) else {
            let unknown = Found::here(alloc, Misfit::UnknownField);
            return Ok(Some(unknown.below(field_name(alloc, name.as_str())?)?));
        };
        if let Some(found) = value_fault(alloc, member, kind)? {
            return Ok(Some(found.below(field_name(alloc, name.as_str())?)?));
        }
    }
    Ok(None)
}

// The first fault of the members of an object with any names.
#[cycle(walk)]
fn entries_fault(
    alloc: Global,
    members: &Members<Json>,
    inside: &Kind,
) -> Result<Option<Found>, AllocError>
    ensures { IfOk result (λ f. Finds f (entry_faults (kind_view inside.now) (members_view members.now.entries))) }
{
    for (name, entry) in members.entries() {
        if let Some(found) = value_fault(alloc, entry, inside)? {
            return Ok(Some(found.below(field_name(alloc, name.as_str())?)?));
        }
    }
    Ok(None)
}

// The first fault of the items of a set.
fn set_fault(
    alloc: Global,
    items: &[Json],
    wanted: &ScalarKind,
) -> Result<Option<Found>, AllocError>
    ensures { IfOk result (λ f. Finds f (value_faults (scalar_kind_view wanted.now) [] (items_view items.now))) }
{
    let repeated = repeated_value(alloc, items, wanted)?;
    for (i, item) in items.iter().enumerate() {
        let Some(scalar) = scalar_of(item, wanted) else {
            return Ok(Found::at_place(alloc, Some(Misfit::WrongType)));
        };
        if !is_other(repeated, i) {
            let twice = Found::here(alloc, Misfit::DuplicateItem);
            return Ok(Some(twice.below(value_name(alloc, scalar)?)?));
        }
    }
    Ok(None)
}

// The first fault of the items of a map list.
#[cycle(walk)]
fn items_fault(
    alloc: Global,
    items: &[Json],
    keys: &[String],
    fields: &Members<Kind>,
) -> Result<Option<Found>, AllocError>
    ensures { IfOk result (λ f. Finds f (item_faults (names_view keys.now) (fields_view fields.now.entries) [] (items_view items.now))) }
{
    let repeated = repeated_item(alloc, items, keys)?;
    for (i, item) in items.iter().enumerate() {
        let Json::Object(members) = item else {
            return Ok(Found::at_place(alloc, Some(Misfit::WrongType)));
        };
        if let Some(misfit) = keys_misfit(members, keys, fields) {
            return Ok(Found::at_place(alloc, Some(misfit)));
        }
        let is_new = is_other(repeated, i);
        if let Some(found) = keyed_fault(alloc, members, keys, fields, is_new)? {
            return Ok(Some(found));
        }
    }
    Ok(None)
}

// The first fault of an item whose keys are right: an earlier one has them, or a field has a fault.
#[cycle(walk)]
fn keyed_fault(
    alloc: Global,
    members: &Members<Json>,
    keys: &[String],
    fields: &Members<Kind>,
    is_new: bool,
) -> Result<Option<Found>, AllocError>
    ensures { IfOk result (λ f. Finds f (keyed_faults is_new (names_view keys.now) (fields_view fields.now.entries) (members_view members.now.entries))) }
{
    if !is_new {
        let twice = Found::here(alloc, Misfit::DuplicateItem);
        return Ok(Some(twice.below(key_name(alloc, keys, members)?)?));
    }
    if let Some(found) = fields_fault(alloc, members, fields)? {
        return Ok(Some(found.below(key_name(alloc, keys, members)?)?));
    }
    Ok(None)
}
