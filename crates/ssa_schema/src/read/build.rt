//! The kind of a schema that has no fault.
ghost use Rattle.std.specs.Prelude.{◌≡◌, true, IfOk};
ghost use Rattle.ssa_model.specs.definitions.Schema.{scalar_kind_of, kind_fields, property_members, item_members};
ghost use Rattle.ssa_json.specs.View.{view, members_view};
ghost use Rattle.ssa_schema.specs.Kinds.{scalar_kind_view, kind_view, fields_view};
ghost use Rattle.ssa_model.specs.definitions.Lawful.{is_ordered, are_ordered};
ghost use Rattle.ssa_schema.specs.Builds.{kind_at, merged_kind, list_kind_at, fields_kind_at};

use crate::kind::{Kind, ScalarKind};
use crate::read::key_names::sorted_keys;
use crate::read::members::{is_array_type, is_atomic, is_object_type, list_type_is};
use crate::read::rules::{item_members, property_members};
use crate::read::shapes::{scalar_kind_of, shape_of};
use ssa_json::members::find_member;
use ssa_json::value::Json;
use ssa_members::Members;
use std::alloc::{AllocError, Global};

/// The kind that a schema asks for, where so many levels are left.
#[cycle(kinds)]
pub fn kind_of(alloc: Global, schema: &Json, levels: usize) -> Result<Kind, AllocError>
    ensures kind { IfOk result (λ k. kind_view k ≡ kind_at levels (view schema.now)) }
    ensures ordered { IfOk result (λ k. is_ordered (kind_view k) ≡ true) }
{
    if levels == 0 {
        return Ok(Kind::Record(Members::new(alloc)));
    }
    match schema {
        Json::Object(members) => {
            if is_atomic(members) {
                Ok(Kind::AtomicOf(shape_of(alloc, schema, levels)?))
            } else {
                kind_of_object(alloc, members, levels - 1)
            }
        }
        Json::List(_) => Ok(Kind::Record(Members::new(alloc))),
        Json::Scalar(_) => Ok(Kind::Record(Members::new(alloc))),
    }
}

// The kind of what is not atomic.
#[cycle(kinds)]
fn kind_of_object(alloc: Global, members: &Members<Json>, levels: usize) -> Result<Kind, AllocError>
    ensures kind { IfOk result (λ k. kind_view k ≡ merged_kind levels (members_view members.now.entries)) }
    ensures ordered { IfOk result (λ k. is_ordered (kind_view k) ≡ true) }
{
    if is_array_type(members) {
        list_kind(alloc, members, levels)
    } else if is_object_type(members) {
        fields_kind(alloc, members, levels)
    } else {
        Ok(Kind::Scalar(scalar_kind_of(members)))
    }
}

// The kind of the scalars of a set.
fn item_scalar_kind(members: &Members<Json>) -> ScalarKind
    ensures { scalar_kind_view result ≡ scalar_kind_of (item_members (members_view members.now.entries)) }
{
    match item_members(members) {
        Some(items) => scalar_kind_of(items),
        None => ScalarKind::Truth,
    }
}

// The kind of a list.
#[cycle(kinds)]
fn list_kind(alloc: Global, members: &Members<Json>, levels: usize) -> Result<Kind, AllocError>
    ensures kind { IfOk result (λ k. kind_view k ≡ list_kind_at levels (members_view members.now.entries)) }
    ensures ordered { IfOk result (λ k. is_ordered (kind_view k) ≡ true) }
{
    if list_type_is(members, "set") {
        return Ok(Kind::SetOf(item_scalar_kind(members)));
    }
    let keys = sorted_keys(alloc, members)?;
    let fields = item_kinds(alloc, members, levels)?;
    Ok(Kind::ItemsOf { keys, fields })
}

// The kinds of the fields of a list's items.
#[cycle(kinds)]
fn item_kinds(
    alloc: Global,
    members: &Members<Json>,
    levels: usize,
) -> Result<Members<Kind>, AllocError>
    ensures kind { IfOk result (λ m. fields_view m.entries ≡ kind_fields (kind_at levels) (property_members (item_members (members_view members.now.entries)))) }
    ensures ordered { IfOk result (λ m. are_ordered (fields_view m.entries) ≡ true) }
{
    match item_members(members) {
        Some(items) => property_kinds(alloc, items, levels),
        None => Ok(Members::new(alloc)),
    }
}

// The kind of an object.
#[cycle(kinds)]
fn fields_kind(alloc: Global, members: &Members<Json>, levels: usize) -> Result<Kind, AllocError>
    ensures kind { IfOk result (λ k. kind_view k ≡ fields_kind_at levels (members_view members.now.entries)) }
    ensures ordered { IfOk result (λ k. is_ordered (kind_view k) ≡ true) }
{
    match find_member(members, "additionalProperties") {
        Some(any) => {
            let inside = kind_of(alloc, any, levels)?;
            Ok(Kind::Dict(Box::new(alloc, inside)?))
        }
        None => Ok(Kind::Record(property_kinds(alloc, members, levels)?)),
    }
}

// The kinds of the fields.
#[cycle(kinds)]
fn property_kinds(
    alloc: Global,
    members: &Members<Json>,
    levels: usize,
) -> Result<Members<Kind>, AllocError>
    ensures kind { IfOk result (λ m. fields_view m.entries ≡ kind_fields (kind_at levels) (property_members (members_view members.now.entries))) }
    ensures ordered { IfOk result (λ m. are_ordered (fields_view m.entries) ≡ true) }
{
    match property_members(members) {
        Some(properties) => kinds_of(alloc, properties, levels),
        None => Ok(Members::new(alloc)),
    }
}

// The kinds of schemas under names.
#[cycle(kinds)]
fn kinds_of(
    alloc: Global,
    schemas: &Members<Json>,
    levels: usize,
) -> Result<Members<Kind>, AllocError>
    ensures kind { IfOk result (λ m. fields_view m.entries ≡ kind_fields (kind_at levels) (members_view schemas.now.entries)) }
    ensures ordered { IfOk result (λ m. are_ordered (fields_view m.entries) ≡ true) }
{
    let mut found = Vec::with_capacity(alloc, schemas.len())?;
    for (name, schema) in schemas.entries() {
        let key = name.copy(alloc)?;
        found.push((key, kind_of(alloc, schema, levels)?))?;
    }
    Ok(Members::of_rising(found))
}
