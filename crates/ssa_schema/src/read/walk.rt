//! The first fault of a schema.
ghost use Rattle.std.specs.Prelude.{◌≡◌, option_map, IfOk};
ghost use Rattle.ssa_model.specs.definitions.Json.{member_of};
ghost use Rattle.ssa_model.specs.definitions.Schema.{child_faults, property_faults, optional_faults, property_members};
ghost use Rattle.ssa_json.specs.View.{view, members_view};
ghost use Rattle.ssa_schema.specs.Standings.{standing_view};
ghost use Rattle.ssa_schema.specs.Refusals.{refusal_view, first_of, own_faults, object_faults, faults_at};

use crate::read::keys::{has_wrong_keys, items_refusal};
use crate::read::refusal::Refusal;
use crate::read::rules::{has_unknown_keyword, has_wrong_shape, has_wrong_type, property_members};
use crate::read::standing::Standing;
use ssa_json::members::find_member;
use ssa_json::value::Json;
use ssa_members::Members;
use std::alloc::{AllocError, Global};

/// The first fault of a schema itself, without those of the schemas inside.
pub fn own_refusal(
    alloc: Global,
    members: &Members<Json>,
    standing: Standing,
) -> Result<Option<Refusal>, AllocError>
    ensures { IfOk result (λ r. option_map refusal_view r ≡ first_of (own_faults (standing_view standing) (members_view members.now.entries))) }
{
    if has_unknown_keyword(members) {
        return Ok(Some(Refusal::Keyword));
    }
    if has_wrong_type(members) || has_wrong_shape(standing, members) {
        return Ok(Some(Refusal::Shape));
    }
    if has_wrong_keys(alloc, members)? {
        return Ok(Some(Refusal::Keys));
    }
    Ok(None)
}

/// The first fault of a schema where so many levels are left.
#[cycle(walk)]
pub fn first_refusal(
    alloc: Global,
    schema: &Json,
    levels: usize,
    standing: Standing,
) -> Result<Option<Refusal>, AllocError>
    ensures { IfOk result (λ r. option_map refusal_view r ≡ first_of (faults_at levels (standing_view standing) (view schema.now))) }
{
    if levels == 0 {
        return Ok(Some(Refusal::Depth));
    }
    match schema {
        Json::Object(members) => object_refusal(alloc, members, levels - 1, standing),
        Json::List(_) => Ok(Some(Refusal::Shape)),
        Json::Scalar(_) => Ok(Some(Refusal::Shape)),
    }
}

// The first fault of a schema that is an object, where so many levels are left below it.
#[cycle(walk)]
fn object_refusal(
    alloc: Global,
    members: &Members<Json>,
    levels: usize,
    standing: Standing,
) -> Result<Option<Refusal>, AllocError>
    ensures { IfOk result (λ r. option_map refusal_view r ≡ first_of (object_faults levels (standing_view standing) (members_view members.now.entries))) }
{
    if let Some(refusal) = own_refusal(alloc, members, standing)? {
        return Ok(Some(refusal));
    }
    if let Some(refusal) = inner_refusal(alloc, members, levels, standing.inside(members))? {
        return Ok(Some(refusal));
    }
    Ok(items_refusal(members))
}

// The first fault of the schemas inside.
#[cycle(walk)]
fn inner_refusal(
    alloc: Global,
    members: &Members<Json>,
    levels: usize,
    standing: Standing,
) -> Result<Option<Refusal>, AllocError>
    ensures { IfOk result (λ r. option_map refusal_view r ≡ first_of (child_faults (faults_at levels (standing_view standing)) (members_view members.now.entries))) }
{
    if let Some(refusal) = properties_refusal(alloc, members, levels, standing)? {
        return Ok(Some(refusal));
    }
    if let Some(refusal) = member_refusal(
        alloc,
        members,
        "additionalProperties",
        levels,
        standing,
    )? {
        return Ok(Some(refusal));
    }
    member_refusal(alloc, members, "items", levels, standing)
}

// The first fault of the schema that is the member of a name.
#[cycle(walk)]
fn member_refusal(
    alloc: Global,
    members: &Members<Json>,
    name: &str,
    levels: usize,
    standing: Standing,
) -> Result<Option<Refusal>, AllocError>
    ensures { IfOk result (λ r. option_map refusal_view r ≡ first_of (optional_faults (faults_at levels (standing_view standing)) (member_of name.now (members_view members.now.entries)))) }
{
    match find_member(members, name) {
        Some(schema) => first_refusal(alloc, schema, levels, standing),
        None => Ok(None),
    }
}

// The first fault of the schemas of the fields.
#[cycle(walk)]
fn properties_refusal(
    alloc: Global,
    members: &Members<Json>,
    levels: usize,
    standing: Standing,
) -> Result<Option<Refusal>, AllocError>
    ensures { IfOk result (λ r. option_map refusal_view r ≡ first_of (property_faults (faults_at levels (standing_view standing)) (property_members (members_view members.now.entries)))) }
{
    match property_members(members) {
        Some(properties) => each_refusal(alloc, properties, levels, standing),
        None => Ok(None),
    }
}

// The first fault of schemas under names.
#[cycle(walk)]
fn each_refusal(
    alloc: Global,
    schemas: &Members<Json>,
    levels: usize,
    standing: Standing,
) -> Result<Option<Refusal>, AllocError>
    ensures { IfOk result (λ r. option_map refusal_view r ≡ first_of (property_faults (faults_at levels (standing_view standing)) (members_view schemas.now.entries))) }
{
    for (_, schema) in schemas.entries() {
        if let Some(refusal) = first_refusal(alloc, schema, levels, standing)? {
            return Ok(Some(refusal));
        }
    }
    Ok(None)
}
