//! The object of an identity and a state.
ghost use Rattle.std.specs.Prelude.{◌≡◌, IfOk, OnOk, option_map, codes};
ghost use Rattle.ssa_model.specs.definitions.Json.{member_of};
ghost use Rattle.ssa_model.specs.definitions.Fitting.{IsBodyOf};
ghost use Rattle.ssa_model.specs.definitions.Objects.{object_of_body, with_member, with_given, with_identity, members_in, members_of_value};
ghost use Rattle.ssa_model.specs.definitions.Entries.{object_of_state, with_entries};
ghost use Rattle.ssa_json.specs.View.{view, members_view};
ghost use Rattle.ssa_merge.specs.States.{state_view};

use crate::identity::Identity;
use ssa_json::members::put_member;
use ssa_json::value::{Json, objects_are_members};
use ssa_members::Members;
use ssa_merge::state::State;
use ssa_schema::schema::Schema;
use ssa_typed::body::Body;
use std::alloc::{AllocError, Global};

// The object of an identity and a body of a schema.
fn object_of_body(
    alloc: Global,
    identity: &Identity,
    schema: &Schema,
    body: &Body,
) -> Result<Json, AllocError>
    requires { IsBodyOf schema.now.kind body.now }
    ensures { IfOk result (λ v. view v ≡ object_of_body identity.now schema.now.kind body.now) }
{
    // The value of a body is said for kinds whose fields rise, as this one's do.
    let _kind = schema.kind();
    objects_are_members();
    let shown = body.to_json(alloc)?;
    let mut members = into_members(alloc, shown);
    add_identity(alloc, &mut members, identity)?;
    Ok(Json::Object(members))
}

// The object with these entries as its `managedFields`.
fn with_managed_fields(alloc: Global, shown: Json, entries: Json) -> Result<Json, AllocError>
    ensures { IfOk result (λ v. view v ≡ with_entries (view entries) (view shown)) }
{
    let mut members = into_members(alloc, shown);
    let mut metadata = metadata_of(alloc, &members)?;
    put_member(alloc, &mut metadata, "managedFields", entries)?;
    put_member(alloc, &mut members, "metadata", Json::Object(metadata))?;
    Ok(Json::Object(members))
}

/// The object of an identity and a state of a schema, with the managers' entries as its
/// `managedFields` where they are asked for and there are some.
pub fn object_of_state(
    alloc: Global,
    identity: &Identity,
    schema: &Schema,
    managed: bool,
    state: &State,
) -> Result<Json, AllocError>
    requires { IsBodyOf schema.now.kind (state_view state.now).body }
    ensures { IfOk result (λ v. view v ≡ object_of_state identity.now schema.now.kind managed (state_view state.now)) }
{
    let shown = object_of_body(alloc, identity, schema, &state.body)?;
    if !managed || state.managers.len() == 0 {
        return Ok(shown);
    }
    let entries = state.managers.to_entries(alloc, identity.version())?;
    let object = with_managed_fields(alloc, shown, entries)?;
    Ok(object)
}

// The members of an object; none of another value.
fn into_members(alloc: Global, value: Json) -> Members<Json>
    ensures { members_view result.entries ≡ members_of_value (view value) }
{
    match value {
        Json::Object(members) => members,
        _ => Members::new(alloc),
    }
}

// Puts a copy of a value in its place, where it is there.
fn put_given(
    alloc: Global,
    members: &mut Members<Json>,
    name: &str,
    value: Option<&Json>,
) -> Result<(), AllocError>
    ensures { OnOk result (members_view members.new.entries ≡ with_given name.now (option_map (λ v. view v.now) value.entry) (members_view members.old.entries)) }
{
    match value {
        Some(value) => put_member(alloc, members, name, value.copy(alloc)?),
        None => Ok(()),
    }
}

// The members of `metadata`, with new memory; none where it is absent.
fn metadata_of(alloc: Global, members: &Members<Json>) -> Result<Members<Json>, AllocError>
    ensures { IfOk result (λ ms. members_view ms.entries ≡ members_in (member_of (codes "metadata") (members_view members.now.entries))) }
{
    match members.get("metadata") {
        Some(value) => Ok(into_members(alloc, value.copy(alloc)?)),
        None => Ok(Members::new(alloc)),
    }
}

// Puts the identity among the members.
fn add_identity(
    alloc: Global,
    members: &mut Members<Json>,
    identity: &Identity,
) -> Result<(), AllocError>
    ensures { OnOk result (members_view members.new.entries ≡ with_identity identity.now (members_view members.old.entries)) }
{
    let (version, kind, name, namespace) = identity.parts();
    let mut metadata = metadata_of(alloc, members)?;
    put_given(alloc, &mut metadata, "namespace", namespace)?;
    put_given(alloc, &mut metadata, "name", Some(name))?;
    put_member(alloc, members, "metadata", Json::Object(metadata))?;
    put_given(alloc, members, "kind", Some(kind))?;
    put_given(alloc, members, "apiVersion", Some(version))
}
