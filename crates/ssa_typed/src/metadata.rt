//! An empty `metadata`, which no body has.
ghost use Rattle.std.specs.Prelude.{◌≡◌, false};
ghost use Rattle.ssa_members.specs.Members.{IsRising};
ghost use Rattle.ssa_model.specs.definitions.Body.{is_empty_object, without_empty_metadata};
ghost use Rattle.ssa_json.specs.View.{view, members_view};
ghost use Rattle.ssa_typed.specs.Reads.{has_empty_metadata};

use ssa_json::value::Json;
use ssa_members::Members;

// Whether the value is an object with nothing in it.
fn is_empty_object(value: &Json) -> bool
    ensures { result ≡ is_empty_object (view value.now) }
{
    match value {
        Json::Object(members) => members.is_empty(),
        _ => false,
    }
}

// Whether there is a `metadata` with nothing in it.
fn has_empty_metadata(members: &Members<Json>) -> bool
    ensures told { result ≡ has_empty_metadata (members_view members.now.entries) }
    ensures ordered { IsRising members.now.entries }
{
    if members.entries().is_empty() {
        return false;
    }
    match members.get("metadata") {
        Some(value) => is_empty_object(value),
        None => false,
    }
}

/// The members of an object but for a `metadata` with nothing in it.
pub fn without_empty_metadata(members: Members<Json>) -> Members<Json>
    ensures members { members_view result.entries ≡ without_empty_metadata (members_view members.entries) }
    ensures gone { has_empty_metadata (members_view result.entries) ≡ false }
{
    let mut members = members;
    if has_empty_metadata(&members) {
        drop(members.remove("metadata"));
    }
    members
}
