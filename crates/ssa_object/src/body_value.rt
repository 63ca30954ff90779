//! The value of an object's body: the object without what is not of its body.
//!
//! The object is taken whole, and what stays of it is moved: nothing is copied, and no memory is
//! asked for.
ghost use Rattle.std.specs.Prelude.{◌≡◌, ◌∷◌, [], codes, map, option_map};
ghost use Rattle.ssa_model.specs.definitions.Json.{object};
ghost use Rattle.ssa_model.specs.definitions.Objects.{value_at, without, without_names, without_in_metadata, body_value, file_value, value_without};
ghost use Rattle.ssa_json.specs.View.{view, members_view};

use ssa_json::value::{Json, Scalar, objects_are_members};
use ssa_members::Members;

/// A command's object without its identity.
pub fn body_value(object: Json) -> Json
    ensures { view result ≡ body_value (view object) }
{
    value_without(object, &["name", "namespace"])
}

/// The body's value of an object file, and the value of its `metadata.managedFields`, where it is
/// there.
///
/// The body's value is the object without its identity, the managers' entries, and what a server
/// keeps in `metadata`: `uid`, `resourceVersion`, `generation`, `creationTimestamp` and `selfLink`.
pub fn file_parts(object: Json) -> (Json, Option<Json>)
    ensures value { view result.0 ≡ file_value (view object) }
    ensures entries { option_map view result.1 ≡ value_at (codes "metadata" ∷ codes "managedFields" ∷ []) (view object) }
{
    objects_are_members();
    match object {
        Json::Object(mut members) => {
            let entries = take_entries(&mut members);
            (file_value(Json::Object(members)), entries)
        }
        other => (file_value(other), None),
    }
}

// The body's value of an object file.
fn file_value(object: Json) -> Json
    ensures { view result ≡ file_value (view object) }
{
    value_without(
        object,
        &[
            "name",
            "namespace",
            "uid",
            "resourceVersion",
            "generation",
            "creationTimestamp",
            "selfLink",
            "managedFields",
        ],
    )
}

// The object without `apiVersion` and `kind`, and without these members of its metadata.
fn value_without(object: Json, names: &[&str]) -> Json
    ensures { view result ≡ value_without (map (λ n. n.now) names.now) (view object) }
{
    match object {
        Json::Object(mut members) => {
            remove_members(&mut members, &["apiVersion", "kind"]);
            strip_metadata(&mut members, names);
            Json::Object(members)
        }
        other => other,
    }
}

// Takes out the members of these names, one by one.
fn remove_members(members: &mut Members<Json>, names: &[&str])
    ensures { members_view members.new.entries ≡ without (map (λ n. n.now) names.now) (members_view members.old.entries) }
{
    for name in names {
        drop(members.remove(*name));
    }
}

// Takes the members of these names out of the metadata.
fn strip_metadata(members: &mut Members<Json>, names: &[&str])
    ensures { members_view members.new.entries ≡ without_in_metadata (map (λ n. n.now) names.now) (members_view members.old.entries) }
{
    if let Ok(whole) = members.replace("metadata", Json::Scalar(Scalar::Bool(false))) {
        drop(members.replace("metadata", without_names(whole, names)));
    }
}

// A metadata value without these members.
fn without_names(value: Json, names: &[&str]) -> Json
    ensures { view result ≡ without_names (map (λ n. n.now) names.now) (view value) }
{
    match value {
        Json::Object(mut members) => {
            remove_members(&mut members, names);
            Json::Object(members)
        }
        other => other,
    }
}

// Takes the managers' entries out of the metadata, where they are there.
fn take_entries(members: &mut Members<Json>) -> Option<Json>
    ensures entries { option_map view result ≡ value_at (codes "metadata" ∷ codes "managedFields" ∷ []) (object (members_view members.old.entries)) }
    ensures rest { members_view members.new.entries ≡ without_in_metadata (codes "managedFields" ∷ []) (members_view members.old.entries) }
{
    let Ok(whole) = members.replace("metadata", Json::Scalar(Scalar::Bool(false))) else {
        return None;
    };
    let (rest, entries) = without_member(whole, "managedFields");
    drop(members.replace("metadata", rest));
    entries
}

// The value without the member of a name, and that member, where the value is an object that has one.
fn without_member(value: Json, name: &str) -> (Json, Option<Json>)
    ensures rest { view result.0 ≡ without_names (name.now ∷ []) (view value) }
    ensures taken { option_map view result.1 ≡ value_at (name.now ∷ []) (view value) }
{
    objects_are_members();
    match value {
        Json::Object(mut members) => {
            let taken = members.remove(name);
            (Json::Object(members), taken)
        }
        other => (other, None),
    }
}
