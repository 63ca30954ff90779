//! The names of the members of a record's value, of the objects in it, and of its line.
ghost use Rattle.std.specs.Prelude.{◌≡◌};
ghost use Rattle.ssa_members.specs.Members.{IsRising};
ghost use Rattle.std.specs.List.{list_any};
ghost use Rattle.ssa_json.specs.View.{members_view};
ghost use Rattle.ssa_model.specs.definitions.Json.{same_text};
ghost use Rattle.ssa_told.specs.Shapes.{shapes_of};
ghost use Rattle.ssa_told.specs.Telling.{are_named};

use ssa_json::text::is_same_text;
use ssa_json::value::Json;
use ssa_members::Members;

// The line of a record, its value, or an object in it.
#[derive(Clone, Copy, Debug, PartialEq, Eq)]
pub enum Shape {
    Line,
    Record,
    Change,
    Here,
    Entry,
}

fn is_record_name(name: &str) -> bool
    ensures { result ≡ list_any (λ s. same_text name.now s.name) (shapes_of Shape.Record) }
{
    is_same_text(name, "changed")
        || is_same_text(name, "cut")
        || is_same_text(name, "gone")
        || is_same_text(name, "here")
        || is_same_text(name, "leaves")
        || is_same_text(name, "order")
        || is_same_text(name, "put")
}

fn is_change_name(name: &str) -> bool
    ensures { result ≡ list_any (λ s. same_text name.now s.name) (shapes_of Shape.Change) }
{
    is_same_text(name, "gain")
        || is_same_text(name, "lose")
        || is_same_text(name, "manager")
        || is_same_text(name, "operation")
        || is_same_text(name, "subresource")
        || is_same_text(name, "time")
}

fn is_entry_name(name: &str) -> bool
    ensures { result ≡ list_any (λ s. same_text name.now s.name) (shapes_of Shape.Entry) }
{
    is_same_text(name, "apiVersion")
        || is_same_text(name, "fieldsType")
        || is_same_text(name, "fieldsV1")
        || is_same_text(name, "manager")
        || is_same_text(name, "operation")
        || is_same_text(name, "subresource")
        || is_same_text(name, "time")
}

// Whether the object has a member of this name.
fn is_name_in(shape: Shape, name: &str) -> bool
    ensures { result ≡ list_any (λ s. same_text name.now s.name) (shapes_of shape) }
{
    match shape {
        Shape::Line => is_same_text(name, "command") || is_same_text(name, "record"),
        Shape::Record => is_record_name(name),
        Shape::Change => is_change_name(name),
        Shape::Here => is_same_text(name, "entry") || is_same_text(name, "place"),
        Shape::Entry => is_entry_name(name),
    }
}

// Whether no member has a name that the object has not.
pub fn have_names_of(shape: Shape, members: &Members<Json>) -> bool
    ensures told { result ≡ are_named (shapes_of shape) (members_view members.now.entries) }
    ensures ordered { IsRising members.now.entries }
{
    for (name, _value) in members.entries() {
        if !is_name_in(shape, name.as_str()) {
            return false;
        }
    }
    true
}
