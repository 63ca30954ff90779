//! What is wrong with the keys of a map list's items.
ghost use Rattle.std.specs.Prelude.{option_map};
ghost use Rattle.ssa_model.specs.definitions.Kind.{key_field_fault, key_faults};
ghost use Rattle.ssa_json.specs.View.{view, members_view};
ghost use Rattle.ssa_schema.specs.Kinds.{kind_view, fields_view, names_view};
ghost use Rattle.ssa_schema.specs.Finds.{Breaks};

use crate::fit::found::Misfit;
use crate::fit::shape_misfit::scalar_misfit;
use crate::kind::{Kind, find_field};
use ssa_json::members::find_member;
use ssa_json::value::Json;
use ssa_members::Members;

// What is wrong with a key.
fn key_misfit(value: Option<&Json>, kind: Option<&Kind>) -> Option<Misfit>
    ensures { Breaks result (key_field_fault (option_map (λ k. kind_view k.now) kind.entry) (option_map (λ v. view v.now) value.entry)) }
{
    match (kind, value) {
        (Some(Kind::Scalar(wanted)), Some(Json::Scalar(scalar))) => scalar_misfit(scalar, wanted),
        (_, Some(_)) => Some(Misfit::WrongType),
        (_, None) => Some(Misfit::MissingKey),
    }
}

/// The first thing that is wrong with an item's keys: one is missing, or no scalar of its field's
/// kind.
pub fn keys_misfit(
    members: &Members<Json>,
    keys: &[String],
    fields: &Members<Kind>,
) -> Option<Misfit>
    ensures { Breaks result (key_faults (names_view keys.now) (fields_view fields.now.entries) (members_view members.now.entries)) }
{
    for name in keys {
        let value = find_member(members, name.as_str());
        if let Some(misfit) = key_misfit(value, find_field(fields, name.as_str())) {
            return Some(misfit);
        }
    }
    None
}
