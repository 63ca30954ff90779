//! The key fields of the items of map lists.
ghost use Rattle.std.specs.Prelude.{◌≡◌, IfOk, option_map};
ghost use Rattle.ssa_model.specs.definitions.Json.{member_of};
ghost use Rattle.ssa_model.specs.definitions.Kind.{key_scalars};
ghost use Rattle.ssa_json.specs.View.{members_view, scalar_view};
ghost use Rattle.ssa_path.specs.Keys as keys;
ghost use Rattle.ssa_schema.specs.Finds.{scalar_in};
ghost use Rattle.ssa_schema.specs.Kinds.{names_view};

use ssa_json::members::find_member;
use ssa_json::value::{Json, Scalar};
use ssa_members::{Members, SmallText};
use std::alloc::{AllocError, Global};

/// The scalar under a name, where there is one.
pub fn scalar_member<'a>(members: &'a Members<Json>, name: &str) -> Option<&'a Scalar>
    ensures { option_map (λ s. scalar_view s.now) result ≡ scalar_in (member_of name.now (members_view members.now.entries)) }
{
    match find_member(members, name) {
        Some(Json::Scalar(scalar)) => Some(scalar),
        Some(Json::List(_)) => None,
        Some(Json::Object(_)) => None,
        None => None,
    }
}

/// The scalars under the names of a map list's keys, each with its name: the key fields of an item
/// that has them all.
pub fn key_members(
    alloc: Global,
    names: &[String],
    members: &Members<Json>,
) -> Result<Vec<(SmallText, Scalar)>, AllocError>
    ensures { IfOk result (λ ks. keys.members_view ks.items ≡ key_scalars (names_view names.now) (members_view members.now.entries)) }
{
    let mut found = Vec::with_capacity(alloc, names.len())?;
    for name in names {
        if let Some(scalar) = scalar_member(members, name.as_str()) {
            let own = SmallText::from_str(alloc, name.as_str())?;
            let scalar = scalar.copy(alloc)?;
            found.push((own, scalar))?;
        }
    }
    Ok(found)
}
