//! The key fields of the items of map lists.
ghost use Rattle.std.specs.Prelude.{◌≡◌, true, IfOk};
ghost use Rattle.ssa_model.specs.definitions.Kind.{key_scalars};
ghost use Rattle.ssa_json.specs.View.{members_view};
ghost use Rattle.ssa_schema.specs.Kinds.{fields_view, names_view};
ghost use Rattle.ssa_model.specs.definitions.Lawful.{are_key_names};
ghost use Rattle.ssa_model.specs.laws.Faultless.{KeysFit};

use ssa_json::value::Json;
use ssa_members::Members;
use ssa_path::keys::{Keys, SharedKeys};
use ssa_schema::key_fields::key_members;
use ssa_schema::kind::Kind;
use std::alloc::{AllocError, Global};

/// The key fields of an item that has them.
pub fn keys_of(
    alloc: Global,
    names: &[String],
    fields: &Members<Kind>,
    members: &Members<Json>,
) -> Result<SharedKeys, AllocError>
    requires names { are_key_names (names_view names.now) ≡ true }
    requires fits { KeysFit (names_view names.now) (fields_view fields.now.entries) (members_view members.now.entries) }
    ensures { IfOk result (λ k. k ≡ key_scalars (names_view names.now) (members_view members.now.entries)) }
{
    let _fields = fields;
    match Keys::new(key_members(alloc, names, members)?) {
        Some(keys) => SharedKeys::of(alloc, keys),
        None => unreachable!(),
    }
}
