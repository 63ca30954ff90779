//! The texts of the elements that lead down a value, for the path of a fault.
ghost use Rattle.std.specs.Prelude.{◌≡◌, IfOk, string_bytes};
ghost use Rattle.ssa_model.specs.definitions.Path.{element_text, field, value};
ghost use Rattle.ssa_model.specs.definitions.Kind.{item_key};
ghost use Rattle.ssa_json.specs.View.{members_view, scalar_view};
ghost use Rattle.ssa_schema.specs.Kinds.{names_view};

use crate::key_fields::key_members;
use ssa_json::value::{Json, Scalar};
use ssa_members::{Members, SmallText};
use ssa_path::element::Elem;
use ssa_path::element_text;
use std::alloc::{AllocError, Global};

/// The text of a field, as `f:image`.
pub fn field_name(alloc: Global, name: &str) -> Result<String, AllocError>
    ensures { IfOk result (λ text. string_bytes text ≡ element_text (field name.now)) }
{
    Elem::Field(SmallText::from_str(alloc, name)?).name(alloc)
}

/// The text of an item of a set, as `v:"10.0.0.1"`.
pub fn value_name(alloc: Global, scalar: &Scalar) -> Result<String, AllocError>
    ensures { IfOk result (λ text. string_bytes text ≡ element_text (value (scalar_view scalar.now))) }
{
    Elem::Value(scalar.copy(alloc)?).name(alloc)
}

/// The text of an item of a map list, as `k:{"name":"web"}`.
pub fn key_name(
    alloc: Global,
    keys: &[String],
    members: &Members<Json>,
) -> Result<String, AllocError>
    ensures { IfOk result (λ text. string_bytes text ≡ element_text (item_key (names_view keys.now) (members_view members.now.entries))) }
{
    let fields = key_members(alloc, keys, members)?;
    element_text::key_name(alloc, &fields)
}
