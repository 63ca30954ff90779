//! What a value is made of, where its sort is known.
ghost use Rattle.std.specs.Prelude.{◌≡◌};
ghost use Rattle.ssa_model.specs.definitions.Json as values;
ghost use Rattle.ssa_json.specs.View.{view, items_view, members_view, scalar_view};
ghost use Rattle.ssa_model.specs.laws.Faultless.{IsScalar};
ghost use Rattle.ssa_typed.specs.Flats.{IsList, IsObject};

use ssa_json::value::{Json, Scalar};
use ssa_members::Members;

/// The scalar that a value is.
#[inline(always)]
pub fn into_scalar(value: Json) -> Scalar
    requires { IsScalar (view value) }
    ensures { view value ≡ values.scalar (scalar_view result) }
{
    match value {
        Json::Scalar(scalar) => scalar,
        _ => unreachable!(),
    }
}

/// The members of an object.
pub fn into_members(value: Json) -> Members<Json>
    requires { IsObject (view value) }
    ensures { view value ≡ values.object (members_view result.entries) }
{
    match value {
        Json::Object(members) => members,
        _ => unreachable!(),
    }
}

/// The items of a list.
pub fn into_items(value: Json) -> Vec<Json>
    requires { IsList (view value) }
    ensures { view value ≡ values.list (items_view result.items) }
{
    match value {
        Json::List(items) => items,
        _ => unreachable!(),
    }
}
