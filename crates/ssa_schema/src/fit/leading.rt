//! The keys of a list's items, as far as the items have keys.
ghost use Rattle.std.specs.Prelude.{◌≡◌, [], map, IfOk, option_map};
ghost use Rattle.ssa_model.specs.definitions.Path.{same_element};
ghost use Rattle.ssa_json.specs.View.{view, items_view, members_view, scalar_view};
ghost use Rattle.ssa_schema.specs.Kinds.{scalar_kind_view, names_view};
ghost use Rattle.ssa_schema.specs.Finds.{scalar_of};
ghost use Rattle.ssa_schema.specs.Repeats.{scalars_view, row_view, repeat_from, value_rows, leading_values, key_row, row_in, item_rows, leading_keys};

use crate::fit::item_key::ItemKey;
use crate::fit::repeated::first_repeat;
use crate::key_fields::scalar_member;
use crate::kind::ScalarKind;
use ssa_json::value::{Json, Scalar};
use ssa_members::Members;
use std::alloc::{AllocError, Global};

/// The scalar, where the value is one of the kind.
pub fn scalar_of<'a>(value: &'a Json, wanted: &ScalarKind) -> Option<&'a Scalar>
    ensures { option_map (λ s. scalar_view s.now) result ≡ scalar_of (scalar_kind_view wanted.now) (view value.now) }
{
    match value {
        Json::Scalar(scalar) => {
            if wanted.has(scalar) {
                Some(scalar)
            } else {
                None
            }
        }
        _ => None,
    }
}

// The keys of a set's items, up to the first that is no scalar of the kind.
fn value_keys<'a>(
    alloc: Global,
    items: &'a [Json],
    wanted: &ScalarKind,
) -> Result<Vec<ItemKey<'a>>, AllocError>
    ensures { IfOk result (λ keys. map row_view keys.items ≡ value_rows (scalar_kind_view wanted.now) (items_view items.now)) }
{
    let mut keys = Vec::with_capacity(alloc, items.len())?;
    for item in items {
        let Some(scalar) = scalar_of(item, wanted) else {
            return Ok(keys);
        };
        keys.push(ItemKey::One(scalar))?;
    }
    Ok(keys)
}

// The scalars under these names, where there is one under each.
fn key_scalars<'a>(
    alloc: Global,
    names: &[String],
    members: &'a Members<Json>,
) -> Result<Option<Vec<&'a Scalar>>, AllocError>
    ensures { IfOk result (λ found. option_map (λ ss. scalars_view ss.items) found ≡ key_row (names_view names.now) (members_view members.now.entries)) }
{
    let mut scalars = Vec::with_capacity(alloc, names.len())?;
    for name in names {
        let Some(scalar) = scalar_member(members, name.as_str()) else {
            return Ok(None);
        };
        scalars.push(scalar)?;
    }
    Ok(Some(scalars))
}

// The key of an object with these key fields. One key field takes no memory.
fn object_key<'a>(
    alloc: Global,
    names: &[String],
    members: &'a Members<Json>,
) -> Result<Option<ItemKey<'a>>, AllocError>
    ensures { IfOk result (λ key. option_map row_view key ≡ key_row (names_view names.now) (members_view members.now.entries)) }
{
    if let [name] = names {
        return match scalar_member(members, name.as_str()) {
            Some(scalar) => Ok(Some(ItemKey::One(scalar))),
            None => Ok(None),
        };
    }
    match key_scalars(alloc, names, members)? {
        Some(scalars) => Ok(Some(ItemKey::Many(scalars))),
        None => Ok(None),
    }
}

// The key of an item, where it is an object that has each key field.
fn item_key<'a>(
    alloc: Global,
    names: &[String],
    item: &'a Json,
) -> Result<Option<ItemKey<'a>>, AllocError>
    ensures { IfOk result (λ key. option_map row_view key ≡ row_in (names_view names.now) (view item.now)) }
{
    match item {
        Json::Object(members) => object_key(alloc, names, members),
        _ => Ok(None),
    }
}

// The keys of a map list's items, up to the first that has none.
fn item_keys<'a>(
    alloc: Global,
    items: &'a [Json],
    names: &[String],
) -> Result<Vec<ItemKey<'a>>, AllocError>
    ensures { IfOk result (λ keys. map row_view keys.items ≡ item_rows (names_view names.now) (items_view items.now)) }
{
    let mut keys = Vec::with_capacity(alloc, items.len())?;
    for item in items {
        let Some(key) = item_key(alloc, names, item)? else {
            return Ok(keys);
        };
        keys.push(key)?;
    }
    Ok(keys)
}

/// The place of the first item of a set that equals an earlier one, if all before it are scalars of
/// the kind.
pub fn repeated_value(
    alloc: Global,
    items: &[Json],
    wanted: &ScalarKind,
) -> Result<Option<usize>, AllocError>
    ensures { IfOk result (λ place. place ≡ repeat_from same_element 0 [] (leading_values (scalar_kind_view wanted.now) (items_view items.now))) }
{
    let keys = value_keys(alloc, items, wanted)?;
    first_repeat(alloc, &keys)
}

/// The place of the first item of a map list whose key fields an earlier one has, if all before it
/// have key fields.
pub fn repeated_item(
    alloc: Global,
    items: &[Json],
    names: &[String],
) -> Result<Option<usize>, AllocError>
    ensures { IfOk result (λ place. place ≡ repeat_from same_element 0 [] (leading_keys (names_view names.now) (items_view items.now))) }
{
    let keys = item_keys(alloc, items, names)?;
    first_repeat(alloc, &keys)
}
