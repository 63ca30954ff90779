//! What is wrong with the items of a set or of a map list, of which a fault tells the list's path alone.

use crate::wrong::{Wrong, scalar_words};
use ssa_json::value::Json;
use ssa_schema::kind::{Kind, ScalarKind, find_field};
use std::alloc::{AllocError, Global};

// Whether the value is a scalar of the kind.
fn is_of(value: &Json, wanted: ScalarKind) -> bool {
    match value {
        Json::Scalar(scalar) => wanted.has(scalar),
        _ => false,
    }
}

/// The first item of a set that is of another type.
pub fn wrong_value(
    alloc: Global,
    items: &[Json],
    wanted: ScalarKind,
) -> Result<Option<Wrong>, AllocError> {
    for (place, item) in items.iter().enumerate() {
        if !is_of(item, wanted) {
            let wrong = Wrong::other_type(alloc, item, scalar_words(wanted))?;
            return Ok(Some(wrong.in_item(alloc, place)?));
        }
    }
    Ok(None)
}

// The kind of a key field of the items of a map list.
fn key_kind(list: &Kind, key: &str) -> Option<ScalarKind> {
    let Kind::ItemsOf { fields, .. } = list else {
        return None;
    };
    match find_field(fields, key) {
        Some(Kind::Scalar(wanted)) => Some(*wanted),
        _ => None,
    }
}

// What is wrong with a key field of an item.
fn wrong_key(
    alloc: Global,
    item: &Json,
    list: &Kind,
    key: &str,
) -> Result<Option<Wrong>, AllocError> {
    let Some(value) = item.member(key) else {
        let wrong = Wrong::missing_key(alloc)?;
        return Ok(Some(wrong.in_member(alloc, key)?));
    };
    match key_kind(list, key) {
        Some(wanted) if !is_of(value, wanted) => {
            let wrong = Wrong::other_type(alloc, value, scalar_words(wanted))?;
            Ok(Some(wrong.in_member(alloc, key)?))
        }
        _ => Ok(None),
    }
}

// What is wrong with an item: it is no object, or the first of its key fields is missing or of another type.
fn wrong_keys(
    alloc: Global,
    item: &Json,
    list: &Kind,
    keys: &[String],
) -> Result<Option<Wrong>, AllocError> {
    if !item.is_object() {
        return Ok(Some(Wrong::other_type(alloc, item, "an object")?));
    }
    for key in keys {
        if let Some(wrong) = wrong_key(alloc, item, list, key.as_str())? {
            return Ok(Some(wrong));
        }
    }
    Ok(None)
}

/// The first item of a map list of this kind that is no object, or has not these key fields as they are wanted.
pub fn wrong_item(
    alloc: Global,
    items: &[Json],
    list: &Kind,
    keys: &[String],
) -> Result<Option<Wrong>, AllocError> {
    for (place, item) in items.iter().enumerate() {
        if let Some(wrong) = wrong_keys(alloc, item, list, keys)? {
            return Ok(Some(wrong.in_item(alloc, place)?));
        }
    }
    Ok(None)
}
