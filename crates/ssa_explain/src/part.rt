//! The part of a value that an element of a path names.

use ssa_json::value::{Json, Scalar};
use ssa_path::element::Elem;
use ssa_path::keys::SharedKeys;

// Whether the item has these key fields.
fn has_keys(item: &Json, keys: &SharedKeys) -> bool {
    for (name, value) in keys.members() {
        match item.member(name.as_str()) {
            Some(Json::Scalar(found)) => {
                if !found.same(value) {
                    return false;
                }
            }
            _ => return false,
        }
    }
    true
}

// Whether the item is this value.
fn is_value(item: &Json, value: &Scalar) -> bool {
    match item {
        Json::Scalar(found) => found.same(value),
        _ => false,
    }
}

/// The part of a value that an element names.
pub fn part_at<'a>(value: &'a Json, element: &Elem) -> Option<&'a Json> {
    match (value, element) {
        (Json::Object(_), Elem::Field(name)) => value.member(name.as_str()),
        (Json::List(items), Elem::Key(keys)) => items.iter().find(|item| has_keys(item, keys)),
        (Json::List(items), Elem::Value(scalar)) => {
            items.iter().find(|item| is_value(item, scalar))
        }
        _ => None,
    }
}
