//! What is wrong inside an atomic value, of which a fault tells the atomic value's path alone.

use crate::near::Nearest;
use crate::wrong::{Wrong, shape_words};
use ssa_json::value::Json;
use ssa_schema::kind::{Shape, find_shape};
use std::alloc::{AllocError, Global};

// How deep schemas nest, and so what fits one.
const LEVELS: usize = 32;

// Whether the value is what the shape asks for, whatever is inside it.
fn is_of_sort(value: &Json, shape: &Shape) -> bool {
    match (shape, value) {
        (Shape::Scalar(wanted), Json::Scalar(scalar)) => wanted.has(scalar),
        (Shape::Record(_), Json::Object(_)) => true,
        (Shape::Dict(_), Json::Object(_)) => true,
        (Shape::List(_), Json::List(_)) => true,
        _ => false,
    }
}

// The shape of the member of a name.
fn member_shape<'a>(shape: &'a Shape, name: &str) -> Option<&'a Shape> {
    match shape {
        Shape::Record(fields) => find_shape(fields, name),
        Shape::Dict(inside) => Some(inside),
        Shape::Scalar(_) | Shape::List(_) => None,
    }
}

// The field whose name is the nearest.
fn near_field<'a>(shape: &'a Shape, name: &'a str) -> Option<&'a str> {
    let Shape::Record(fields) = shape else {
        return None;
    };
    let mut nearest = Nearest::to(name);
    for (field, _) in fields.entries() {
        nearest.look_at(field.as_str());
    }
    nearest.found()
}

// What is wrong with a member, where so many levels are left.
#[cycle(seek)]
fn wrong_in_member(
    alloc: Global,
    name: &str,
    member: &Json,
    shape: &Shape,
    levels: usize,
) -> Result<Option<Wrong>, AllocError> {
    let found = match member_shape(shape, name) {
        Some(inside) => wrong_within(alloc, member, inside, levels)?,
        None => Some(Wrong::unknown_field(alloc, near_field(shape, name))?),
    };
    match found {
        Some(wrong) => Ok(Some(wrong.in_member(alloc, name)?)),
        None => Ok(None),
    }
}

// The first thing that is wrong with the items of a list, where so many levels are left.
#[cycle(seek)]
fn wrong_in_items(
    alloc: Global,
    items: &[Json],
    inside: &Shape,
    levels: usize,
) -> Result<Option<Wrong>, AllocError> {
    for (place, item) in items.iter().enumerate() {
        if let Some(wrong) = wrong_within(alloc, item, inside, levels)? {
            return Ok(Some(wrong.in_item(alloc, place)?));
        }
    }
    Ok(None)
}

// The first thing that is wrong with a value of this shape, where so many levels are left.
#[cycle(seek)]
fn wrong_within(
    alloc: Global,
    value: &Json,
    shape: &Shape,
    levels: usize,
) -> Result<Option<Wrong>, AllocError> {
    if levels == 0 {
        return Ok(None);
    }
    if !is_of_sort(value, shape) {
        let wrong = Wrong::other_type(alloc, value, shape_words(shape))?;
        return Ok(Some(wrong));
    }
    if let (Json::List(items), Shape::List(inside)) = (value, shape) {
        return wrong_in_items(alloc, items, inside, levels - 1);
    }
    let Json::Object(members) = value else {
        return Ok(None);
    };
    for (name, member) in members.entries() {
        if let Some(wrong) = wrong_in_member(alloc, name.as_str(), member, shape, levels - 1)? {
            return Ok(Some(wrong));
        }
    }
    Ok(None)
}

/// The first thing that is wrong with a value of this shape.
pub fn wrong_in(alloc: Global, value: &Json, shape: &Shape) -> Result<Option<Wrong>, AllocError> {
    wrong_within(alloc, value, shape, LEVELS)
}
