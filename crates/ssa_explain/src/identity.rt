//! Which part of an object's identity is missing, or differs from another object's.

use crate::way::{push_members, push_value};
use ssa_json::value::Json;
use std::alloc::AllocError;

// The parts of an identity, in the order in which they are looked at.
const PARTS: [&[&str]; 4] = [
    &["apiVersion"],
    &["kind"],
    &["metadata", "name"],
    &["metadata", "namespace"],
];

// The member of a member, and so on.
fn part_of<'a>(object: &'a Json, names: &[&str]) -> Option<&'a Json> {
    let mut here = object;
    for name in names {
        let Some(member) = here.member(name) else {
            return None;
        };
        here = member;
    }
    Some(here)
}

// Whether the part can be an identity's: a text that isn't empty, or a namespace that is missing.
fn is_part(part: Option<&Json>, names: &[&str]) -> bool {
    match part {
        Some(value) => match value.as_text() {
            Some(text) => !text.is_empty(),
            None => false,
        },
        None => names.last() == Some(&"namespace"),
    }
}

// Whether both are one value, or missing.
fn are_same(part: Option<&Json>, other: Option<&Json>) -> bool {
    match (part, other) {
        (Some(value), Some(other)) => value.same(other),
        (None, None) => true,
        _ => false,
    }
}

// Appends a part that may be missing.
fn push_part(text: &mut Vec<u8>, part: Option<&Json>) -> Result<(), AllocError> {
    match part {
        Some(value) => push_value(text, value),
        None => text.extend_from_slice(b"missing"),
    }
}

/// Appends which part of the object's identity is missing, empty or no text.
pub fn push_missing_part(text: &mut Vec<u8>, object: &Json) -> Result<(), AllocError> {
    for names in PARTS {
        let part = part_of(object, names);
        if !is_part(part, names) {
            push_members(text, names)?;
            text.extend_from_slice(b" is ")?;
            return push_part(text, part);
        }
    }
    Ok(())
}

/// Appends which part of the object's identity is another than that of the object that is held.
pub fn push_other_part(text: &mut Vec<u8>, object: &Json, held: &Json) -> Result<(), AllocError> {
    for names in PARTS {
        let (part, other) = (part_of(object, names), part_of(held, names));
        if !are_same(part, other) {
            push_members(text, names)?;
            text.extend_from_slice(b" is ")?;
            push_part(text, part)?;
            text.extend_from_slice(b", in the bench ")?;
            return push_part(text, other);
        }
    }
    Ok(())
}
