//! The way to a part of a value, as people write it: `.spec.ports[name="a"].port`.

use ssa_json::value::{Json, Scalar};
use ssa_json::write::push_quoted;
use ssa_path::element::Elem;
use ssa_path::keys::SharedKeys;
use std::alloc::{AllocError, Global};

// Whether a name is told as it is: it has letters, digits, `-`, `_` and `/` alone, and one at least.
fn is_plain(name: &str) -> bool {
    for byte in name.as_bytes() {
        if !byte.is_ascii_alphanumeric() && *byte != b'-' && *byte != b'_' && *byte != b'/' {
            return false;
        }
    }
    !name.is_empty()
}

/// Appends a value as compact JSON.
pub fn push_value(text: &mut Vec<u8>, value: &Json) -> Result<(), AllocError> {
    value.push_text(text)
}

// Appends a scalar as compact JSON.
fn push_scalar(alloc: Global, text: &mut Vec<u8>, scalar: &Scalar) -> Result<(), AllocError> {
    push_value(text, &Json::Scalar(scalar.copy(alloc)?))
}

/// Appends a name as it is, or quoted: `name`, or `"a name"`.
pub fn push_name(text: &mut Vec<u8>, name: &str) -> Result<(), AllocError> {
    if is_plain(name) {
        return text.extend_from_slice(name.as_bytes());
    }
    push_quoted(text, name)
}

/// Appends the step to a member: `.name`, or `["a name"]`.
pub fn push_member(text: &mut Vec<u8>, name: &str) -> Result<(), AllocError> {
    if is_plain(name) {
        text.push(b'.')?;
        return text.extend_from_slice(name.as_bytes());
    }
    text.push(b'[')?;
    push_quoted(text, name)?;
    text.push(b']')?;
    Ok(())
}

/// Appends the step to an item by its place: `[0]` is the first.
pub fn push_place(alloc: Global, text: &mut Vec<u8>, place: usize) -> Result<(), AllocError> {
    let digits = format!(in alloc; "[{place}]")?;
    text.extend_from_slice(digits.as_bytes())
}

/// Appends the steps to members inside one another.
pub fn push_members(text: &mut Vec<u8>, names: &[&str]) -> Result<(), AllocError> {
    for name in names {
        push_member(text, name)?;
    }
    Ok(())
}

// Appends the step to an item by its key fields: `[name="a",port=80]`.
fn push_keys(alloc: Global, text: &mut Vec<u8>, keys: &SharedKeys) -> Result<(), AllocError> {
    let mut before = b'[';
    for (name, value) in keys.members() {
        text.push(before)?;
        text.extend_from_slice(name.as_bytes())?;
        text.push(b'=')?;
        push_scalar(alloc, text, value)?;
        before = b',';
    }
    text.push(b']')?;
    Ok(())
}

/// Appends the step that an element of a path is; the item of a set is `[="a"]`.
pub fn push_element(alloc: Global, text: &mut Vec<u8>, element: &Elem) -> Result<(), AllocError> {
    match element {
        Elem::Field(name) => push_member(text, name.as_str()),
        Elem::Key(keys) => push_keys(alloc, text, keys),
        Elem::Value(value) => {
            text.extend_from_slice(b"[=")?;
            push_scalar(alloc, text, value)?;
            text.push(b']')?;
            Ok(())
        }
    }
}
