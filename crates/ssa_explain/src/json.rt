//! Where bytes are no JSON, or have a part that is not read.

use crate::way::{push_member, push_place};
use serde_json::{Map, Value};
use std::alloc::{AllocError, Global};

// The steps to the first null, or number that is no whole one of 64 bits, the last step first.
#[cycle(seek)]
fn steps_to_unread(alloc: Global, value: &Value) -> Result<Option<Vec<Vec<u8>>>, AllocError> {
    match value {
        Value::Null => Ok(Some(Vec::new(alloc))),
        Value::Number(number) => match number.as_i64() {
            Some(_) => Ok(None),
            None => Ok(Some(Vec::new(alloc))),
        },
        Value::Array(items) => steps_in_items(alloc, items),
        Value::Object(members) => steps_in_members(alloc, members),
        Value::Bool(_) | Value::String(_) => Ok(None),
    }
}

#[cycle(seek)]
fn steps_in_items(alloc: Global, items: &[Value]) -> Result<Option<Vec<Vec<u8>>>, AllocError> {
    for (place, item) in items.iter().enumerate() {
        if let Some(mut steps) = steps_to_unread(alloc, item)? {
            let mut step = Vec::new(alloc);
            push_place(alloc, &mut step, place)?;
            steps.push(step)?;
            return Ok(Some(steps));
        }
    }
    Ok(None)
}

#[cycle(seek)]
fn steps_in_members(
    alloc: Global,
    members: &Map<String, Value>,
) -> Result<Option<Vec<Vec<u8>>>, AllocError> {
    for (name, member) in members.iter() {
        if let Some(mut steps) = steps_to_unread(alloc, member)? {
            let mut step = Vec::new(alloc);
            push_member(&mut step, name.as_str())?;
            steps.push(step)?;
            return Ok(Some(steps));
        }
    }
    Ok(None)
}

// Appends the steps, of which the last one stands first; none is the whole value.
fn push_steps(text: &mut Vec<u8>, steps: &[Vec<u8>]) -> Result<(), AllocError> {
    if steps.is_empty() {
        return text.extend_from_slice(b"the root");
    }
    for step in steps.iter().rev() {
        text.extend_from_slice(step)?;
    }
    Ok(())
}

/// Appends where bytes are no JSON, by line and column, or the way to the first null or number that is not read, with
/// members in the order of their names' bytes. Nothing is appended where they have neither.
pub fn push_unread(alloc: Global, text: &mut Vec<u8>, bytes: &[u8]) -> Result<(), AllocError> {
    match Value::from_slice(alloc, bytes) {
        Ok(value) => {
            if let Some(steps) = steps_to_unread(alloc, &value)? {
                text.extend_from_slice(b"at ")?;
                push_steps(text, &steps)?;
            }
            Ok(())
        }
        Err(fault) if fault.is_memory() => Err(AllocError),
        Err(fault) => {
            let (line, column) = (fault.line(), fault.column());
            let told = format!(in alloc; "no JSON at line {line}, column {column}")?;
            text.extend_from_slice(told.as_bytes())
        }
    }
}
