//! The fields of a conflict with their two values, and the ways out.

use crate::part::part_at;
use crate::way::{push_element, push_value};
use ssa_json::value::Json;
use ssa_merge::manager::ManagerKey;
use ssa_path::field_set::FieldSet;
use ssa_path::path::Path;
use std::alloc::{AllocError, Global};

// How many fields of a conflict are told, each with its values.
const MOST_FIELDS: usize = 20;

// What kubectl tells of a conflict too.
const WAYS_OUT: &[u8] =
    b"ssabench: apply again with --force-conflicts to take these fields over, without them to leave them to their managers, or with their live values to own them together\n";

// Appends the value at a path of an object.
fn push_value_at(text: &mut Vec<u8>, object: &Json, path: &Path) -> Result<(), AllocError> {
    let mut here = object;
    for element in path.elements() {
        let Some(part) = part_at(here, element) else {
            return text.extend_from_slice(b"missing");
        };
        here = part;
    }
    push_value(text, here)
}

// Appends the line of a field: who owns it, where it is, and both values.
fn push_field(
    alloc: Global,
    text: &mut Vec<u8>,
    manager: &ManagerKey,
    path: &Path,
    live: &Json,
    configured: &Json,
) -> Result<(), AllocError> {
    text.extend_from_slice(b"ssabench: ")?;
    for element in path.elements() {
        push_element(alloc, text, element)?;
    }
    text.extend_from_slice(b" is ")?;
    push_value_at(text, live, path)?;
    text.extend_from_slice(b" by ")?;
    text.extend_from_slice(manager.name.as_str().as_bytes())?;
    text.extend_from_slice(b" (")?;
    text.extend_from_slice(manager.operation.text().as_bytes())?;
    if let Some(subresource) = manager.part.subresource() {
        text.extend_from_slice(b", subresource ")?;
        text.extend_from_slice(subresource.as_bytes())?;
    }
    text.extend_from_slice(b"), configured as ")?;
    push_value_at(text, configured, path)?;
    text.push(b'\n')?;
    Ok(())
}

// Appends the lines of one manager's first fields, as many as may be told.
fn push_clash(
    alloc: Global,
    text: &mut Vec<u8>,
    clash: &(ManagerKey, FieldSet),
    most: usize,
    live: &Json,
    configured: &Json,
) -> Result<(), AllocError> {
    let paths = clash.1.paths(alloc)?;
    for path in paths.iter().take(most) {
        push_field(alloc, text, &clash.0, path, live, configured)?;
    }
    Ok(())
}

/// Appends lines about a conflict: of each field, at most 20 of them, the live value, the manager and the configured
/// value; how many fields are not told; and the ways out.
pub fn push_conflict(
    alloc: Global,
    text: &mut Vec<u8>,
    clashes: &[(ManagerKey, FieldSet)],
    live: &Json,
    configured: &Json,
) -> Result<(), AllocError> {
    let mut fields: usize = 0;
    for clash in clashes {
        let most = MOST_FIELDS.saturating_sub(fields);
        push_clash(alloc, text, clash, most, live, configured)?;
        fields = fields.saturating_add(clash.1.len());
    }
    let untold = fields.saturating_sub(MOST_FIELDS);
    if untold > 0 {
        let line = format!(in alloc; "ssabench: and {untold} fields more\n")?;
        text.extend_from_slice(line.as_bytes())?;
    }
    text.extend_from_slice(WAYS_OUT)
}
