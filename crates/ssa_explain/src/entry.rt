//! Which entry of an object file's `managedFields` is refused.

use crate::way::{push_members, push_place};
use arrayvec::ArrayVec;
use ssa_json::value::Json;
use ssa_merge::entry_fault::EntryFault;
use ssa_merge::entry_read::read_entry;
use ssa_merge::managers::{Entry, MOST_MANAGERS};
use ssa_object::body_value::file_parts;
use ssa_schema::schema::Schema;
use ssa_typed::body::Body;
use ssa_typed::fault::TypedFault;
use std::alloc::{AllocError, Global};

// How many of the entries are read before one is refused.
fn count_read(
    alloc: Global,
    items: &[Json],
    body: &Body,
    version: &str,
) -> Result<usize, AllocError> {
    let mut entries: ArrayVec<Entry, MOST_MANAGERS, Global> = ArrayVec::new_in(alloc);
    for item in items {
        if entries.is_full() {
            break;
        }
        match read_entry(alloc, item, entries.as_slice(), body, version) {
            Ok(entry) => entries.push(entry),
            Err(EntryFault::OutOfMemory) => return Err(AllocError),
            Err(_) => break,
        }
    }
    Ok(entries.len())
}

// The version that an object names, or none.
fn version_of(alloc: Global, object: &Json) -> Result<String, AllocError> {
    match object.member("apiVersion") {
        Some(version) => String::from_str(alloc, version.as_text().unwrap_or("")),
        None => Ok(String::new(alloc)),
    }
}

/// Appends the way to the first entry that is refused of an object file under a schema: to all of them where they are no
/// list.
pub fn push_refused_entry(
    alloc: Global,
    text: &mut Vec<u8>,
    schema: &Schema,
    object: Json,
) -> Result<(), AllocError> {
    let version = version_of(alloc, &object)?;
    let (value, entries) = file_parts(object);
    push_members(text, &["metadata", "managedFields"])?;
    let Some(Json::List(items)) = entries else {
        return Ok(());
    };
    match Body::from_json(alloc, schema, value) {
        Ok(body) => {
            let place = count_read(alloc, &items, &body, version.as_str())?;
            push_place(alloc, text, place)
        }
        Err(TypedFault::OutOfMemory) => Err(AllocError),
        Err(_) => Ok(()),
    }
}
