//! States and refusals as texts.

use crate::sample::VERSION;
use crate::stop::Stop;
use ssa_merge::manager::ManagerKey;
use ssa_merge::plan::Refusal;
use ssa_merge::state::State;
use ssa_path::field_set::FieldSet;
use ssa_typed::body::Body;
use std::alloc::{AllocError, Global};

/// The text of the value that a body is of.
pub fn body_text(alloc: Global, body: &Body) -> Result<String, AllocError> {
    body.to_json(alloc)?.to_string(alloc)
}

/// The text of a state's body, and that of the entries of its managers.
pub fn state_text(alloc: Global, state: &State) -> Result<String, AllocError> {
    let body = body_text(alloc, &state.body)?;
    let entries = state.managers.to_entries(alloc, VERSION)?;
    let entries = entries.to_string(alloc)?;
    [body.as_str(), " ", entries.as_str()].concat(alloc)
}

// Adds a manager, its operation, and its fields.
fn push_clash(
    alloc: Global,
    text: &mut String,
    clash: &(ManagerKey, FieldSet),
) -> Result<(), AllocError> {
    let fields = clash.1.to_fields_v1(alloc)?.to_string(alloc)?;
    let key = &clash.0;
    push_word(text, key.name.as_str())?;
    push_word(text, key.operation.text())?;
    push_word(text, fields.as_str())
}

// Adds a word behind a blank.
fn push_word(text: &mut String, word: &str) -> Result<(), AllocError> {
    text.push_str(" ")?;
    text.push_str(word)?;
    Ok(())
}

fn conflict_text(alloc: Global, clashes: &[(ManagerKey, FieldSet)]) -> Result<String, AllocError> {
    let mut text = String::from_str(alloc, "Conflict")?;
    for clash in clashes {
        push_clash(alloc, &mut text, clash)?;
    }
    Ok(text)
}

/// A refusal, with each manager of a conflict and its fields.
pub fn refusal_text(alloc: Global, refusal: &Refusal) -> Result<String, Stop> {
    match refusal {
        Refusal::Conflict(clashes) => Ok(conflict_text(alloc, clashes)?),
        Refusal::TooManyPaths => Ok(String::from_str(alloc, "TooManyPaths")?),
        Refusal::TooManyManagers => Ok(String::from_str(alloc, "TooManyManagers")?),
        Refusal::OutOfMemory => Err(Stop::NoMemory),
    }
}
