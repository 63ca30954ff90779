//! Whether a text is that of a value.
ghost use Rattle.std.specs.Prelude.{◌≡◌, IfOk};
ghost use Rattle.ssa_model.specs.definitions.Json.{compact, same_text};
ghost use Rattle.ssa_json.specs.View.{view};

use crate::loading::is_same_bytes;
use ssa_json::value::Json;
use std::alloc::{AllocError, Global};

/// Whether the text is the compact text of the value.
pub fn is_text_of(alloc: Global, value: &Json, text: &[u8]) -> Result<bool, AllocError>
    ensures { IfOk result (λ same. same ≡ same_text (compact (view value.now)) text.now) }
{
    let written = value.to_text(alloc)?;
    Ok(is_same_bytes(&written, text))
}
