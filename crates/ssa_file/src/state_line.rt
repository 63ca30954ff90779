//! Whether a text is that of the line of a state, in a bench file of whole states.
ghost use Rattle.std.specs.Prelude.{◌≡◌, IfOk};
ghost use Rattle.ssa_model.specs.definitions.BenchText.{state_json};
ghost use Rattle.ssa_model.specs.definitions.Json.{compact, same_text};
ghost use Rattle.ssa_json.specs.View.{view};

use ssa_json::members::put_member;
use ssa_json::value::Json;
use ssa_lines::written::is_text_of;
use ssa_members::Members;
use std::alloc::{AllocError, Global};

/// Whether the text is that of the line of a state: of the command that made it, and of its object.
pub fn is_line_of(
    alloc: Global,
    command: Json,
    object: Json,
    text: &[u8],
) -> Result<bool, AllocError>
    ensures { IfOk result (λ same. same ≡ same_text (compact (state_json (view command) (view object))) text.now) }
{
    let mut members = Members::new(alloc);
    put_member(alloc, &mut members, "object", object)?;
    put_member(alloc, &mut members, "command", command)?;
    let value = Json::Object(members);
    is_text_of(alloc, &value, text)
}
