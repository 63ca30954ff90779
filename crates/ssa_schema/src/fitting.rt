//! Whether a value fits a kind.
ghost use Rattle.std.specs.Prelude.{◌≡◌, [], IfOk};
ghost use Rattle.ssa_model.specs.definitions.Kind.{faults};
ghost use Rattle.ssa_model.specs.definitions.Operations.{is_none};
ghost use Rattle.ssa_json.specs.View.{view};
ghost use Rattle.ssa_schema.specs.Kinds.{kind_view};

use crate::fit::faults::value_fault;
use crate::kind::Kind;
use ssa_json::value::Json;
use std::alloc::{AllocError, Global};

/// Whether a value has no fault under a kind, which may be one inside a schema's.
pub fn fits(alloc: Global, value: &Json, kind: &Kind) -> Result<bool, AllocError>
    ensures { IfOk result (λ b. b ≡ is_none (faults (kind_view kind.now) (view value.now) [])) }
{
    let found = value_fault(alloc, value, kind)?;
    Ok(found.is_none())
}
