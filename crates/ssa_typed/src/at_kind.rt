//! The tree of a value of a kind inside a schema's.
ghost use Rattle.std.specs.Prelude.{◌≡◌, true, IfOk};
ghost use Rattle.ssa_model.specs.definitions.Lawful.{is_keyed};
ghost use Rattle.ssa_json.specs.View.{view};
ghost use Rattle.ssa_schema.specs.Kinds.{kind_view};
ghost use Rattle.ssa_typed.specs.Reads.{ReadsTree};

use crate::node::Node;
use crate::tested::{Tested, tested_tree};
use ssa_json::value::Json;
use ssa_schema::kind::Kind;
use std::alloc::{AllocError, Global};

/// The tree of a value, where it fits the kind. The value's texts and atomic values are moved into it.
pub fn tree_at(alloc: Global, kind: &Kind, value: Json) -> Result<Option<Node>, AllocError>
    requires { is_keyed (kind_view kind.now) ≡ true }
    ensures { IfOk result (λ o. ReadsTree o (kind_view kind.now) (view value)) }
{
    match tested_tree(alloc, kind, value)? {
        Tested::Fits(tree) => Ok(Some(tree)),
        Tested::Breaks(_) => Ok(None),
    }
}
