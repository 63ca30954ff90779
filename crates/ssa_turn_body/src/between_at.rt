//! The changes that lead a body to what it is with another tree at a path.
ghost use Rattle.std.specs.Prelude.{◌≡◌, true, IfOk};
ghost use Rattle.ssa_path.specs.View.{path_view};
ghost use Rattle.ssa_typed.specs.Over.{AreAlikeTrees};
ghost use Rattle.ssa_typed.specs.Rows.{is_tree};
ghost use Rattle.ssa_turn_body.specs.At.{SayAt, ServeAt};

use crate::steps::BodySteps;
use crate::walk::steps_below;
use ssa_path::element::Elem;
use ssa_typed::node::Node;
use std::alloc::{AllocError, Global};

/// The changes that lead each body with the first tree at a path to what it is with the second
/// there, with their room. Only the two trees are walked.
pub fn steps_at(
    alloc: Global,
    mut path: Vec<Elem>,
    from: &Node,
    to: Node,
) -> Result<BodySteps, AllocError>
    requires from { is_tree from.now ≡ true }
    requires to { is_tree to ≡ true }
    requires alike { AreAlikeTrees from.now to }
    ensures record { IfOk result (λ s. SayAt s (path_view path.items) from.now to) }
    ensures room { IfOk result (λ s. ServeAt s (path_view path.items) from.now to) }
{
    let mut steps = Vec::new(alloc);
    steps_below(alloc, &mut path, from, to, &mut steps)?;
    Ok(BodySteps { steps })
}
