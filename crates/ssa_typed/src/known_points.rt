//! Whether a set that is there already has the points of a tree, told by a walk that copies nothing.
ghost use Rattle.std.specs.Prelude.{◌≡◌, true, IfOk};
ghost use Rattle.ssa_typed.specs.Points.{IsCollected, IsPointTrie};
ghost use Rattle.ssa_typed.specs.Rows.{is_tree};
ghost use Rattle.ssa_typed.specs.declared.points.Collected.TheVariants.{Points};

use crate::node::Node;
use crate::points::Collected;
use ssa_path::element::Elem;
use ssa_path::trie::Trie;
use std::alloc::{AllocError, Global};

// Whether these tries are the points below a node. Mostly it is a leaf, and there are none.
#[cycle(points)]
#[inline(always)]
fn are_points_held(alloc: Global, node: &Node, held: &[(Elem, Trie)]) -> Result<bool, AllocError>
    requires { is_tree node.now ≡ true }
    ensures { IfOk result (λ b. b ≡ true → IsCollected Points node.now held.now) }
{
    if held.is_empty() {
        return Ok(node.children().is_empty());
    }
    are_points_below(alloc, node, held)
}

// Whether these tries are the points below a node, each child's behind the child's element. Where
// the numbers of children differ, none are put in order.
#[cycle(points)]
fn are_points_below(alloc: Global, node: &Node, held: &[(Elem, Trie)]) -> Result<bool, AllocError>
    requires { is_tree node.now ≡ true }
    ensures { IfOk result (λ b. b ≡ true → IsCollected Points node.now held.now) }
{
    if node.children().len() != held.len() {
        return Ok(false);
    }
    // As many are put in order, which the contract of `ordered` does not tell.
    let children = &node.ordered(alloc)?;
    if children.len() != held.len() {
        return Ok(false);
    }
    let in_dict = node.is_dict();
    for (i, (element, trie)) in held.iter().enumerate() {
        let child = children.at(i);
        let here = Collected::Points.has_place(child, in_dict);
        if !child.0.is_same(element) || trie.here != here {
            return Ok(false);
        }
        if !are_points_held(alloc, &child.1, &trie.below)? || !trie.has_paths() {
            return Ok(false);
        }
    }
    Ok(true)
}

impl Node {
    /// Whether the set has the points of the tree and nothing else, as [`points`](Node::points) would
    /// give them. Of a set of which it answers `false` nothing is promised.
    ///
    /// No element is copied: memory is taken for references to the items of a list alone, and
    /// none where the set has another number of children there.
    pub fn has_points(&self, alloc: Global, set: &Trie) -> Result<bool, AllocError>
        requires { is_tree self.now ≡ true }
        ensures { IfOk result (λ b. b ≡ true → IsPointTrie self.now set.now) }
    {
        if set.here {
            return Ok(false);
        }
        let same = are_points_held(alloc, self, &set.below)?;
        Ok(same)
    }
}
