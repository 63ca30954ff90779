//! A tree without places, each of which goes with all that is below it. What stays is moved, with no copies, and a child that
//! has nothing of what goes is not looked into.
ghost use Rattle.std.specs.Prelude.{◌≡◌, true, IfOk};
ghost use Rattle.ssa_path.specs.Children.{elements, rises};
ghost use Rattle.ssa_path.specs.Trie.{are_filled_tries, is_trie, paths, paths_below};
ghost use Rattle.ssa_typed.specs.Rows.{are_apart, are_trees, below, is_tree};
ghost use Rattle.ssa_typed.specs.Without.{AreWithout, GoWhole, GoesWhole, IsChildWithout, IsWithout};

use crate::node::Node;
use ssa_path::children::find_child;
use ssa_path::element::Elem;
use ssa_path::trie::Trie;
use std::alloc::{AllocError, Global};

// The children without the places that go, in their order.
#[cycle(without)]
fn children_without(
    alloc: Global,
    children: Vec<(Elem, Node)>,
    gone: &[(Elem, Trie)],
) -> Result<Vec<(Elem, Node)>, AllocError>
    requires trees { are_trees children.items ≡ true }
    requires apart { are_apart (elements children.items) ≡ true }
    requires rise { rises (elements gone.now) ≡ true }
    requires tries { are_filled_tries gone.now ≡ true }
    requires whole { GoWhole children.items (paths_below gone.now) }
    ensures { IfOk result (λ v. AreWithout (paths_below gone.now) children.items v.items) }
{
    let mut kept = Vec::with_capacity(alloc, children.len())?;
    for child in children {
        match find_child(gone, &child.0) {
            Some(below) => {
                let (element, node) = child;
                let part = child_without(alloc, node, below)?;
                match part {
                    Some(part) => kept.push((element, part))?,
                    None => drop(element),
                }
            }
            None => kept.push(child)?,
        }
    }
    Ok(kept)
}

// A child without the places that go, nothing where it goes itself.
#[cycle(without)]
fn child_without(alloc: Global, node: Node, gone: &Trie) -> Result<Option<Node>, AllocError>
    requires tree { is_tree node ≡ true }
    requires trie { is_trie gone.now ≡ true }
    requires whole { GoesWhole node (paths gone.now) }
    ensures { IfOk result (λ n. IsChildWithout (paths gone.now) node n) }
{
    if gone.here {
        drop(node);
        return Ok(None);
    }
    let left = node_without(alloc, node, &gone.below)?;
    Ok(Some(left))
}

// The tree without the places that go, of which its root is none.
#[cycle(without)]
pub(crate) fn node_without(
    alloc: Global,
    node: Node,
    gone: &[(Elem, Trie)],
) -> Result<Node, AllocError>
    requires tree { is_tree node ≡ true }
    requires rise { rises (elements gone.now) ≡ true }
    requires tries { are_filled_tries gone.now ≡ true }
    requires whole { GoWhole (below node) (paths_below gone.now) }
    ensures { IfOk result (λ n. IsWithout (paths_below gone.now) node n) }
{
    match node {
        Node::Leaf(leaf) => Ok(Node::Leaf(leaf)),
        Node::Branch(children) => {
            let kept = children_without(alloc, children, gone)?;
            Ok(Node::Branch(kept))
        }
        Node::Dict(children) => {
            let kept = children_without(alloc, children, gone)?;
            Ok(Node::Dict(kept))
        }
        Node::List(children) => {
            let kept = children_without(alloc, children, gone)?;
            Ok(Node::List(kept))
        }
    }
}
