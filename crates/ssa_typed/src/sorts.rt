//! Whether two places are of one sort.
ghost use Rattle.std.specs.Prelude.{◌≡◌, true, Some};
ghost use Rattle.ssa_model.specs.definitions.Body.{is_other_leaf};
ghost use Rattle.ssa_typed.specs.Alike.{are_branches_alike};
ghost use Rattle.ssa_typed.specs.Rows.{leaf_content, own_content};

use crate::node::{Leaf, Node};

impl Leaf {
    // Whether this leaf is of the other's sort and has other contents.
    pub(crate) fn is_other(&self, other: &Leaf) -> bool
        ensures { result ≡ is_other_leaf (Some (leaf_content self.now)) (Some (leaf_content other.now)) }
    {
        match (self, other) {
            (Leaf::Scalar(own), Leaf::Scalar(other)) => !own.same(other),
            (Leaf::Atomic(own), Leaf::Atomic(other)) => !own.same(other),
            (Leaf::Scalar(_), Leaf::Atomic(_)) => false,
            (Leaf::Atomic(_), Leaf::Scalar(_)) => false,
        }
    }
}

impl Node {
    // Whether both nodes are leaves of one sort with other contents.
    pub(crate) fn is_other_leaf(&self, after: &Node) -> bool
        ensures { result ≡ is_other_leaf (Some (own_content self.now)) (Some (own_content after.now)) }
    {
        match (self, after) {
            (Node::Leaf(own), Node::Leaf(other)) => own.is_other(other),
            (Node::Leaf(_), Node::Branch(_)) => false,
            (Node::Leaf(_), Node::Dict(_)) => false,
            (Node::Leaf(_), Node::List(_)) => false,
            (Node::Branch(_), _) => false,
            (Node::Dict(_), _) => false,
            (Node::List(_), _) => false,
        }
    }

    // Whether both nodes are lists.
    pub(crate) fn are_lists(&self, after: &Node) -> bool
        ensures { result ≡ true → are_branches_alike (own_content self.now) (own_content after.now) ≡ true }
    {
        match (self, after) {
            (Node::List(_), Node::List(_)) => true,
            _ => false,
        }
    }

    // Whether both nodes are records, both Dicts or both lists.
    pub(crate) fn is_branch_like(&self, after: &Node) -> bool
        ensures { result ≡ true → are_branches_alike (own_content self.now) (own_content after.now) ≡ true }
    {
        match (self, after) {
            (Node::Branch(_), Node::Branch(_)) => true,
            (Node::Dict(_), Node::Dict(_)) => true,
            _ => self.are_lists(after),
        }
    }
}
