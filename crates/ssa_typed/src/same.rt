//! Whether one tree is the other.
ghost use Rattle.std.specs.Prelude.{◌≡◌, true};
ghost use Rattle.ssa_path.specs.Children.{elements};
ghost use Rattle.ssa_typed.specs.Rows.{below, is_tree, leaf_content, own_content};
ghost use Rattle.ssa_typed.specs.Same.{AreSame};

use crate::in_order::stand_alike;
use crate::node::{Leaf, Node};

impl Leaf {
    // Whether both leaves have the same contents.
    #[inline(always)]
    pub(crate) fn is_same(&self, other: &Leaf) -> bool
        ensures { result ≡ true → leaf_content other.now ≡ leaf_content self.now }
    {
        match (self, other) {
            (Leaf::Scalar(own), Leaf::Scalar(other)) => own.same(other),
            (Leaf::Atomic(own), Leaf::Atomic(other)) => own.same(other),
            (Leaf::Scalar(_), Leaf::Atomic(_)) => false,
            (Leaf::Atomic(_), Leaf::Scalar(_)) => false,
        }
    }
}

impl Node {
    // Whether the same stands at both places themselves, with children of the same elements in the same order.
    fn is_alike(&self, other: &Node) -> bool
        ensures own { result ≡ true → own_content other.now ≡ own_content self.now }
        ensures children { result ≡ true → elements (below self.now) ≡ elements (below other.now) }
    {
        match (self, other) {
            (Node::Leaf(own), Node::Leaf(other)) => own.is_same(other),
            (Node::Branch(own), Node::Branch(others)) => stand_alike(own, others),
            (Node::Dict(own), Node::Dict(others)) => stand_alike(own, others),
            (Node::List(own), Node::List(others)) => stand_alike(own, others),
            _ => false,
        }
    }

    // Whether the tree is the other. Of leaves, as most are, it is asked here, with no call. Takes no memory.
    #[cycle(is_same)]
    #[inline(always)]
    pub(crate) fn is_same(&self, other: &Node) -> bool
        requires own { is_tree self.now ≡ true }
        requires other { is_tree other.now ≡ true }
        ensures { result ≡ true → AreSame self.now other.now }
    {
        match (self, other) {
            (Node::Leaf(own), Node::Leaf(other)) => own.is_same(other),
            _ => self.is_same_below(other),
        }
    }

    // Whether the tree is the other, where one of them is no leaf.
    #[cycle(is_same)]
    fn is_same_below(&self, other: &Node) -> bool
        requires own { is_tree self.now ≡ true }
        requires other { is_tree other.now ≡ true }
        ensures { result ≡ true → AreSame self.now other.now }
    {
        if !self.is_alike(other) {
            return false;
        }
        let (own, others) = (self.children(), other.children());
        for (i, child) in own.iter().enumerate() {
            if !child.1.is_same(&others[i].1) {
                return false;
            }
        }
        true
    }
}
