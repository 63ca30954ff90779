//! A change of one place, of any sort.
use crate::children::{ChildrenEdit, LeafSwap};
use crate::descent::Change;
use ssa_typed::node::Node;

/// A change of one place. Most are of a leaf, which is much smaller than an edit of children, so that is kept apart.
#[derive(Drop)]
pub enum PlaceChange {
    Leaf(LeafSwap),
    Children(Box<ChildrenEdit>),
}

impl Change for PlaceChange {
    ghost use Rattle.ssa_turn_body.specs.Changes.{ChangeFits, ChangeGives};

    ghost fits = { ChangeFits };

    ghost gives = { ChangeGives };

    fn apply(&mut self, node: &mut Node) {
        match self {
            PlaceChange::Leaf(swap) => swap.apply(node),
            PlaceChange::Children(edit) => edit.apply(node),
        }
    }
}
