//! The children of a node, lent in the order of their elements.
ghost use Rattle.std.specs.Prelude.{◌≡◌, ◌^◌, ◌<◌, length, slice_get, true, Some, IfOk};
ghost use Rattle.std.specs.Option.{option_copied};
ghost use Rattle.ssa_path.specs.Children.{child_at, elements, rises};
ghost use Rattle.ssa_path.specs.View.{element_view};
ghost use Rattle.ssa_typed.specs.InOrder.{IsInOrder};
ghost use Rattle.ssa_typed.specs.Ordered.{lent_children};
ghost use Rattle.ssa_typed.specs.Rows.{are_apart, below, is_tree};

use crate::in_order::{elements_rise, find_in_order, in_order};
use crate::node::Node;
use ssa_path::children::find_child;
use ssa_path::element::Elem;
use std::alloc::{AllocError, Global};

/// Children in the order of their elements.
#[derive(Drop)]
pub(crate) enum Ordered<'a> {
    /// They stand so, as the fields of a record and the entries of a Dict do, and an item alone.
    AsTheyStand(&'a [(Elem, Node)]),
    /// References to them are put so.
    Sorted(Vec<&'a (Elem, Node)>),
}

// The child at a place, among children that stand in order.
fn standing_at(children: &[(Elem, Node)], i: usize) -> &(Elem, Node)
    requires { i < length children.now }
    ensures read { slice_get children.now i ≡ Some result.now }
    ensures small { length children.now < 2 ^ 63 }
{
    &children[i]
}

impl<'a> Ordered<'a> {
    // How many children there are.
    pub(crate) fn len(&self) -> usize
        ensures { result ≡ length (lent_children self.now) }
    {
        match self {
            Ordered::AsTheyStand(children) => children.len(),
            Ordered::Sorted(children) => children.len(),
        }
    }

    // The child at a place.
    pub(crate) fn at(&self, i: usize) -> &'a (Elem, Node)
        requires { i < length (lent_children self.now) }
        ensures read { slice_get (lent_children self.now) i ≡ Some result.now }
        ensures small { length (lent_children self.now) < 2 ^ 63 }
    {
        match self {
            Ordered::AsTheyStand(children) => standing_at(children, i),
            Ordered::Sorted(children) => children[i],
        }
    }

    // The child of this element.
    pub(crate) fn find(&self, element: &Elem) -> Option<&'a Node>
        requires { rises (elements (lent_children self.now)) ≡ true }
        ensures { option_copied result ≡ child_at (element_view element.now) (lent_children self.now) }
    {
        match self {
            Ordered::AsTheyStand(children) => find_child(children, element),
            Ordered::Sorted(children) => find_in_order(children, element),
        }
    }
}

/// Items of a list in the order of their elements. Where they stand so, no memory is taken.
#[inline(always)]
pub(crate) fn items_in_order(
    alloc: Global,
    items: &[(Elem, Node)],
) -> Result<Ordered<'_>, AllocError>
    requires { are_apart (elements items.now) ≡ true }
    ensures { IfOk result (λ o. IsInOrder items.now (lent_children o)) }
{
    if elements_rise(items) {
        return Ok(Ordered::AsTheyStand(items));
    }
    let sorted = in_order(alloc, items)?;
    Ok(Ordered::Sorted(sorted))
}

impl Node {
    // The children in the order of their elements. Takes memory for the items of a list alone.
    #[inline(always)]
    pub(crate) fn ordered(&self, alloc: Global) -> Result<Ordered<'_>, AllocError>
        requires { is_tree self.now ≡ true }
        ensures { IfOk result (λ o. IsInOrder (below self.now) (lent_children o)) }
    {
        match self {
            Node::Leaf(_) => Ok(Ordered::AsTheyStand(&[])),
            Node::Branch(children) => Ok(Ordered::AsTheyStand(children)),
            Node::Dict(children) => Ok(Ordered::AsTheyStand(children)),
            Node::List(items) => items_in_order(alloc, items),
        }
    }
}
