//! The children of a node, looked up by their elements, a few of them or many.
ghost use Rattle.std.specs.Prelude.{◌≡◌, true, IfOk};
ghost use Rattle.std.specs.Option.{option_copied};
ghost use Rattle.ssa_path.specs.View.{element_view};
ghost use Rattle.ssa_typed.specs.Lookup.{below_in, is_tree_in, looked_up, stands_ready, LooksUp};
ghost use Rattle.ssa_typed.specs.Rows.{below, is_tree};

use crate::node::Node;
use crate::ordered::Ordered;
use ssa_path::children::FEW;
use ssa_path::element::Elem;
use std::alloc::{AllocError, Global};

/// The children of a node, to be looked up.
#[derive(Drop)]
pub(crate) enum Lookup<'a> {
    /// The items of a list are looked at one after the other.
    AsItStands(&'a Node),
    /// The items of a list are put in order first.
    InOrder(Ordered<'a>),
}

impl<'a> Lookup<'a> {
    // The child of this element.
    pub(crate) fn find(&self, element: &Elem) -> Option<&'a Node>
        requires { stands_ready self.now ≡ true }
        ensures { option_copied result ≡ looked_up self.now (element_view element.now) }
    {
        match self {
            Lookup::AsItStands(node) => node.child(element),
            Lookup::InOrder(children) => children.find(element),
        }
    }
}

impl Node {
    // The children, to be looked up so many times: for more than a few the items of a list are put in order once.
    pub(crate) fn lookup(&self, alloc: Global, times: usize) -> Result<Lookup<'_>, AllocError>
        requires { is_tree self.now ≡ true }
        ensures { IfOk result (λ l. LooksUp (below self.now) l) }
    {
        if times > FEW {
            let children = self.ordered(alloc)?;
            return Ok(Lookup::InOrder(children));
        }
        Ok(Lookup::AsItStands(self))
    }
}

// The children of a node, to be looked up so many times, and none where there is no node.
pub(crate) fn lookup_in(
    alloc: Global,
    node: Option<&Node>,
    times: usize,
) -> Result<Lookup<'_>, AllocError>
    requires { is_tree_in (option_copied node) ≡ true }
    ensures { IfOk result (λ l. LooksUp (below_in (option_copied node.entry)) l) }
{
    match node {
        Some(node) => {
            let children = node.lookup(alloc, times)?;
            Ok(children)
        }
        None => Ok(Lookup::InOrder(Ordered::AsTheyStand(&[]))),
    }
}
