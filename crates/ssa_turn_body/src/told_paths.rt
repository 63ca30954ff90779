//! What changes tell of paths.
ghost use Rattle.std.specs.Prelude.{◌≡◌, ◌<◌, ◌^◌, true, IfSome};
ghost use Rattle.std.proofs.Props.{props};
ghost use Rattle.ssa_typed.specs.Rows.{is_tree};

use ssa_path::element::Elem;
use ssa_typed::node::{Leaf, Node};

/// A child that comes and, of an item, the place where it stands afterwards. The child is lent.
#[derive(Drop)]
pub struct ComingChild<'a> {
    pub node: &'a Node,
    pub place: Option<usize>,
    ghost tree: { is_tree node.now ≡ true },
    ghost small: { IfSome place (λ k. k < 2 ^ 63) } by { Prim.hlevel props },
}

/// What a change tells of a path. What it is made of is lent.
#[derive(Drop)]
pub enum Told<'a> {
    /// What stands there goes.
    Cut,
    /// This leaf is to stand there.
    Leaf(&'a Leaf),
    /// The items of the list there are to stand in this order.
    Order(&'a [Elem]),
    /// This child comes there.
    Put(ComingChild<'a>),
}
