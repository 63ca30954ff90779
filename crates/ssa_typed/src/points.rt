//! The points of a tree: its leaves, items of lists, entries of Dicts and empty branches.
ghost use Rattle.std.specs.Prelude.{◌≡◌, [], true, Some, IfOk};
ghost use Rattle.ssa_path.specs.View.{element_view};
ghost use Rattle.ssa_typed.specs.Points.{collects, ends_here, point_in, IsAllPlaces, IsChildTrie, IsCollected, IsPointTrie};
ghost use Rattle.ssa_typed.specs.Rows.{is_tree};

use crate::node::Node;
use ssa_path::combine::push_filled;
use ssa_path::element::Elem;
use ssa_path::trie::Trie;
use std::alloc::{AllocError, Global};

// Which places of a tree are collected.
#[derive(Clone, Copy, Drop)]
pub(crate) enum Collected {
    Points,
    All,
}

// Whether a child of this element, in a Dict or not, is a point.
pub(crate) fn is_point(element: &Elem, node: &Node, in_dict: bool) -> bool
    ensures { result ≡ point_in in_dict (element_view element.now) (Some node.now) [] }
{
    let ends = node.ends_here();
    let item = element.is_item();
    ends || (item || in_dict)
}

impl Collected {
    // Whether a child's own place is collected.
    pub(crate) fn has_place(self, child: &(Elem, Node), in_dict: bool) -> bool
        ensures { result ≡ collects self in_dict (element_view child.now.0) (Some child.now.1) [] }
    {
        match self {
            Collected::Points => is_point(&child.0, &child.1, in_dict),
            Collected::All => true,
        }
    }
}

// What is collected below a node. Below most, which are leaves, there is nothing.
#[cycle(collect)]
#[inline(always)]
fn collect_under(
    alloc: Global,
    node: &Node,
    what: Collected,
) -> Result<Vec<(Elem, Trie)>, AllocError>
    requires { is_tree node.now ≡ true }
    ensures { IfOk result (λ v. IsCollected what node.now v.items) }
{
    if node.children().is_empty() {
        return Ok(Vec::new(alloc));
    }
    collect_below(alloc, node, what)
}

// What is collected below a node, each child's behind the child's element.
#[cycle(collect)]
#[inline(never)]
fn collect_below(
    alloc: Global,
    node: &Node,
    what: Collected,
) -> Result<Vec<(Elem, Trie)>, AllocError>
    requires { is_tree node.now ≡ true }
    ensures { IfOk result (λ v. IsCollected what node.now v.items) }
{
    let children = &node.ordered(alloc)?;
    let in_dict = node.is_dict();
    let mut collected = Vec::with_capacity(alloc, children.len())?;
    for i in 0..children.len() {
        let child = children.at(i);
        let below = collect_under(alloc, &child.1, what)?;
        let here = what.has_place(child, in_dict);
        push_filled(alloc, &mut collected, &child.0, Trie { here, below })?;
    }
    Ok(collected)
}

// What is collected at and below a child.
pub(crate) fn collect_child(
    alloc: Global,
    child: &(Elem, Node),
    in_dict: bool,
    what: Collected,
) -> Result<Trie, AllocError>
    requires { is_tree child.now.1 ≡ true }
    ensures { IfOk result (λ t. IsChildTrie (Some what) in_dict (element_view child.now.0) child.now.1 t) }
{
    let parts = collect_under(alloc, &child.1, what)?;
    let here = what.has_place(child, in_dict);
    Ok(Trie { here, below: parts })
}

impl Node {
    /// Whether nothing is below.
    pub fn ends_here(&self) -> bool
        ensures { result ≡ ends_here self.now }
    {
        match self {
            Node::Leaf(_) => true,
            Node::Branch(children) => children.is_empty(),
            Node::Dict(children) => children.is_empty(),
            Node::List(children) => children.is_empty(),
        }
    }

    /// The points of the tree.
    pub fn points(&self, alloc: Global) -> Result<Trie, AllocError>
        requires { is_tree self.now ≡ true }
        ensures { IfOk result (λ t. IsPointTrie self.now t) }
    {
        let below = collect_below(alloc, self, Collected::Points)?;
        Ok(Trie { here: false, below })
    }

    // All places of the tree, its own among them. Of a leaf they are told with no call.
    #[inline(always)]
    pub(crate) fn all_places(&self, alloc: Global) -> Result<Trie, AllocError>
        requires { is_tree self.now ≡ true }
        ensures { IfOk result (λ t. IsAllPlaces self.now t) }
    {
        let below = collect_under(alloc, self, Collected::All)?;
        Ok(Trie { here: true, below })
    }
}
