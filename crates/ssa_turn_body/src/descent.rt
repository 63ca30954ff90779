//! The way down to a place of a tree that is changed.
ghost use Rattle.std.specs.Prelude.{◌≡◌, ◌<◌, true, length, IfNone, IfSome, None};
ghost use Rattle.ssa_path.specs.Children.{child_at, IsChildAt};
ghost use Rattle.ssa_path.specs.View.{element_view, path_view};
ghost use Rattle.ssa_typed.specs.Rows.{below, is_tree, are_trees};
ghost use Rattle.ssa_turn_body.specs.Marks.{Place, seen};
ghost use Rattle.ssa_typed.specs.Nodes.{node_on};
ghost use Rattle.ssa_turn_body.specs.Descent.{node_in, FitsIn, IsChange, IsChildChange};

use ssa_path::children::{find, scan};
use ssa_path::element::Elem;
use ssa_typed::node::Node;

/// A change of one subtree, which never fails.
pub trait Change {
    /// What the subtree must be.
    ghost fits: { Self → Place → Type 0 };

    /// What the change leaves, of itself and of the subtree.
    ghost gives: { Self → Place → Self → Place → Type 0 };

    fn apply(&mut self, node: &mut Node)
        requires tree { is_tree node.old ≡ true }
        requires fits { fits self.old (seen node.old) }
        ensures gives { gives self.old (seen node.old) self.new (seen node.new) }
        ensures tree { is_tree node.new ≡ true };
}

/// The place of the child of this element among the children of a node.
///
/// Takes as many comparisons as a binary search in a record or a Dict of more than a few, and as there are
/// items in a list.
#[inline(always)]
pub fn place_of(node: &Node, element: &Elem) -> Option<usize>
    requires { is_tree node.now ≡ true }
    ensures some { IfSome result (IsChildAt (element_view element.now) (below node.now)) }
    ensures none { IfNone result (child_at (element_view element.now) (below node.now) ≡ None) }
{
    match node {
        Node::Leaf(_) => None,
        Node::Branch(children) => find(children, element),
        Node::Dict(children) => find(children, element),
        Node::List(children) => scan(children, element),
    }
}

/// Changes the subtree at a path and nothing else.
#[cycle(change)]
pub fn change_at<C: Change>(node: &mut Node, path: &[Elem], change: &mut C)
    requires tree { is_tree node.old ≡ true }
    requires fits { FitsIn (λ n. C.fits change.old (seen n)) (node_on (path_view path.now) node.old) }
    ensures { IsChange (λ n m. C.gives change.old (seen n) change.new (seen m)) (path_view path.now) node.old node.new }
{
    let [first, rest @ ..] = path else {
        change.apply(node);
        return;
    };
    let Some(place) = place_of(node, first) else {
        unreachable!()
    };
    match node {
        Node::Leaf(_) => unreachable!(),
        Node::Branch(children) => change_child(children, place, rest, change),
        Node::Dict(children) => change_child(children, place, rest, change),
        Node::List(children) => change_child(children, place, rest, change),
    }
}

#[cycle(change)]
fn change_child<C: Change>(
    children: &mut Vec<(Elem, Node)>,
    place: usize,
    path: &[Elem],
    change: &mut C,
)
    requires within { place < length children.old.items }
    requires trees { are_trees children.old.items ≡ true }
    requires fits { FitsIn (λ n. C.fits change.old (seen n)) (node_in (path_view path.now) children.old.items place) }
    ensures { IsChildChange (λ n m. C.gives change.old (seen n) change.new (seen m)) (path_view path.now) children.old.items place children.new.items }
{
    let child = &mut children[place];
    change_at(&mut child.1, path, change);
}
