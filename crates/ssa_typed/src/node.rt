//! The tree of a body.
ghost use Rattle.std.specs.Prelude.{◌≡◌, [], ◌∷◌, ◌++◌, ◌-◌, ◌^◌, true, length, min, None, Some, IfNone, IfSome};
ghost use Rattle.std.specs.Option.{option_copied};
ghost use Rattle.ssa_model.specs.definitions.Body.{is_dict};
ghost use Rattle.ssa_model.specs.definitions.Path as model;
ghost use Rattle.ssa_path.specs.Children.{child_at, elements};
ghost use Rattle.ssa_path.specs.View.{element_view, path_view};
ghost use Rattle.ssa_typed.specs.Look.{look_of, shown};
ghost use Rattle.ssa_typed.specs.Rows.{rows, rows_below, below, content_at, own_content, is_tree, are_apart, are_trees};

use ssa_json::value::{Json, Scalar};
use ssa_path::children::find_child;
use ssa_path::element::Elem;

/// What stands at a path with nothing below it: a scalar, or a value that is replaced and owned
/// whole.
#[derive(Drop)]
pub enum Leaf {
    Scalar(Scalar),
    Atomic(Json),
}

/// A place of a body with all that is below it.
///
/// In the tree of a body the fields of a record (`Branch`) and the entries of a `Dict` stand by the
/// bytes of their elements' texts, and the items of a `List` in the list's order, no two alike.
#[derive(Drop)]
pub enum Node {
    Leaf(Leaf),
    Branch(Vec<(Elem, Node)>),
    Dict(Vec<(Elem, Node)>),
    List(Vec<(Elem, Node)>),
}

/// What a path leads to: a leaf, or a branch with the number of its children.
#[derive(Drop)]
pub enum Look<'a> {
    Leaf(&'a Leaf),
    Branch(usize),
    Dict(usize),
    List(usize),
}

// The child of this element, among children that stand in any order.
fn scan<'a>(children: &'a [(Elem, Node)], element: &Elem) -> Option<&'a Node>
    ensures { option_copied result ≡ child_at (element_view element.now) children.now }
{
    for (own, child) in children {
        if element.is_same(own) {
            return Some(child);
        }
    }
    None
}

impl Node {
    /// The children, none for a leaf.
    pub fn children(&self) -> &[(Elem, Node)]
        ensures own { result.now ≡ below self.now }
        ensures rows { rows self.now ≡ ([], own_content self.now) ∷ rows_below result.now }
        ensures trees { is_tree self.now ≡ true → are_trees result.now ≡ true }
        ensures apart { is_tree self.now ≡ true → are_apart (elements result.now) ≡ true }
    {
        match self {
            Node::Leaf(_) => &[],
            Node::Branch(children) | Node::Dict(children) | Node::List(children) => children,
        }
    }

    /// What stands at the node itself.
    pub fn look(&self) -> Look<'_>
        ensures { look_of result ≡ shown (length (below self.now)) (own_content self.now) }
    {
        match self {
            Node::Leaf(leaf) => Look::Leaf(leaf),
            Node::Branch(children) => Look::Branch(children.len()),
            Node::Dict(children) => Look::Dict(children.len()),
            Node::List(children) => Look::List(children.len()),
        }
    }

    /// Whether the node is a Dict, whose entries are points.
    pub fn is_dict(&self) -> bool
        ensures { result ≡ is_dict (Some (own_content self.now)) }
    {
        match self {
            Node::Leaf(_) => false,
            Node::Branch(_) => false,
            Node::Dict(_) => true,
            Node::List(_) => false,
        }
    }

    /// The child of this element, if there is one.
    ///
    /// Takes as many comparisons as a binary search in a record or a Dict, and as there are items
    /// in a list.
    pub fn child(&self, element: &Elem) -> Option<&Node>
        requires { is_tree self.now ≡ true }
        ensures { option_copied result ≡ child_at (element_view element.now) (below self.now) }
    {
        match self {
            Node::Leaf(_) => None,
            Node::Branch(children) => find_child(children, element),
            Node::Dict(children) => find_child(children, element),
            Node::List(children) => scan(children, element),
        }
    }

    // How many places there are below this one, or `usize::MAX` where there are more: one for each child, and then those below
    // the children that are no leaves, so that a leaf costs no more than a test.
    fn places_below(&self) -> usize
        ensures { result ≡ min (length (rows_below (below self.now))) (2 ^ 64 - 1) }
    {
        let children = self.children();
        let mut count = children.len();
        for child in children {
            match &child.1 {
                Node::Leaf(_) => {}
                _ => count = count.saturating_add(child.1.places_below()),
            }
        }
        count
    }

    /// How many places there are, this one among them, or `usize::MAX` where there are more.
    pub fn size(&self) -> usize
        ensures { result ≡ min (length (rows self.now)) (2 ^ 64 - 1) }
    {
        self.places_below().saturating_add(1)
    }

    /// The place of a path below this node, if there is one.
    pub fn node_at(&self, path: &[Elem]) -> Option<&Node>
        requires { is_tree self.now ≡ true }
        ensures none { IfNone result ((q : model.Path)
            → content_at (rows self.now) (path_view path.now ++ q) ≡ None) }
        ensures some { IfSome result (λ n. (q : model.Path)
            → content_at (rows self.now) (path_view path.now ++ q) ≡ content_at (rows n.now) q) }
        ensures tree { IfSome result (λ n. is_tree n.now ≡ true) }
    {
        let mut node = self;
        for element in path {
            match node.child(element) {
                Some(child) => node = child,
                None => return None,
            }
        }
        Some(node)
    }
}
