//! The children between those that are the same at both ends of two lists.
ghost use Rattle.std.specs.Prelude.{◌≡◌, true};
ghost use Rattle.ssa_path.specs.Children.{elements};
ghost use Rattle.ssa_path.specs.View.{element_view};
ghost use Rattle.ssa_typed.specs.Rows.{are_apart, are_trees, is_tree};
ghost use Rattle.ssa_typed.specs.Same.{AreLeft, AreSame};

use crate::node::Node;
use ssa_path::element::Elem;

// Whether both children are of one element, and their trees are one.
#[inline(always)]
fn is_same_child(own: &(Elem, Node), other: &(Elem, Node)) -> bool
    requires own { is_tree own.now.1 ≡ true }
    requires other { is_tree other.now.1 ≡ true }
    ensures element { result ≡ true → element_view own.now.0 ≡ element_view other.now.0 }
    ensures tree { result ≡ true → AreSame own.now.1 other.now.1 }
{
    own.0.is_same(&other.0) && own.1.is_same(&other.1)
}

// What is left of both without the children that are the same from the first on.
fn behind_same<'a>(
    own: &'a [(Elem, Node)],
    others: &'a [(Elem, Node)],
) -> (&'a [(Elem, Node)], &'a [(Elem, Node)])
    requires own { are_trees own.now ≡ true }
    requires others { are_trees others.now ≡ true }
    requires own_apart { are_apart (elements own.now) ≡ true }
    requires others_apart { are_apart (elements others.now) ≡ true }
    ensures left { AreLeft own.now others.now result.0.now result.1.now }
    ensures own { are_trees result.0.now ≡ true }
    ensures others { are_trees result.1.now ≡ true }
{
    let mut place = 0;
    while place < own.len() && place < others.len() {
        if !is_same_child(&own[place], &others[place]) {
            break;
        }
        place += 1;
    }
    (&own[place..], &others[place..])
}

// What is left of both without the children that are the same from the last one back. The first of both are left: the
// walk from the first on has looked at them.
fn before_same<'a>(
    own: &'a [(Elem, Node)],
    others: &'a [(Elem, Node)],
) -> (&'a [(Elem, Node)], &'a [(Elem, Node)])
    requires own { are_trees own.now ≡ true }
    requires others { are_trees others.now ≡ true }
    requires own_apart { are_apart (elements own.now) ≡ true }
    requires others_apart { are_apart (elements others.now) ≡ true }
    ensures { AreLeft own.now others.now result.0.now result.1.now }
{
    let (mut own_len, mut len) = (own.len(), others.len());
    while own_len > 1 && len > 1 {
        if !is_same_child(&own[own_len - 1], &others[len - 1]) {
            break;
        }
        own_len -= 1;
        len -= 1;
    }
    (&own[..own_len], &others[..len])
}

/// What is left of both lists without the children that are the same at their beginning and at their
/// end: of lists in which one item differs, that item alone. Takes no memory.
pub(crate) fn between_same<'a>(
    own: &'a [(Elem, Node)],
    others: &'a [(Elem, Node)],
) -> (&'a [(Elem, Node)], &'a [(Elem, Node)])
    requires own { are_trees own.now ≡ true }
    requires others { are_trees others.now ≡ true }
    requires own_apart { are_apart (elements own.now) ≡ true }
    requires others_apart { are_apart (elements others.now) ≡ true }
    ensures { AreLeft own.now others.now result.0.now result.1.now }
{
    let (own, others) = behind_same(own, others);
    before_same(own, others)
}
