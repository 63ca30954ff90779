//! The children of a place in the order of their elements.
ghost use Rattle.std.specs.Prelude.{◌≡◌, true, IfOk};
ghost use Rattle.std.specs.Option.{option_copied};
ghost use Rattle.ssa_path.specs.Children.{child_at, elements, rises};
ghost use Rattle.ssa_path.specs.View.{element_view};
ghost use Rattle.ssa_typed.specs.InOrder.{referred, IsInOrder};
ghost use Rattle.ssa_typed.specs.Rows.{are_apart};

use crate::keyed::by_keys;
use crate::node::Node;
use ssa_path::children::order_at;
use ssa_path::element::Elem;
use std::alloc::{AllocError, Global};
use std::cmp::Ordering;

// Whether the children are so many, and their order at first so far from that of their elements, that
// numbers for them are worth the making.
fn are_mixed(children: &[(Elem, Node)]) -> bool {
    if children.len() < 24 {
        return false;
    }
    let mut last = &children[0].0;
    for child in &children[1..24] {
        if last.order(&child.0).is_gt() {
            return true;
        }
        last = &child.0;
    }
    false
}

// The children in the order of their elements, each two compared by their texts.
fn by_texts<'a>(
    alloc: Global,
    children: &'a [(Elem, Node)],
) -> Result<Vec<&'a (Elem, Node)>, AllocError>
    requires { are_apart (elements children.now) ≡ true }
    ensures { IfOk result (λ v. IsInOrder children.now (referred v.items)) }
{
    let mut sorted = Vec::with_capacity(alloc, children.len())?;
    for child in children {
        sorted.push(child)?;
    }
    sorted.sort_by(|own, other| own.0.order(&other.0))?;
    Ok(sorted)
}

/// The children by the bytes of their elements' texts, as sets of paths hold them.
///
/// The fields of a record and the entries of a Dict stand so already, the items of a list stand in
/// the list's order. Takes about n log n comparisons, mostly of numbers in a long list whose elements
/// have texts that begin alike.
#[inline(always)]
pub fn in_order<'a>(
    alloc: Global,
    children: &'a [(Elem, Node)],
) -> Result<Vec<&'a (Elem, Node)>, AllocError>
    requires { are_apart (elements children.now) ≡ true }
    ensures { IfOk result (λ v. IsInOrder children.now (referred v.items)) }
{
    if are_mixed(children) {
        if let Some(sorted) = by_keys(alloc, children)? {
            return Ok(sorted);
        }
    }
    by_texts(alloc, children)
}

/// The child of this element, among references to children in the order of their elements.
pub fn find_in_order<'a>(sorted: &[&'a (Elem, Node)], element: &Elem) -> Option<&'a Node>
    requires { rises (elements (referred sorted.now)) ≡ true }
    ensures { option_copied result ≡ child_at (element_view element.now) (referred sorted.now) }
{
    match sorted.binary_search_by(|child| child.0.order(element)) {
        Ok(i) => {
            let found = sorted[i];
            Some(&found.1)
        }
        Err(_) => None,
    }
}

/// Whether both have children of the same elements in the same order. Takes no memory.
#[inline(always)]
pub fn stand_alike(own: &[(Elem, Node)], others: &[(Elem, Node)]) -> bool
    ensures { result ≡ true → elements own.now ≡ elements others.now }
{
    if own.len() != others.len() {
        return false;
    }
    for (i, child) in own.iter().enumerate() {
        if !child.0.is_same(&others[i].0) {
            return false;
        }
    }
    true
}

/// Whether the elements of these children rise. Takes no memory; where the last ones do not, it tells so at once.
pub(crate) fn elements_rise(children: &[(Elem, Node)]) -> bool
    ensures { result ≡ true → rises (elements children.now) ≡ true }
{
    let mut place = children.len();
    while place > 0 {
        match order_at(children, place - 1, children, place) {
            Some(Ordering::Less) => place -= 1,
            _ => return false,
        }
    }
    true
}
