//! Children under elements that rise.
ghost use Rattle.std.specs.Prelude.{◌≡◌, true, None, drop, IfNone, IfSome};
ghost use Rattle.std.specs.Option.{option_copied};
ghost use Rattle.ssa_path.specs.Children.{child_at, elements, heads_order, rises, IsChildAt, IsSearchResult};
ghost use Rattle.ssa_path.specs.View.{element_view};

use crate::element::Elem;
use std::cmp::Ordering;

/// Of so few children each is looked at: to tell that two elements differ takes a few instructions,
/// and to order them a hundred.
pub const FEW: usize = 8;

/// The place of the child of this element among children in any order, looked for one after the other.
#[inline(always)]
pub fn scan<T>(children: &[(Elem, T)], element: &Elem) -> Option<usize>
    ensures some { IfSome result (IsChildAt (element_view element.now) children.now) }
    ensures none { IfNone result (child_at (element_view element.now) children.now ≡ None) }
{
    for (i, child) in children.iter().enumerate() {
        if element.is_same(&child.0) {
            return Some(i);
        }
    }
    None
}

// The place of the child of this element, or the place where one may be put, looked for by halving.
#[inline(always)]
fn halve<T>(children: &[(Elem, T)], element: &Elem) -> Result<usize, usize>
    requires { rises (elements children.now) ≡ true }
    ensures { IsSearchResult (element_view element.now) children.now result }
{
    children.binary_search_by(|child| child.0.order(element))
}

/// The place of the child of this element, or the place where one may be put.
///
/// An item is first looked for among few. The names of fields mostly differ in their first bytes, which
/// order them as fast. Where no place for one is needed, [`find`] takes less.
#[inline(always)]
pub fn search<T>(children: &[(Elem, T)], element: &Elem) -> Result<usize, usize>
    requires { rises (elements children.now) ≡ true }
    ensures { IsSearchResult (element_view element.now) children.now result }
{
    if element.is_item() && children.len() <= FEW {
        if let Some(i) = scan(children, element) {
            return Ok(i);
        }
    }
    halve(children, element)
}

/// The place of the child of this element, found by halving, among few by a look at each.
#[inline(always)]
pub fn find<T>(children: &[(Elem, T)], element: &Elem) -> Option<usize>
    requires { rises (elements children.now) ≡ true }
    ensures some { IfSome result (IsChildAt (element_view element.now) children.now) }
    ensures none { IfNone result (child_at (element_view element.now) children.now ≡ None) }
{
    if children.len() <= FEW {
        scan(children, element)
    } else {
        halve(children, element).ok()
    }
}

/// The child of this element.
#[inline(always)]
pub fn find_child<'a, T>(children: &'a [(Elem, T)], element: &Elem) -> Option<&'a T>
    requires { rises (elements children.now) ≡ true }
    ensures { option_copied result ≡ child_at (element_view element.now) children.now }
{
    match find(children, element) {
        Some(i) => Some(&children[i].1),
        None => None,
    }
}

/// The place of the child of this element, looked for first at `near`, which then tells where it was found. What is found does
/// not depend on it: of sets that are alike, looked into in turn, each mostly has a path where the one before it had it.
#[inline(always)]
pub fn find_near<T>(children: &[(Elem, T)], element: &Elem, near: &mut usize) -> Option<usize>
    requires { rises (elements children.now) ≡ true }
    ensures some { IfSome result (IsChildAt (element_view element.now) children.now) }
    ensures none { IfNone result (child_at (element_view element.now) children.now ≡ None) }
{
    let place = *near;
    if place < children.len() && element.is_same(&children[place].0) {
        return Some(place);
    }
    match find(children, element) {
        Some(found) => {
            *near = found;
            Some(found)
        }
        None => None,
    }
}

/// The child of this element, looked for first at `near`, as [`find_near`] does.
#[inline(always)]
pub fn find_child_near<'a, T>(
    children: &'a [(Elem, T)],
    element: &Elem,
    near: &mut usize,
) -> Option<&'a T>
    requires { rises (elements children.now) ≡ true }
    ensures { option_copied result ≡ child_at (element_view element.now) children.now }
{
    match find_near(children, element, near) {
        Some(i) => Some(&children[i].1),
        None => None,
    }
}

/// How the next children of two lists compare: where one list has no more, the other's is first.
#[inline(always)]
pub fn order_at<A, B>(
    own: &[(Elem, A)],
    i: usize,
    others: &[(Elem, B)],
    j: usize,
) -> Option<Ordering>
    ensures { result ≡ heads_order (drop i own.now) (drop j others.now) }
{
    if i < own.len() {
        if j < others.len() {
            Some(own[i].0.order(&others[j].0))
        } else {
            Some(Ordering::Less)
        }
    } else if j < others.len() {
        Some(Ordering::Greater)
    } else {
        None
    }
}
