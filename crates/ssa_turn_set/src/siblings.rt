//! The children of a place, found one after the other.
ghost use Rattle.std.specs.Prelude.{◌≡◌, ◌≤◌, true, None, length, take, drop};
ghost use Rattle.ssa_path.specs.Children.{child_at, elements, rises, IsChildAt};
ghost use Rattle.ssa_path.specs.View.{element_view};

use ssa_path::children::{FEW, find, find_near};
use ssa_path::element::Elem;
use ssa_path::trie::Trie;
use std::cmp::Ordering;

// As many of the first children as are enough to have the element's child, where there is one.
//
// They are doubled until the last of them is not before the element, so that it costs no more than
// the logarithm of how far the child stands. Among few none is ordered.
fn reach(children: &[(Elem, Trie)], element: &Elem) -> usize
    requires { rises (elements children.now) ≡ true }
    ensures within { result ≤ length children.now }
    ensures enough { child_at (element_view element.now) (take result children.now) ≡ child_at (element_view element.now) children.now }
{
    let mut width = children.len().min(FEW);
    while width < children.len() && children[width - 1].0.order(element) == Ordering::Less {
        width += width.min(children.len() - width);
    }
    width
}

// The place of the child of this element, which is there, looked for first at `near`.
#[inline(always)]
pub(crate) fn place_near(children: &[(Elem, Trie)], element: &Elem, near: usize) -> usize
    requires rise { rises (elements children.now) ≡ true }
    requires present { child_at (element_view element.now) children.now ≡ None → ⊥ }
    ensures { IsChildAt (element_view element.now) children.now result }
{
    let mut near = near;
    match find_near(children, element, &mut near) {
        Some(found) => found,
        None => unreachable!(),
    }
}

// The place of the child of this element, which is there.
#[inline(always)]
pub(crate) fn place_of(children: &[(Elem, Trie)], element: &Elem) -> usize
    requires rise { rises (elements children.now) ≡ true }
    requires present { child_at (element_view element.now) children.now ≡ None → ⊥ }
    ensures { IsChildAt (element_view element.now) children.now result }
{
    match find(children, element) {
        Some(place) => place,
        None => unreachable!(),
    }
}

// The place of the child of this element, which stands at `start` or behind it.
pub(crate) fn place_from(children: &[(Elem, Trie)], start: usize, element: &Elem) -> usize
    requires start { start ≤ length children.now }
    requires rise { rises (elements (drop start children.now)) ≡ true }
    requires present { child_at (element_view element.now) (drop start children.now) ≡ None → ⊥ }
    ensures from { start ≤ result }
    ensures child { IsChildAt (element_view element.now) children.now result }
{
    let left = &children[start..];
    let near = &left[..reach(left, element)];
    let place = place_of(near, element);
    start + place
}
