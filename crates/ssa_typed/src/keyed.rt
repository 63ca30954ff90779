//! Children in the order of their elements, which the numbers of the elements mostly tell.
ghost use Rattle.std.specs.Prelude.{◌≡◌, map, true, IfOk, IfSome};
ghost use Rattle.ssa_path.specs.Children.{elements};
ghost use Rattle.ssa_path.specs.View.{element_view};
ghost use Rattle.ssa_typed.specs.InOrder.{referred, IsInOrder};
ghost use Rattle.ssa_typed.specs.Keyed.{behind_key, child_of, keyed_cmp, keyed_view};
ghost use Rattle.ssa_typed.specs.Rows.{are_apart};

use crate::node::Node;
use ssa_path::element::Elem;
use ssa_path::sort_key::{element_key, shared_start};
use std::alloc::{AllocError, Global};
use std::cmp::Ordering;

// A child behind the number of its element.
#[derive(Drop)]
struct KeyedChild<'a> {
    key: u64,
    child: &'a (Elem, Node),
}

impl<'a> KeyedChild<'a> {
    // The order of the numbers, and of the elements where the numbers are one. Most numbers differ.
    #[inline(always)]
    fn order(&self, other: &KeyedChild) -> Ordering
        ensures { result ≡ keyed_cmp self.now other.now }
    {
        match self.key.cmp(&other.key) {
            Ordering::Equal => self.child.0.order(&other.child.0),
            found => found,
        }
    }
}

// The children behind the numbers of their elements.
fn with_keys<'a>(
    alloc: Global,
    first: &Elem,
    skip: usize,
    children: &'a [(Elem, Node)],
) -> Result<Vec<KeyedChild<'a>>, AllocError>
    ensures { IfOk result (λ v. map keyed_view v.items ≡ map (behind_key (element_view first.now) skip) children.now) }
{
    let mut keyed = Vec::with_capacity(alloc, children.len())?;
    for child in children {
        let key = element_key(first, skip, &child.0);
        keyed.push(KeyedChild { key, child })?;
    }
    Ok(keyed)
}

// The children without the numbers.
fn children_of<'a>(
    alloc: Global,
    keyed: &[KeyedChild<'a>],
) -> Result<Vec<&'a (Elem, Node)>, AllocError>
    ensures { IfOk result (λ v. referred v.items ≡ map child_of keyed.now) }
{
    let mut children = Vec::with_capacity(alloc, keyed.len())?;
    for child in keyed {
        children.push(child.child)?;
    }
    Ok(children)
}

/// The children in the order of their elements, where the elements have texts that begin alike.
///
/// Takes about n log n comparisons, most of them of numbers.
pub(crate) fn by_keys<'a>(
    alloc: Global,
    children: &'a [(Elem, Node)],
) -> Result<Option<Vec<&'a (Elem, Node)>>, AllocError>
    requires { are_apart (elements children.now) ≡ true }
    ensures { IfOk result (λ found. IfSome found (λ v. IsInOrder children.now (referred v.items))) }
{
    let [first, ..] = children else {
        return Ok(None);
    };
    let Some(start) = shared_start(&first.0, children) else {
        return Ok(None);
    };
    let mut keyed = with_keys(alloc, &first.0, start.len(), children)?;
    keyed.sort_by(|own, other| own.order(other))?;
    let sorted = children_of(alloc, &keyed)?;
    Ok(Some(sorted))
}
