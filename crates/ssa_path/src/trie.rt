//! A set of paths as a tree: each place says whether the path to it is in the set.
ghost use Rattle.std.specs.Prelude.{◌≡◌, true, false, None, vec_capacity, IfOk, OnOk, OnErr, IfNone, IfSome};
ghost use Rattle.std.specs.List.{list_any};
ghost use Rattle.ssa_model.specs.definitions.Path.{under};
ghost use Rattle.ssa_path.specs.Combine.{IsKept};
ghost use Rattle.ssa_path.specs.Children.{child_at, elements, rises, IsGapFor};
ghost use Rattle.ssa_path.specs.View.{element_view, path_view};
ghost use Rattle.ssa_path.specs.Trie.{has_any, kept, is_one_of, paths, shape, is_trie, is_filled, are_filled_tries, IsCopy, IsGathered, IsInserted, IsOnly, IsPlace, IsRemoved};

use crate::children::{find_child, search};
use crate::element::Elem;
use std::alloc::{AllocError, Global};
use std::mem;

/// A place of a set of paths, with the places below it.
///
/// Where it is a trie, the children stand in the order of their elements, and each has some path.
#[derive(Drop)]
pub struct Trie {
    pub here: bool,
    pub below: Vec<(Elem, Trie)>,
}

// Adds a copy of the child behind the others. Of a short field with nothing below it, as most are, it is put together
// at its place with no call.
#[cycle(copy)]
#[inline(always)]
pub(crate) fn push_copy(
    alloc: Global,
    child: &(Elem, Trie),
    copies: &mut Vec<(Elem, Trie)>,
) -> Result<(), AllocError>
    ensures { OnOk result (IsKept true child.now copies.old.items copies.new.items) }
{
    match &child.0 {
        Elem::Field(name) if name.is_short() && child.1.below.is_empty() => {
            let trie = Trie {
                here: child.1.here,
                below: Vec::new(alloc),
            };
            copies.push((Elem::Field(name.copy_short()), trie))?;
        }
        _ => push_long_copy(alloc, child, copies)?,
    }
    Ok(())
}

// Adds a copy of the child behind the others.
#[cycle(copy)]
#[inline(never)]
fn push_long_copy(
    alloc: Global,
    child: &(Elem, Trie),
    copies: &mut Vec<(Elem, Trie)>,
) -> Result<(), AllocError>
    ensures { OnOk result (IsKept true child.now copies.old.items copies.new.items) }
{
    copies.push(copy_child(alloc, child)?)?;
    Ok(())
}

// A copy of a child.
#[cycle(copy)]
#[inline(always)]
pub(crate) fn copy_child(alloc: Global, child: &(Elem, Trie)) -> Result<(Elem, Trie), AllocError>
    ensures { IfOk result (λ c. IsCopy child.now c) }
{
    let element = child.0.copy(alloc)?;
    let trie = copied(alloc, &child.1)?;
    Ok((element, trie))
}

// The same trie, with new memory but for key fields, which both hold.
#[cycle(copy)]
fn copied(alloc: Global, trie: &Trie) -> Result<Trie, AllocError>
    ensures { IfOk result (λ t. shape t ≡ shape trie.now) }
{
    let mut below = Vec::with_capacity(alloc, trie.below.len())?;
    for child in &trie.below {
        push_copy(alloc, child, &mut below)?;
    }
    Ok(Trie {
        here: trie.here,
        below,
    })
}

// Puts a child at its place among the others.
fn put_child(
    alloc: Global,
    below: &mut Vec<(Elem, Trie)>,
    place: usize,
    element: &Elem,
    child: Trie,
) -> Result<(), AllocError>
    requires tries { are_filled_tries below.old.items ≡ true }
    requires gap { IsGapFor (element_view element.now) below.old.items place }
    requires trie { is_trie child ≡ true }
    requires filled { is_filled child ≡ true }
    ensures ok { OnOk result (IsGathered below.old.items (element_view element.now) child below.new.items) }
    ensures err { OnErr result (below.new.items ≡ below.old.items) }
{
    let own = element.copy(alloc)?;
    below.insert(place, (own, child))?;
    Ok(())
}

// Whether the child has some path.
fn has_any(child: &(Elem, Trie)) -> bool
    ensures { result ≡ has_any child.now }
{
    child.1.here || !child.1.below.is_empty()
}

/// Takes out the children that have no path left, in one pass where there are any.
#[inline(always)]
pub fn take_out_bare(below: &mut Vec<(Elem, Trie)>, any_bare: bool)
    requires { any_bare ≡ false → kept below.old.items ≡ below.old.items }
    ensures items { below.new.items ≡ kept below.old.items }
    ensures capacity { vec_capacity below.new ≡ vec_capacity below.old }
{
    if any_bare {
        below.retain(|child| has_any(child));
    }
}

impl Trie {
    /// The trie of one path.
    pub fn of_path(alloc: Global, elements: &[Elem]) -> Result<Trie, AllocError>
        ensures { IfOk result (λ t. IsOnly (path_view elements.now) t) }
    {
        match elements {
            [] => Ok(Trie {
                here: true,
                below: Vec::new(alloc),
            }),
            [first, rest @ ..] => {
                let child = Trie::of_path(alloc, rest)?;
                let own = first.copy(alloc)?;
                let mut below = Vec::new(alloc);
                below.push((own, child))?;
                Ok(Trie { here: false, below })
            }
        }
    }

    /// Whether there is some path.
    pub fn has_paths(&self) -> bool
        requires { is_trie self.now ≡ true }
        ensures { result ≡ is_filled self.now }
    {
        self.here || !self.below.is_empty()
    }

    /// The same trie, with new memory but for key fields, which both hold.
    pub fn copy(&self, alloc: Global) -> Result<Trie, AllocError>
        ensures { IfOk result (λ t. shape t ≡ shape self.now) }
    {
        copied(alloc, self)
    }

    /// Adds a path. On `Err` the paths are as they were.
    pub fn insert(&mut self, alloc: Global, elements: &[Elem]) -> Result<(), AllocError>
        requires { is_trie self.old ≡ true }
        ensures ok { OnOk result (IsInserted self.old (path_view elements.now) self.new) }
        ensures err { OnErr result (shape self.new ≡ shape self.old) }
    {
        match elements {
            [] => {
                self.here = true;
                Ok(())
            }
            [first, rest @ ..] => match search(&self.below, first) {
                Ok(i) => {
                    let child = &mut self.below[i].1;
                    child.insert(alloc, rest)
                }
                Err(place) => {
                    let child = Trie::of_path(alloc, rest)?;
                    put_child(alloc, &mut self.below, place, first, child)
                }
            },
        }
    }

    /// Takes a path out, and tells whether it was there. Takes no memory.
    ///
    /// No child is left without paths.
    pub fn remove(&mut self, elements: &[Elem]) -> bool
        requires { is_trie self.old ≡ true }
        ensures removed { IsRemoved self.old (path_view elements.now) self.new }
        ensures had { result ≡ is_one_of (paths self.old) (path_view elements.now) }
    {
        match elements {
            [] => mem::replace(&mut self.here, false),
            [first, rest @ ..] => match search(&self.below, first) {
                Ok(i) => {
                    let child = &mut self.below[i].1;
                    let had = child.remove(rest);
                    if child.has_paths() {
                        return had;
                    }
                    drop(self.below.remove(i));
                    had
                }
                Err(_) => false,
            },
        }
    }

    /// The place of the path of these elements, where a path is under it.
    pub fn place(&self, elements: &[Elem]) -> Option<&Trie>
        requires { is_trie self.now ≡ true }
        ensures none { IfNone result ((is_one_of (paths self.now) (path_view elements.now) ≡ false)
            × (list_any (under (path_view elements.now)) (paths self.now) ≡ false)) }
        ensures some { IfSome result (λ t. IsPlace self.now (path_view elements.now) t.now) }
    {
        let mut place = self;
        for element in elements {
            match find_child(&place.below, element) {
                Some(child) => place = child,
                None => return None,
            }
        }
        Some(place)
    }
}
