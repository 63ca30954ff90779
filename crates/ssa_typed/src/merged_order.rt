//! The children of a configuration's place, sorted out by those of the live place.
ghost use Rattle.std.specs.Prelude.{◌≡◌, List, [], map, filter, true, IfOk, Some};
ghost use Rattle.ssa_path.specs.Children.{child_at, elements, rises};
ghost use Rattle.ssa_path.specs.View.{element_view};
ghost use Rattle.ssa_typed.specs.InOrder.{IsInOrder};
ghost use Rattle.ssa_typed.specs.MergedOrder.{beside, is_new, lent_place, places, ArePlacesOf};
ghost use Rattle.ssa_typed.specs.Rows.{are_apart, below, is_tree};

use crate::live_places::live_places;
use crate::node::Node;
use ssa_path::children::{FEW, find, scan};
use ssa_path::element::Elem;
use std::alloc::{AllocError, Global};

// So many children are looked for among all that stand there before these are put in order.
const MOST_SCANS: usize = 4;

/// The children of a configuration's place, none of them lost.
#[derive(Drop)]
pub struct SortedOut {
    /// For each live child the configuration's child of its element, if there is one.
    pub beside: Vec<Option<(Elem, Node)>>,
    /// What the configuration alone has, in its order.
    pub new: Vec<(Elem, Node)>,
}

/// The elements of children in order, each with the child's place.
///
/// Takes about n log n comparisons.
pub fn places_in_order<'a>(
    alloc: Global,
    children: &'a [(Elem, Node)],
) -> Result<Vec<(&'a Elem, usize)>, AllocError>
    requires { are_apart (elements children.now) ≡ true }
    ensures { IfOk result (λ v. IsInOrder (places children.now) (map lent_place v.items)) }
{
    let mut sorted = Vec::with_capacity(alloc, children.len())?;
    for (i, child) in children.iter().enumerate() {
        sorted.push((&child.0, i))?;
    }
    sorted.sort_by(|own, other| own.0.order(other.0))?;
    Ok(sorted)
}

/// The place of the child of this element, among elements in order.
pub fn find_place(sorted: &[(&Elem, usize)], element: &Elem) -> Option<usize>
    requires { rises (elements (map lent_place sorted.now)) ≡ true }
    ensures { result ≡ child_at (element_view element.now) (map lent_place sorted.now) }
{
    match sorted.binary_search_by(|entry| entry.0.order(element)) {
        Ok(i) => {
            let found = sorted[i];
            Some(found.1)
        }
        Err(_) => None,
    }
}

/// Where the children of a live place stand, to be found by their elements.
#[derive(Drop)]
pub(crate) enum Places<'a> {
    /// Few children, each of which is looked at.
    AsTheyStand(&'a [(Elem, Node)]),
    /// The fields of a record or the entries of a Dict, which rise.
    Rising(&'a [(Elem, Node)]),
    /// The elements of many in order, each with its place.
    InOrder(Vec<(&'a Elem, usize)>),
}

impl<'a> Places<'a> {
    // The places of live children. To put a few in order would cost more than to look at each.
    pub(crate) fn of(alloc: Global, live: &'a [(Elem, Node)]) -> Result<Places<'a>, AllocError>
        requires { are_apart (elements live.now) ≡ true }
        ensures { IfOk result (ArePlacesOf live.now) }
    {
        if live.len() <= FEW {
            return Ok(Places::AsTheyStand(live));
        }
        let sorted = places_in_order(alloc, live)?;
        Ok(Places::InOrder(sorted))
    }

    // The places of the children of a live node: the fields of a record and the entries of a Dict rise.
    pub(crate) fn below(live: &'a Node) -> Places<'a>
        requires { is_tree live.now ≡ true }
        ensures { ArePlacesOf (below live.now) result }
    {
        let children = live.children();
        match live {
            Node::Leaf(_) => Places::AsTheyStand(children),
            Node::Branch(_) => Places::Rising(children),
            Node::Dict(_) => Places::Rising(children),
            Node::List(_) => Places::AsTheyStand(children),
        }
    }

    // The same places, put in order once children were not found near so often.
    pub(crate) fn after_misses(
        self,
        alloc: Global,
        live: &'a [(Elem, Node)],
        misses: usize,
    ) -> Result<Places<'a>, AllocError>
        requires places { ArePlacesOf live.now self }
        requires apart { are_apart (elements live.now) ≡ true }
        ensures { IfOk result (ArePlacesOf live.now) }
    {
        match self {
            Places::AsTheyStand(_) if misses >= MOST_SCANS => Places::of(alloc, live),
            places => Ok(places),
        }
    }

    // The place of the live child of this element, looked for first at `near`.
    #[inline(always)]
    pub(crate) fn find_near(
        &self,
        live: &[(Elem, Node)],
        near: usize,
        element: &Elem,
    ) -> Option<usize>
        requires places { ArePlacesOf live.now self.now }
        requires apart { are_apart (elements live.now) ≡ true }
        ensures { child_at (element_view element.now) (places live.now) ≡ result }
    {
        if near < live.len() && element.is_same(&live[near].0) {
            return Some(near);
        }
        self.find(element)
    }

    // The place of the live child of this element.
    pub(crate) fn find(&self, element: &Elem) -> Option<usize>
        requires { (live : List (Elem × Node)) × ArePlacesOf live self.now }
        ensures { (live : List (Elem × Node)) → ArePlacesOf live self.now → child_at (element_view element.now) (places live) ≡ result }
    {
        match self {
            Places::AsTheyStand(live) => scan(live, element),
            Places::Rising(live) => find(live, element),
            Places::InOrder(sorted) => find_place(sorted, element),
        }
    }
}

// Nothing beside each live child.
fn none_beside(
    alloc: Global,
    live: &[(Elem, Node)],
) -> Result<Vec<Option<(Elem, Node)>>, AllocError>
    ensures { IfOk result (λ v. v.items ≡ map (beside []) live.now) }
{
    let mut none = Vec::with_capacity(alloc, live.len())?;
    for _child in live {
        none.push(None)?;
    }
    Ok(none)
}

// Puts a child into a place.
fn put(place: &mut Option<(Elem, Node)>, child: (Elem, Node))
    ensures { place.new ≡ Some child }
{
    *place = Some(child);
}

/// The configuration's children, each moved beside the live child of its element or among the new
/// ones.
///
/// Takes about n log n comparisons, however the elements are chosen.
pub fn sorted_out(
    alloc: Global,
    live: &[(Elem, Node)],
    config: Vec<(Elem, Node)>,
) -> Result<SortedOut, AllocError>
    requires live { are_apart (elements live.now) ≡ true }
    requires config { are_apart (elements config.items) ≡ true }
    ensures beside { IfOk result (λ s. s.beside.items ≡ map (beside config.items) live.now) }
    ensures new { IfOk result (λ s. s.new.items ≡ filter (is_new live.now) config.items) }
{
    let found = live_places(alloc, live, &config)?;
    let mut beside = none_beside(alloc, live)?;
    let mut new = Vec::new(alloc);
    let mut i = 0;
    for child in config {
        let place = found[i];
        i += 1;
        match place {
            Some(place) => put(&mut beside[place], child),
            None => new.push(child)?,
        }
    }
    Ok(SortedOut { beside, new })
}
