//! At which live places the elements of a configuration's children stand.
ghost use Rattle.std.specs.Prelude.{◌≡◌, ◌==◌, false, is_some, map, true, IfNone, IfOk, IfSome, Some};
ghost use Rattle.std.specs.List.{All};
ghost use Rattle.std.specs.List.Sorted.{IsNonDecreasingBy};
ghost use Rattle.ssa_path.specs.Children.{child_at, elements};
ghost use Rattle.ssa_path.specs.View.{element_view};
ghost use Rattle.ssa_typed.specs.MergedOrder.{live_places, numbers, places, IsNumbered};
ghost use Rattle.ssa_typed.specs.Rows.{are_apart};

use crate::merged_order::Places;
use crate::node::Node;
use ssa_path::children::scan;
use ssa_path::element::Elem;
use ssa_path::sort_key::{element_key, shared_start};
use std::alloc::{AllocError, Global};

// Of so few live children each is looked at for an element: that costs less than numbers for them.
const FEW_LIVE: usize = 32;

// In a longer list so many elements are looked for among all.
const MOST_SCANS: usize = 1;

// By about so many elements it is told what the texts of all begin with.
const SAMPLES: usize = 16;

// Whether the live child at a place has this element.
#[inline(always)]
fn stands_at(live: &[(Elem, Node)], place: usize, element: &Elem) -> bool
    requires { are_apart (elements live.now) ≡ true }
    ensures { result ≡ true → child_at (element_view element.now) (places live.now) ≡ Some place }
{
    place < live.len() && element.is_same(&live[place].0)
}

// The live place of an element where it is the next or the one before the last that was found.
fn place_beside(live: &[(Elem, Node)], last: usize, element: &Elem) -> Option<usize>
    requires { are_apart (elements live.now) ≡ true }
    ensures { IfSome result (λ place. child_at (element_view element.now) (places live.now) ≡ Some place) }
{
    let (next, before) = (last.saturating_add(1), last.saturating_sub(1));
    if stands_at(live, next, element) {
        Some(next)
    } else if stands_at(live, before, element) {
        Some(before)
    } else {
        None
    }
}

// The live place of an element among all of them.
fn place_among(live: &[(Elem, Node)], element: &Elem) -> Option<usize>
    requires { are_apart (elements live.now) ≡ true }
    ensures { child_at (element_view element.now) (places live.now) ≡ result }
{
    scan(live, element)
}

// Beside which place the first element is looked for: the last one, where it stands there, as in the reverse order.
fn first_beside(live: &[(Elem, Node)], config: &[(Elem, Node)]) -> usize {
    match (live, config) {
        ([.., last], [first, ..]) if first.0.is_same(&last.0) => live.len(),
        _ => 0,
    }
}

// The live places, each looked for beside the last one and then among all: where these are few, or where most of those of the
// configuration stand side by side, in the live order or the reverse one.
fn places_scanned(
    alloc: Global,
    live: &[(Elem, Node)],
    config: &[(Elem, Node)],
) -> Result<Option<Vec<Option<usize>>>, AllocError>
    requires { are_apart (elements live.now) ≡ true }
    ensures { IfOk result (λ told. IfSome told (λ v. v.items ≡ live_places live.now config.now)) }
{
    let mut found = Vec::with_capacity(alloc, config.len())?;
    let mut last = first_beside(live, config);
    let mut scans = 0;
    for child in config {
        if let Some(place) = place_beside(live, last, &child.0) {
            found.push(Some(place))?;
            last = place;
            continue;
        }
        if scans >= MOST_SCANS && live.len() > FEW_LIVE {
            return Ok(None);
        }
        let place = place_among(live, &child.0);
        found.push(place)?;
        last = place.unwrap_or(last);
        scans = scans.saturating_add(1);
    }
    Ok(Some(found))
}

// How many bytes the texts of these elements begin with alike, as far as some of them tell, where these have such texts.
fn count_shared(first: &Elem, children: &[(Elem, Node)]) -> Option<usize> {
    let mut shared = usize::MAX;
    let step = children.len() / SAMPLES + 1;
    let mut place = 0;
    while place < children.len() {
        let start = shared_start(first, &children[place..place + 1])?;
        shared = shared.min(start.len());
        place = place.saturating_add(step);
    }
    Some(shared)
}

// The numbers of the live elements behind so many bytes, in order, each with its place.
fn numbered_places(
    alloc: Global,
    first: &Elem,
    skip: usize,
    live: &[(Elem, Node)],
) -> Result<Vec<(u64, usize)>, AllocError>
    ensures { IfOk result (λ v. IsNumbered (numbers (element_view first.now) skip live.now) v.items) }
{
    let mut numbered = Vec::with_capacity(alloc, live.len())?;
    for (i, child) in live.iter().enumerate() {
        numbered.push((element_key(first, skip, &child.0), i))?;
    }
    numbered.sort_by_key(|entry| entry.0)?;
    Ok(numbered)
}

// A place behind this number.
fn numbered_place(numbered: &[(u64, usize)], number: u64) -> Option<usize>
    requires { IsNonDecreasingBy (λ p. p.0) numbered.now }
    ensures { IfNone result (All (λ n. (n == number) ≡ false) (map (λ p. p.0) numbered.now)) }
{
    match numbered.binary_search_by_key(&number, |entry| entry.0) {
        Ok(i) => Some(numbered[i].1),
        Err(_) => None,
    }
}

// The live place of an element, or that it has none, where its number tells that.
fn told_place(
    live: &[(Elem, Node)],
    numbered: &[(u64, usize)],
    first: &Elem,
    skip: usize,
    element: &Elem,
) -> Option<Option<usize>>
    requires apart { are_apart (elements live.now) ≡ true }
    requires numbered { IsNumbered (numbers (element_view first.now) skip live.now) numbered.now }
    ensures { IfSome result (λ place. child_at (element_view element.now) (places live.now) ≡ place) }
{
    match numbered_place(numbered, element_key(first, skip, element)) {
        Some(place) if stands_at(live, place, element) => Some(Some(place)),
        Some(_) => None,
        None => Some(None),
    }
}

// The live places, each told by the number of the element, where they all are: mostly elements of one list have other numbers.
fn places_numbered(
    alloc: Global,
    live: &[(Elem, Node)],
    config: &[(Elem, Node)],
) -> Result<Option<Vec<Option<usize>>>, AllocError>
    requires { are_apart (elements live.now) ≡ true }
    ensures { IfOk result (λ told. IfSome told (λ v. v.items ≡ live_places live.now config.now)) }
{
    let [(first, _), ..] = live else {
        return Ok(None);
    };
    let (Some(live_shared), Some(shared)) = (count_shared(first, live), count_shared(first, config))
    else {
        return Ok(None);
    };
    let skip = live_shared.min(shared);
    let numbered = numbered_places(alloc, first, skip, live)?;
    let mut found = Vec::with_capacity(alloc, config.len())?;
    for child in config {
        let Some(place) = told_place(live, &numbered, first, skip, &child.0) else {
            return Ok(None);
        };
        found.push(place)?;
    }
    Ok(Some(found))
}

// The live places, each searched for by the text of its element.
fn places_searched(
    alloc: Global,
    live: &[(Elem, Node)],
    config: &[(Elem, Node)],
) -> Result<Vec<Option<usize>>, AllocError>
    requires { are_apart (elements live.now) ≡ true }
    ensures { IfOk result (λ v. v.items ≡ live_places live.now config.now) }
{
    let places = &Places::of(alloc, live)?;
    let mut found = Vec::with_capacity(alloc, config.len())?;
    for child in config {
        let place = places.find(&child.0);
        found.push(place)?;
    }
    Ok(found)
}

/// Of each child of the configuration the live place of its element, if it has one.
///
/// Takes about n log n comparisons, however the elements are chosen: none but with neighbours where the live children stand in
/// the configuration's order or the reverse one, mostly of numbers else, and of texts where elements have one number.
pub(crate) fn live_places(
    alloc: Global,
    live: &[(Elem, Node)],
    config: &[(Elem, Node)],
) -> Result<Vec<Option<usize>>, AllocError>
    requires { are_apart (elements live.now) ≡ true }
    ensures { IfOk result (λ v. v.items ≡ live_places live.now config.now) }
{
    if let Some(found) = places_scanned(alloc, live, config)? {
        return Ok(found);
    }
    if let Some(found) = places_numbered(alloc, live, config)? {
        return Ok(found);
    }
    places_searched(alloc, live, config)
}

/// Whether each of the elements was found.
pub(crate) fn all_found(places: &[Option<usize>]) -> bool
    ensures { result ≡ true → All (λ o. is_some o ≡ true) places.now }
{
    for place in places {
        if place.is_none() {
            return false;
        }
    }
    true
}
