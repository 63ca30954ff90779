//! The order of a list's items after a record: as it is told, or those that stay with those that are
//! put at their places.
ghost use Rattle.std.specs.Prelude.{◌≡◌, ℕ, ◌+◌, List, true, length, map, slice_index_or, Some, None, IfOk};
ghost use Rattle.std.specs.Option.{option_map};
ghost use Rattle.ssa_model.specs.definitions.Carry.{placed_at};
ghost use Rattle.ssa_model.specs.definitions.Path.{Element};
ghost use Rattle.ssa_model.specs.definitions.PathMap.{get};
ghost use Rattle.ssa_path.specs.Children.{elements};
ghost use Rattle.ssa_path.specs.View.{element_view, path_view};
ghost use Rattle.ssa_record.specs.Places.{items_left, maps_of, AllTouched, IsOrderOf, IsRefilled, IsTouchedBelow};
ghost use Rattle.ssa_record.specs.Refilled.{all_below, lent_elements, lent_puts, place_told, puts_told, woven, IsLentOrder};

use crate::places::ToldPlaces;
use ssa_path::element::Elem;
use ssa_path::path::{copy_elements, copy_way};
use ssa_path::trie::Trie;
use ssa_typed::node::Node;
use std::alloc::{AllocError, Global};

// The items that are not cut, in their order.
fn staying<'a>(
    alloc: Global,
    children: &'a [(Elem, Node)],
    told: &ToldPlaces<'_>,
    path: &[Elem],
) -> Result<Vec<&'a Elem>, AllocError>
    ensures { IfOk result (λ es. lent_elements es.items ≡ items_left (maps_of told.now) (path_view path.now) (elements children.now)) }
{
    let mut stays = Vec::new(alloc);
    for (element, _) in children {
        if !told.is_cut(path, element) {
            stays.push(element)?;
        }
    }
    Ok(stays)
}

// The place that is told of a child that is put.
fn told_place(told: &ToldPlaces<'_>, path: &[Elem], element: &Elem) -> Option<Option<usize>>
    ensures { result ≡ place_told (maps_of told.now) (path_view path.now) (element_view element.now) }
{
    let put = told.put_at(path, element)?;
    Some(put.place)
}

// Those of some children that are put, each with its place, unless one has no place.
fn puts_in<'a>(
    alloc: Global,
    below: &'a [(Elem, Trie)],
    told: &ToldPlaces<'_>,
    path: &[Elem],
) -> Result<Option<Vec<(usize, &'a Elem)>>, AllocError>
    ensures { IfOk result (λ o. option_map (λ v. lent_puts v.items) o
        ≡ puts_told (place_told (maps_of told.now) (path_view path.now)) (elements below.now)) }
{
    let mut puts = Vec::new(alloc);
    for (element, _) in below {
        match told_place(told, path, element) {
            None => (),
            Some(None) => return Ok(None),
            Some(Some(place)) => puts.push((place, element))?,
        }
    }
    Ok(Some(puts))
}

// Whether all places are below a number.
fn are_below(puts: &[(usize, &Elem)], count: usize) -> bool
    ensures { result ≡ all_below count puts.now }
{
    for (place, _) in puts {
        if *place >= count {
            return false;
        }
    }
    true
}

// As many slots, each of them free.
fn free_slots<'a>(alloc: Global, count: usize) -> Result<Vec<Option<&'a Elem>>, AllocError>
    ensures long { IfOk result (λ v. length v.items ≡ count) }
    ensures free { IfOk result (λ v. (j : ℕ) → slice_index_or v.items j None ≡ None) }
{
    let mut slots = Vec::with_capacity(alloc, count)?;
    for _i in 0..count {
        slots.push(None)?;
    }
    Ok(slots)
}

// As many slots, in which those that are put stand at their places, the first at each place.
fn slots_of<'a>(
    alloc: Global,
    puts: Vec<(usize, &'a Elem)>,
    count: usize,
) -> Result<Vec<Option<&'a Elem>>, AllocError>
    requires { all_below count puts.items ≡ true }
    ensures long { IfOk result (λ v. length v.items ≡ count) }
    ensures put { IfOk result (λ v. (j : ℕ) → slice_index_or v.items j None ≡ placed_at puts.entry.items j) }
{
    let mut slots = free_slots(alloc, count)?;
    let mut rest = puts;
    while let Some((place, element)) = rest.pop() {
        slots[place] = Some(element);
    }
    Ok(slots)
}

// What stands in the slots, and in the free ones what stays, one after the other.
fn weave<'a>(
    alloc: Global,
    slots: &[Option<&'a Elem>],
    stays: &[&'a Elem],
) -> Result<Vec<&'a Elem>, AllocError>
    ensures { IfOk result (λ v. v.items ≡ woven slots.now stays.now) }
{
    let mut all = Vec::with_capacity(alloc, slots.len())?;
    let mut next = 0;
    for slot in slots {
        match slot {
            Some(element) => all.push(*element)?,
            None => {
                if next < stays.len() {
                    all.push(stays[next])?;
                    next += 1;
                }
            }
        }
    }
    Ok(all)
}

// The items that stay, with those that are put at their places.
fn refilled<'a>(
    alloc: Global,
    children: &'a [(Elem, Node)],
    told: &ToldPlaces<'_>,
    touched: &'a Trie,
    path: &[Elem],
) -> Result<Option<Vec<&'a Elem>>, AllocError>
    requires touched { IsTouchedBelow (maps_of told.now) (path_view path.now) touched.now }
    requires all { AllTouched (maps_of told.now) }
    ensures { IfOk result (λ o. (fs : List Element) → IsRefilled (maps_of told.now) (path_view path.now) (elements children.now) fs
        → IsLentOrder (option_map (λ v. v.items) o) fs) }
{
    let stays = staying(alloc, children, told, path)?;
    let puts = match puts_in(alloc, &touched.below, told, path)? {
        Some(puts) => puts,
        None => return Ok(None),
    };
    let count = stays.len() + puts.len();
    if !are_below(&puts, count) {
        return Ok(None);
    }
    let slots = slots_of(alloc, puts, count)?;
    let all = weave(alloc, &slots, &stays)?;
    Ok(Some(all))
}

/// The elements of a list's items after a record, where it says which they are. Takes no more memory
/// than the items have that are there, come or are told, however large the places are.
pub fn order_after<'a>(
    alloc: Global,
    children: &'a [(Elem, Node)],
    told: &ToldPlaces<'_>,
    touched: &'a Trie,
    path: &[Elem],
) -> Result<Option<Vec<Elem>>, AllocError>
    requires touched { IsTouchedBelow (maps_of told.now) (path_view path.now) touched.now }
    requires all { AllTouched (maps_of told.now) }
    ensures told { IfOk result (λ o. (gs : List Element) → get (maps_of told.now).order (path_view path.now) ≡ Some gs
        → IsOrderOf (option_map (λ v. v.items) o) gs) }
    ensures refilled { IfOk result (λ o. get (maps_of told.now).order (path_view path.now) ≡ None
        → (fs : List Element) → IsRefilled (maps_of told.now) (path_view path.now) (elements children.now) fs
        → IsOrderOf (option_map (λ v. v.items) o) fs) }
{
    if let Some(items) = told.order_at(path) {
        let order = copy_elements(alloc, items)?;
        return Ok(Some(order));
    }
    match refilled(alloc, children, told, touched, path)? {
        Some(lent) => {
            let order = copy_way(alloc, &lent)?;
            Ok(Some(order))
        }
        None => Ok(None),
    }
}
