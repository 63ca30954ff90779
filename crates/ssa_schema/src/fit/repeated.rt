//! The first item of a list that equals an earlier one.
ghost use Rattle.std.specs.Prelude.{◌≡◌, [], map, IfOk};
ghost use Rattle.std.specs.List.{list_any};
ghost use Rattle.ssa_schema.specs.Repeats.{row_view, same_row, repeat_from, is_other, lesser, least_repeat, same_tagged, placed_view};

use crate::fit::distinct_tags::have_distinct_tags;
use crate::fit::item_key::ItemKey;
use crate::fit::tagged_key::TaggedKey;
use std::alloc::{AllocError, Global};

// The most keys that are compared each with those in front of it. Few lists of small objects have more
// items, and that costs less than putting so few in order, and takes no memory.
const FEW: usize = 4;

// Whether the key is one of these.
#[inline(always)]
fn is_one_of(keys: &[ItemKey], key: &ItemKey) -> bool
    ensures { result ≡ list_any (same_row (row_view key.now)) (map row_view keys.now) }
{
    for other in keys {
        if key.is_same(other) {
            return true;
        }
    }
    false
}

// The place of the first key that equals an earlier one, found by comparing each with those in front of it.
fn repeat_in_pairs(keys: &[ItemKey]) -> Option<usize>
    ensures { result ≡ repeat_from same_row 0 [] (map row_view keys.now) }
{
    for (place, key) in keys.iter().enumerate() {
        if is_one_of(&keys[..place], key) {
            return Some(place);
        }
    }
    None
}

// The lesser of the numbers, where the first is there.
fn lesser(least: Option<usize>, place: usize) -> Option<usize>
    ensures { result ≡ lesser least place }
{
    match least {
        None => Some(place),
        Some(least) => {
            if place < least {
                Some(place)
            } else {
                Some(least)
            }
        }
    }
}

// The least place of one that equals the one in front of it.
fn least_repeat(sorted: &[TaggedKey]) -> Option<usize>
    ensures { result ≡ least_repeat same_tagged (placed_view sorted.now) }
{
    let [first, rest @ ..] = sorted else {
        return None;
    };
    let mut least = None;
    let mut last = first;
    for next in rest {
        if last.order(next).is_eq() {
            least = lesser(least, next.place);
        }
        last = next;
    }
    least
}

// The place of the first key that equals an earlier one, found among the keys in order.
fn repeat_in_order(alloc: Global, keys: &[ItemKey]) -> Result<Option<usize>, AllocError>
    ensures { IfOk result (λ place. place ≡ repeat_from same_row 0 [] (map row_view keys.now)) }
{
    let mut placed = Vec::with_capacity(alloc, keys.len())?;
    for (place, key) in keys.iter().enumerate() {
        placed.push(TaggedKey::new(place, key))?;
    }
    placed.sort_by(|own, other| own.order(other))?;
    Ok(least_repeat(&placed))
}

/// The place of the first key that equals an earlier one. Takes about n log n comparisons, mostly of
/// numbers alone. Few keys are compared each with those in front of it, which takes no memory.
pub fn first_repeat(alloc: Global, keys: &[ItemKey]) -> Result<Option<usize>, AllocError>
    ensures { IfOk result (λ place. place ≡ repeat_from same_row 0 [] (map row_view keys.now)) }
{
    if keys.len() <= FEW {
        return Ok(repeat_in_pairs(keys));
    }
    if have_distinct_tags(alloc, keys)? {
        return Ok(None);
    }
    repeat_in_order(alloc, keys)
}

/// Whether the one at a place is not the one that was found.
pub fn is_other(found: Option<usize>, place: usize) -> bool
    ensures { result ≡ is_other found place }
{
    match found {
        None => true,
        Some(found) => found != place,
    }
}
