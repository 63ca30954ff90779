//! Whether the tags of keys tell already that no two keys are one.
ghost use Rattle.std.specs.Prelude.{◌≡◌, [], map, None, IfOk, IsTrue};
ghost use Rattle.std.specs.List.Sorted.{IsStrictlyIncreasing};
ghost use Rattle.ssa_schema.specs.Repeats.{key_tag, row_view, same_row, repeat_from};

use crate::fit::item_key::ItemKey;
use std::alloc::{AllocError, Global};

// The tags of the keys.
fn tags_of(alloc: Global, keys: &[ItemKey]) -> Result<Vec<u64>, AllocError>
    ensures { IfOk result (λ tags. tags.items ≡ map key_tag keys.now) }
{
    let mut tags = Vec::with_capacity(alloc, keys.len())?;
    for key in keys {
        tags.push(key.tag())?;
    }
    Ok(tags)
}

// Whether each number is below the next.
fn rise(numbers: &[u64]) -> bool
    ensures { IsTrue result → IsStrictlyIncreasing numbers.now }
{
    let mut i: usize = 1;
    'numbers: while i < numbers.len() {
        if numbers[i - 1] >= numbers[i] {
            return false;
        }
        i += 1;
    }
    true
}

/// Whether all keys have different tags, so that none equals an earlier one. Keys that differ mostly
/// have: then their tags alone are put in order, and no keys.
pub fn have_distinct_tags(alloc: Global, keys: &[ItemKey]) -> Result<bool, AllocError>
    ensures { IfOk result (λ distinct. IsTrue distinct → repeat_from same_row 0 [] (map row_view keys.now) ≡ None) }
{
    let mut tags = tags_of(alloc, keys)?;
    tags.sort()?;
    Ok(rise(&tags))
}
