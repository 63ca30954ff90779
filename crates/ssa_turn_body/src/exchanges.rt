//! Exchanges of two places that bring a list into another order.
ghost use Rattle.std.specs.Prelude.{◌≡◌, ◌≤◌, [], length, IfOk};
ghost use Rattle.std.specs.List.{range_with_len};
ghost use Rattle.std.specs.List.Sorted.{SwapsInRange};
ghost use Rattle.ssa_turn_body.specs.Orders.{reordered, AreWithin, AreDistinct};

use std::alloc::{AllocError, Global};

// The numbers below this one, as they rise.
fn numbers(alloc: Global, count: usize) -> Result<Vec<usize>, AllocError>
    ensures { IfOk result (λ v. v.items ≡ range_with_len 0 count) }
{
    let mut numbers = Vec::with_capacity(alloc, count)?;
    for i in 0..count {
        numbers.push(i)?;
    }
    Ok(numbers)
}

/// The exchanges that put at each place what stood at the place that is wanted there.
///
/// One pass over the places, of which each is exchanged once at most; what stands where it is wanted is
/// not exchanged, so there are none where all does.
pub fn exchanges_between(alloc: Global, wanted: &[usize]) -> Result<Vec<(usize, usize)>, AllocError>
    requires within { AreWithin (length wanted.now) wanted.now }
    requires apart { AreDistinct wanted.now }
    ensures range { IfOk result (λ v. SwapsInRange (length wanted.now) v.items) }
    ensures few { IfOk result (λ v. length v.items ≤ length wanted.now) }
    ensures none { IfOk result (λ v. wanted.now ≡ range_with_len 0 (length wanted.now) → v.items ≡ []) }
    ensures order { IfOk result (λ v. reordered (range_with_len 0 (length wanted.now)) v.items ≡ wanted.now) }
{
    let mut order = numbers(alloc, wanted.len())?;
    let mut places = numbers(alloc, wanted.len())?;
    let mut swaps = Vec::new(alloc);
    for i in 0..wanted.len() {
        let here = order[i];
        let next = wanted[i];
        let place = places[next];
        if place == i {
            continue;
        }
        swaps.push((i, place))?;
        order.swap(i, place);
        places[here] = place;
        places[next] = i;
    }
    Ok(swaps)
}
