//! Another order of a list, by exchanges in place.
ghost use Rattle.std.specs.Prelude.{◌≡◌, length};
ghost use Rattle.std.specs.List.Sorted.{SwapsInRange};
ghost use Rattle.ssa_turn_body.specs.Orders.{reordered};

/// Makes the exchanges one after the other, in place.
pub fn reorder<X>(items: &mut Vec<X>, swaps: &[(usize, usize)])
    requires { SwapsInRange (length items.old.items) swaps.now }
    ensures { items.new.items ≡ reordered items.old.items swaps.now }
{
    for i in 0..swaps.len() {
        let (first, second) = swaps[i];
        items.swap(first, second);
    }
}
