//! Whether two lists have the same items, in whatever order these stand.
ghost use Rattle.std.specs.Prelude.{◌≡◌, [], true, IfOk};
ghost use Rattle.ssa_path.specs.Children.{elements};
ghost use Rattle.ssa_typed.specs.Rows.{are_apart, are_trees};
ghost use Rattle.ssa_typed.specs.Same.{AreLeft};

use crate::live_places::live_places;
use crate::node::Node;
use ssa_path::element::Elem;
use std::alloc::{AllocError, Global};

// Whether both lists begin with the same item, which then is not the same below: they differ in more than their order.
fn begin_alike(own: &[(Elem, Node)], others: &[(Elem, Node)]) -> bool {
    match (own, others) {
        ([first, ..], [other, ..]) => first.0.is_same(&other.0),
        _ => false,
    }
}

/// Whether both lists have the same items, so that none is left of either: lists that do not begin with the same item. Of lists of
/// which it answers `false` nothing is promised.
///
/// Takes about n log n comparisons, as [`live_places`] does.
pub(crate) fn are_same_items(
    alloc: Global,
    own: &[(Elem, Node)],
    others: &[(Elem, Node)],
) -> Result<bool, AllocError>
    requires own { are_trees own.now ≡ true }
    requires others { are_trees others.now ≡ true }
    requires own_apart { are_apart (elements own.now) ≡ true }
    requires others_apart { are_apart (elements others.now) ≡ true }
    ensures { IfOk result (λ b. b ≡ true → AreLeft own.now others.now [] []) }
{
    if own.len() != others.len() || begin_alike(own, others) {
        return Ok(false);
    }
    let places = live_places(alloc, own, others)?;
    for (i, other) in others.iter().enumerate() {
        let Some(place) = places[i] else {
            return Ok(false);
        };
        if !own[place].1.is_same(&other.1) {
            return Ok(false);
        }
    }
    Ok(true)
}
