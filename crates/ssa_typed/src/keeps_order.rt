//! Whether the items that a live tree and a configuration both have stand in one order, list by list.
ghost use Rattle.std.specs.Prelude.{◌≡◌, ◌↔◌, is_some, not, true, IfOk, IfSome, IsTrue, Some};
ghost use Rattle.ssa_model.specs.definitions.Record.{are_in_one_order, is_reordered};
ghost use Rattle.ssa_path.specs.Children.{elements};
ghost use Rattle.ssa_typed.specs.KeepsOrder.{TreeKeepsOrder};
ghost use Rattle.ssa_typed.specs.MergedOrder.{ArePlacesOf};
ghost use Rattle.ssa_typed.specs.Rows.{are_apart, below, is_tree, own_content};

use crate::merged_order::Places;
use crate::node::Node;
use ssa_path::element::Elem;
use std::alloc::{AllocError, Global};

// How often a child was not found at the place looked at first.
fn count_misses(misses: usize, near: usize, place: Option<usize>) -> usize {
    if place == Some(near) {
        misses
    } else {
        misses.saturating_add(1)
    }
}

// The live places, where those of the items that both have rise in the configuration's order: where these stand in one order.
// Another order is mostly told by one of the first items, so that the live ones are only put in order once some were looked for.
fn rising_places<'a>(
    alloc: Global,
    live: &'a [(Elem, Node)],
    config: &[(Elem, Node)],
) -> Result<Option<Places<'a>>, AllocError>
    requires apart { are_apart (elements live.now) ≡ true }
    requires config_apart { are_apart (elements config.now) ≡ true }
    ensures order { IfOk result (λ found. is_some found ≡ are_in_one_order (elements live.now) (elements config.now)) }
    ensures places { IfOk result (λ found. IfSome found (ArePlacesOf live.now)) }
{
    let mut places = Places::AsTheyStand(live);
    let (mut next, mut misses) = (0, 0);
    for child in config {
        places = places.after_misses(alloc, live, misses)?;
        let found = places.find_near(live, next, &child.0);
        misses = count_misses(misses, next, found);
        match found {
            Some(place) => {
                if place < next {
                    return Ok(None);
                }
                next = place + 1;
            }
            None => (),
        }
    }
    Ok(Some(places))
}

// The live places, where no items of both are in another order: only lists have one.
fn places_in_one_order<'a>(
    alloc: Global,
    live: &'a Node,
    config: &Node,
) -> Result<Option<Places<'a>>, AllocError>
    requires live { is_tree live.now ≡ true }
    requires config { is_tree config.now ≡ true }
    ensures order { IfOk result (λ found. is_some found ≡ not (is_reordered (Some (own_content live.now)) (Some (own_content config.now)))) }
    ensures places { IfOk result (λ found. IfSome found (ArePlacesOf (below live.now))) }
{
    match (live, config) {
        (Node::List(own), Node::List(others)) => rising_places(alloc, own, others),
        _ => Ok(Some(Places::below(live))),
    }
}

/// Whether, wherever both trees have a list, the items of both stand in one order.
///
/// Where the children of both are alike nothing is looked for and no memory is taken, and where the order is another this is
/// told by the first items mostly; else takes about n log n comparisons for n items of a list.
pub(crate) fn keeps_order(alloc: Global, live: &Node, config: &Node) -> Result<bool, AllocError>
    requires live { is_tree live.now ≡ true }
    requires config { is_tree config.now ≡ true }
    ensures { IfOk result (λ b. IsTrue b ↔ TreeKeepsOrder live.now config.now) }
{
    let Some(places) = places_in_one_order(alloc, live, config)? else {
        return Ok(false);
    };
    let places = &places;
    let (own, others) = (live.children(), config.children());
    let mut near = 0;
    for child in others {
        match places.find_near(own, near, &child.0) {
            Some(place) => {
                if !keeps_order(alloc, &own[place].1, &child.1)? {
                    return Ok(false);
                }
                near = place + 1;
            }
            None => (),
        }
    }
    Ok(true)
}
