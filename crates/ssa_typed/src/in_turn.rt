//! The children of a configuration's place that the live place has too, in the configuration's order.
ghost use Rattle.std.specs.Prelude.{◌≡◌, filter, true, IfOk};
ghost use Rattle.ssa_path.specs.Children.{elements};
ghost use Rattle.ssa_typed.specs.MergedOrder.{is_new, is_old, live_places, AreTurns};
ghost use Rattle.ssa_typed.specs.Rows.{are_apart};

use crate::node::Node;
use indexmap::IndexSet;
use ssa_path::element::Elem;
use std::alloc::{AllocError, Global};

/// The children of a configuration's place, none of them lost.
#[derive(Drop)]
pub(crate) struct InTurn {
    /// The live places that are refilled, in the order of the children that come there.
    pub places: IndexSet<usize>,
    /// Those that the live place has too, in the configuration's order, each under the live place of its element.
    pub own: Vec<(Elem, Node)>,
    /// What the configuration alone has, in its order.
    pub new: Vec<(Elem, Node)>,
}

/// The configuration's children, sorted out by the live ones, where the live place of each is found.
///
/// The set holds numbers of places, so that no text is hashed, however the elements are chosen.
pub(crate) fn in_turn(
    alloc: Global,
    live: &[(Elem, Node)],
    config: Vec<(Elem, Node)>,
    found: Vec<Option<usize>>,
) -> Result<InTurn, AllocError>
    requires live { are_apart (elements live.now) ≡ true }
    requires config { are_apart (elements config.items) ≡ true }
    requires found { found.items ≡ live_places live.now config.items }
    ensures own { IfOk result (λ s. s.own.items ≡ filter (is_old live.now) config.items) }
    ensures new { IfOk result (λ s. s.new.items ≡ filter (is_new live.now) config.items) }
    ensures turns { IfOk result (λ s. AreTurns live.now config.items s.places.keys s.own.items) }
{
    let most = live.len().min(config.len());
    let mut places = IndexSet::with_capacity(alloc, most)?;
    let mut own = Vec::with_capacity(alloc, most)?;
    let mut new = Vec::new(alloc);
    let mut i = 0;
    for child in config {
        let place = found[i];
        i += 1;
        match place {
            Some(place) => {
                places.insert(place)?;
                own.push(child)?;
            }
            None => new.push(child)?,
        }
    }
    Ok(InTurn { places, own, new })
}
