//! The walk over a live tree along the places that go.
ghost use Rattle.std.specs.Prelude.{◌≡◌, None, true, IfOk, OnOk};
ghost use Rattle.ssa_path.specs.Children.{elements, rises};
ghost use Rattle.ssa_path.specs.Listing.{way_view};
ghost use Rattle.ssa_path.specs.Trie.{are_filled_tries};
ghost use Rattle.ssa_path.specs.View.{element_view};
ghost use Rattle.ssa_typed.specs.Rows.{is_tree};
ghost use Rattle.ssa_turn_body.specs.Applying.{behind, gone_below, IsApplying, IsMet, MayPart};
ghost use Rattle.ssa_turn_body.specs.Turnovers.{passing};

use crate::steps::Step;
use crate::turnover::Turnover;
use ssa_path::children::find_child;
use ssa_path::element::Elem;
use ssa_path::trie::Trie;
use ssa_typed::node::Node;
use std::alloc::{AllocError, Global};

/// A live child that the configuration lacks: whether it stays. A child that has none of the places
/// that go is not looked at.
#[cycle(going)]
pub(crate) fn leave_alone<'a>(
    alloc: Global,
    way: &mut Vec<&'a Elem>,
    child: &'a (Elem, Node),
    place: usize,
    gone: &[(Elem, Trie)],
    turnover: &mut Turnover,
    steps: &mut Vec<Step>,
) -> Result<bool, AllocError>
    requires tree { is_tree child.now.1 ≡ true }
    requires rise { rises (elements gone.now) ≡ true }
    requires tries { are_filled_tries gone.now ≡ true }
    requires may { MayPart (behind (element_view child.now.0) (gone_below gone.now)) child.now.1 None }
    ensures way { OnOk result (way.new.items ≡ way.old.items) }
    ensures met { IfOk result (λ stays. IsMet stays place (way_view way.old.items) (gone_below gone.now) child.now None (passing turnover.old) (passing turnover.new) steps.old.items steps.new.items) }
{
    let Some(lost) = find_child(gone, &child.0) else {
        return Ok(true);
    };
    if lost.here {
        turnover.goes(alloc, place, &child.0)?;
        return Ok(false);
    }
    way.push(&child.0)?;
    without(alloc, way, &child.1, &lost.below, steps)?;
    let _ = way.pop();
    Ok(true)
}

/// The changes that lead from a live tree to what stays of it without the places that go, behind the
/// others.
#[cycle(going)]
fn without<'a>(
    alloc: Global,
    way: &mut Vec<&'a Elem>,
    live: &'a Node,
    gone: &[(Elem, Trie)],
    steps: &mut Vec<Step>,
) -> Result<(), AllocError>
    requires tree { is_tree live.now ≡ true }
    requires rise { rises (elements gone.now) ≡ true }
    requires tries { are_filled_tries gone.now ≡ true }
    requires may { MayPart (gone_below gone.now) live.now None }
    ensures way { OnOk result (way.new.items ≡ way.old.items) }
    ensures applied { OnOk result (IsApplying (way_view way.old.items) (gone_below gone.now) live.now None steps.old.items steps.new.items) }
{
    let mut turnover = Turnover::none(alloc);
    let mut count: usize = 0;
    for (i, child) in live.children().iter().enumerate() {
        if leave_alone(alloc, way, child, i, gone, &mut turnover, steps)? {
            count += 1;
        }
    }
    turnover.push_edit(alloc, way, count, steps)?;
    Ok(())
}
