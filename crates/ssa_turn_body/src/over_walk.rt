//! The walk over a live tree and a configuration that is put over it, along the places that go.
ghost use Rattle.std.specs.Prelude.{◌≡◌, ◌∷◌, ◌++◌, [], None, Some, true, option_map, IfOk, OnOk};
ghost use Rattle.ssa_model.specs.definitions.Body.{list_branch};
ghost use Rattle.ssa_path.specs.Children.{child_at, elements, rises};
ghost use Rattle.ssa_path.specs.Listing.{way_view};
ghost use Rattle.ssa_path.specs.Trie.{are_filled_tries};
ghost use Rattle.ssa_path.specs.View.{element_view};
ghost use Rattle.ssa_typed.specs.Over.{AreAlikeBelow, AreAlikeTrees};
ghost use Rattle.ssa_typed.specs.Rows.{are_trees, below, is_tree, own_content};
ghost use Rattle.ssa_turn_body.specs.Applying.{behind, gone_below, is_named, IsApplying, IsApplyingBelow, IsMet, MayPart, MayPartBelow, node_of, IsAlikeOver};
ghost use Rattle.ssa_turn_body.specs.Marks.{may_stand};
ghost use Rattle.ssa_turn_body.specs.Turnovers.{passing};

use crate::going::leave_alone;
use crate::steps::Step;
use crate::turnover::{Turnover, all_come};
use crate::walk::{is_same_leaf, push_leaf};
use ssa_path::children::find_child;
use ssa_path::element::Elem;
use ssa_path::trie::Trie;
use ssa_typed::in_order::stand_alike;
use ssa_typed::merged_order::sorted_out;
use ssa_typed::node::Node;
use ssa_typed::over::order_beside;
use std::alloc::{AllocError, Global};
use std::cmp::Ordering;
use std::collections::VecDeque;
use std::mem;

// A child that both have, the configuration's over the live one. Most children are leaves that stay
// as they are.
#[cycle(over)]
#[inline(always)]
fn over_child<'a>(
    alloc: Global,
    way: &mut Vec<&'a Elem>,
    live: &'a (Elem, Node),
    config: &mut Node,
    gone: &[(Elem, Trie)],
    steps: &mut Vec<Step>,
) -> Result<(), AllocError>
    requires live { is_tree live.now.1 ≡ true }
    requires config { is_tree config.old ≡ true }
    requires alike { AreAlikeTrees live.now.1 config.old }
    requires rise { rises (elements gone.now) ≡ true }
    requires tries { are_filled_tries gone.now ≡ true }
    requires may { MayPart (behind (element_view live.now.0) (gone_below gone.now)) live.now.1 (Some config.old) }
    ensures way { OnOk result (way.new.items ≡ way.old.items) }
    ensures applied { OnOk result (IsApplying (way_view way.old.items ++ element_view live.now.0 ∷ []) (behind (element_view live.now.0) (gone_below gone.now)) live.now.1 (Some config.old) steps.old.items steps.new.items) }
{
    if is_same_leaf(&live.1, config) {
        return Ok(());
    }
    way.push(&live.0)?;
    match find_child(gone, &live.0) {
        Some(lost) => over(alloc, way, &live.1, config, &lost.below, steps)?,
        None => over(alloc, way, &live.1, config, &[], steps)?,
    }
    let _ = way.pop();
    Ok(())
}

// A child that both have, where the configuration's is given away.
#[cycle(over)]
fn over_given<'a>(
    alloc: Global,
    way: &mut Vec<&'a Elem>,
    live: &'a (Elem, Node),
    config: (Elem, Node),
    gone: &[(Elem, Trie)],
    steps: &mut Vec<Step>,
) -> Result<(), AllocError>
    requires live { is_tree live.now.1 ≡ true }
    requires config { is_tree config.1 ≡ true }
    requires alike { AreAlikeTrees live.now.1 config.1 }
    requires rise { rises (elements gone.now) ≡ true }
    requires tries { are_filled_tries gone.now ≡ true }
    requires may { MayPart (behind (element_view live.now.0) (gone_below gone.now)) live.now.1 (Some config.1) }
    ensures way { OnOk result (way.new.items ≡ way.old.items) }
    ensures applied { OnOk result (IsApplying (way_view way.old.items ++ element_view live.now.0 ∷ []) (behind (element_view live.now.0) (gone_below gone.now)) live.now.1 (Some config.1) steps.old.items steps.new.items) }
{
    let mut own = config;
    over_child(alloc, way, live, &mut own.1, gone, steps)
}

// A live child with the configuration's of its element, if there is one: whether it stays.
#[cycle(over)]
fn over_slot<'a>(
    alloc: Global,
    way: &mut Vec<&'a Elem>,
    live: &'a (Elem, Node),
    place: usize,
    config: Option<(Elem, Node)>,
    gone: &[(Elem, Trie)],
    turnover: &mut Turnover,
    steps: &mut Vec<Step>,
) -> Result<bool, AllocError>
    requires live { is_tree live.now.1 ≡ true }
    requires config { IsAlikeOver live.now.1 (node_of config) }
    requires rise { rises (elements gone.now) ≡ true }
    requires tries { are_filled_tries gone.now ≡ true }
    requires may { MayPart (behind (element_view live.now.0) (gone_below gone.now)) live.now.1 (node_of config) }
    ensures way { OnOk result (way.new.items ≡ way.old.items) }
    ensures met { IfOk result (λ stays. IsMet stays place (way_view way.old.items) (gone_below gone.now) live.now (node_of config) (passing turnover.old) (passing turnover.new) steps.old.items steps.new.items) }
{
    match config {
        Some(own) => {
            over_given(alloc, way, live, own, gone, steps)?;
            Ok(true)
        }
        None => leave_alone(alloc, way, live, place, gone, turnover, steps),
    }
}

// The configuration's children over live ones of the same elements in the same order: nothing goes
// and nothing comes.
#[cycle(over)]
fn over_alike<'a>(
    alloc: Global,
    way: &mut Vec<&'a Elem>,
    live: &'a Node,
    config: &mut Vec<(Elem, Node)>,
    gone: &[(Elem, Trie)],
    steps: &mut Vec<Step>,
) -> Result<(), AllocError>
    requires live { is_tree live.now ≡ true }
    requires config { are_trees config.old.items ≡ true }
    requires same { elements (below live.now) ≡ elements config.old.items }
    requires stand { may_stand (own_content live.now) (elements config.old.items) ≡ true }
    requires alike { AreAlikeBelow (below live.now) config.old.items }
    requires rise { rises (elements gone.now) ≡ true }
    requires tries { are_filled_tries gone.now ≡ true }
    requires may { MayPartBelow (gone_below gone.now) live.now config.old.items }
    ensures way { OnOk result (way.new.items ≡ way.old.items) }
    ensures applied { OnOk result (IsApplyingBelow (way_view way.old.items) (gone_below gone.now) live.now config.old.items steps.old.items steps.new.items) }
{
    let own = live.children();
    for i in 0..config.len() {
        let other = &mut config[i];
        over_child(alloc, way, &own[i], &mut other.1, gone, steps)?;
    }
    Ok(())
}

// The configuration's fields or entries over the live ones, found by one walk over both, which rise.
#[cycle(over)]
fn over_named<'a>(
    alloc: Global,
    way: &mut Vec<&'a Elem>,
    live: &'a Node,
    config: Vec<(Elem, Node)>,
    gone: &[(Elem, Trie)],
    steps: &mut Vec<Step>,
) -> Result<(), AllocError>
    requires live { is_tree live.now ≡ true }
    requires named { is_named (own_content live.now) ≡ true }
    requires config { are_trees config.items ≡ true }
    requires stand { may_stand (own_content live.now) (elements config.items) ≡ true }
    requires alike { AreAlikeBelow (below live.now) config.items }
    requires rise { rises (elements gone.now) ≡ true }
    requires tries { are_filled_tries gone.now ≡ true }
    requires may { MayPartBelow (gone_below gone.now) live.now config.items }
    ensures way { OnOk result (way.new.items ≡ way.old.items) }
    ensures applied { OnOk result (IsApplyingBelow (way_view way.old.items) (gone_below gone.now) live.now config.items steps.old.items steps.new.items) }
{
    let own = live.children();
    let mut left = VecDeque::from(config);
    let mut turnover = Turnover::none(alloc);
    let (mut i, mut count) = (0, 0);
    while let Some(order) = order_beside(own, i, &left) {
        match order {
            Ordering::Less => {
                if leave_alone(alloc, way, &own[i], i, gone, &mut turnover, steps)? {
                    count += 1;
                }
                i += 1;
            }
            Ordering::Greater => {
                let new = left.pop_front().unwrap();
                turnover.comes(alloc, count, new)?;
                count += 1;
            }
            Ordering::Equal => {
                let other = left.pop_front().unwrap();
                over_given(alloc, way, &own[i], other, gone, steps)?;
                i += 1;
                count += 1;
            }
        }
    }
    turnover.push_edit(alloc, way, count, steps)?;
    Ok(())
}

// The configuration's items over the live ones: these in their order, and behind them what the
// configuration alone has, in its order.
#[cycle(over)]
fn over_items<'a>(
    alloc: Global,
    way: &mut Vec<&'a Elem>,
    live: &'a Node,
    config: Vec<(Elem, Node)>,
    gone: &[(Elem, Trie)],
    steps: &mut Vec<Step>,
) -> Result<(), AllocError>
    requires live { is_tree live.now ≡ true }
    requires listed { own_content live.now ≡ list_branch (elements (below live.now)) }
    requires config { are_trees config.items ≡ true }
    requires stand { may_stand (own_content live.now) (elements config.items) ≡ true }
    requires alike { AreAlikeBelow (below live.now) config.items }
    requires rise { rises (elements gone.now) ≡ true }
    requires tries { are_filled_tries gone.now ≡ true }
    requires may { MayPartBelow (gone_below gone.now) live.now config.items }
    ensures way { OnOk result (way.new.items ≡ way.old.items) }
    ensures applied { OnOk result (IsApplyingBelow (way_view way.old.items) (gone_below gone.now) live.now config.items steps.old.items steps.new.items) }
{
    let own = live.children();
    let parts = sorted_out(alloc, own, config)?;
    let mut turnover = Turnover::none(alloc);
    let mut count: usize = 0;
    let mut i: usize = 0;
    for other in parts.beside {
        if over_slot(alloc, way, &own[i], i, other, gone, &mut turnover, steps)? {
            count += 1;
        }
        i += 1;
    }
    let all = all_come(alloc, &mut turnover, count, parts.new)?;
    turnover.push_edit(alloc, way, all, steps)?;
    Ok(())
}

// The configuration's children over those of a live place.
#[cycle(over)]
#[inline(always)]
fn over_children<'a>(
    alloc: Global,
    way: &mut Vec<&'a Elem>,
    live: &'a Node,
    config: &mut Vec<(Elem, Node)>,
    gone: &[(Elem, Trie)],
    steps: &mut Vec<Step>,
) -> Result<(), AllocError>
    requires live { is_tree live.now ≡ true }
    requires config { are_trees config.old.items ≡ true }
    requires stand { may_stand (own_content live.now) (elements config.old.items) ≡ true }
    requires alike { AreAlikeBelow (below live.now) config.old.items }
    requires rise { rises (elements gone.now) ≡ true }
    requires tries { are_filled_tries gone.now ≡ true }
    requires may { MayPartBelow (gone_below gone.now) live.now config.old.items }
    ensures way { OnOk result (way.new.items ≡ way.old.items) }
    ensures applied { OnOk result (IsApplyingBelow (way_view way.old.items) (gone_below gone.now) live.now config.old.items steps.old.items steps.new.items) }
{
    if stand_alike(live.children(), config) {
        return over_alike(alloc, way, live, config, gone, steps);
    }
    let others = mem::replace(config, Vec::new(alloc));
    match live {
        Node::Leaf(_) => unreachable!(),
        Node::Branch(_) => over_named(alloc, way, live, others, gone, steps)?,
        Node::Dict(_) => over_named(alloc, way, live, others, gone, steps)?,
        Node::List(_) => over_items(alloc, way, live, others, gone, steps)?,
    }
    Ok(())
}

/// The changes that lead from a live tree to what it is with a configuration put over it and these
/// places gone, those of inner places first, behind the others. What comes is moved out of the
/// configuration.
#[cycle(over)]
pub(crate) fn over<'a>(
    alloc: Global,
    way: &mut Vec<&'a Elem>,
    live: &'a Node,
    config: &mut Node,
    gone: &[(Elem, Trie)],
    steps: &mut Vec<Step>,
) -> Result<(), AllocError>
    requires live { is_tree live.now ≡ true }
    requires config { is_tree config.old ≡ true }
    requires alike { AreAlikeTrees live.now config.old }
    requires rise { rises (elements gone.now) ≡ true }
    requires tries { are_filled_tries gone.now ≡ true }
    requires may { MayPart (gone_below gone.now) live.now (Some config.old) }
    ensures way { OnOk result (way.new.items ≡ way.old.items) }
    ensures applied { OnOk result (IsApplying (way_view way.old.items) (gone_below gone.now) live.now (Some config.old) steps.old.items steps.new.items) }
{
    match config {
        Node::Leaf(leaf) => match live {
            Node::Leaf(own) => {
                push_leaf(alloc, way, own, leaf, steps)?;
                Ok(())
            }
            Node::Branch(_) => unreachable!(),
            Node::Dict(_) => unreachable!(),
            Node::List(_) => unreachable!(),
        },
        Node::Branch(children) => {
            over_children(alloc, way, live, children, gone, steps)?;
            Ok(())
        }
        Node::Dict(children) => {
            over_children(alloc, way, live, children, gone, steps)?;
            Ok(())
        }
        Node::List(children) => {
            over_children(alloc, way, live, children, gone, steps)?;
            Ok(())
        }
    }
}
