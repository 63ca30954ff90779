//! A configuration put over a live tree, in the configuration's own memory.
ghost use Rattle.std.specs.Prelude.{◌≡◌, drop, is_some, length, true, OnOk};
ghost use Rattle.std.specs.List.{All};
ghost use Rattle.ssa_path.specs.Children.{elements, heads_order, rises};
ghost use Rattle.ssa_typed.specs.MergedOrder.{live_places};
ghost use Rattle.ssa_typed.specs.Over.{AreAlikeBelow, AreAlikeTrees, AreOver, AreOverInOrder, IsOver};
ghost use Rattle.ssa_typed.specs.Rows.{are_apart, are_trees, is_tree};

use crate::copy::push_copy;
use crate::in_order::stand_alike;
use crate::in_turn::in_turn;
use crate::live_places::{all_found, live_places};
use crate::node::Node;
use ssa_path::element::Elem;
use std::alloc::{AllocError, Global};
use std::cmp::Ordering;
use std::collections::VecDeque;
use std::mem;

// The configuration's children over live children of the same elements in the same order, each at
// its place.
#[cycle(over)]
fn over_alike(
    alloc: Global,
    live: &[(Elem, Node)],
    config: &mut Vec<(Elem, Node)>,
) -> Result<(), AllocError>
    requires live { are_trees live.now ≡ true }
    requires config { are_trees config.old.items ≡ true }
    requires apart { are_apart (elements live.now) ≡ true }
    requires alike { AreAlikeBelow live.now config.old.items }
    requires same { elements live.now ≡ elements config.old.items }
    ensures { OnOk result (AreOver live.now config.old.items config.new.items) }
{
    for (i, child) in live.iter().enumerate() {
        let own = &mut config[i];
        over_node(alloc, &child.1, &mut own.1)?;
    }
    Ok(())
}

// The configuration's children over the live ones, which have the same elements in another order: each stays at its own place, over the
// live child of its element.
#[cycle(over)]
fn over_placed(
    alloc: Global,
    live: &[(Elem, Node)],
    config: &mut Vec<(Elem, Node)>,
    places: &[Option<usize>],
) -> Result<(), AllocError>
    requires live { are_trees live.now ≡ true }
    requires config { are_trees config.old.items ≡ true }
    requires apart { are_apart (elements live.now) ≡ true }
    requires config_apart { are_apart (elements config.old.items) ≡ true }
    requires alike { AreAlikeBelow live.now config.old.items }
    requires places { places.now ≡ live_places live.now config.old.items }
    requires found { All (λ o. is_some o ≡ true) places.now }
    requires many { length live.now ≡ length config.old.items }
    ensures { OnOk result (AreOver live.now config.old.items config.new.items) }
{
    for (i, place) in places.iter().enumerate() {
        let place = place.unwrap();
        let own = &mut config[i];
        over_node(alloc, &live[place].1, &mut own.1)?;
    }
    Ok(())
}

// The live children at their places, but that the places of those that the configuration has too are refilled with these in its
// order, each over the live child of its own element; and behind them what the configuration alone has, in its order. What the
// configuration has is moved, and what it lacks is copied.
#[cycle(over)]
fn over_found(
    alloc: Global,
    live: &[(Elem, Node)],
    config: &mut Vec<(Elem, Node)>,
    found: Vec<Option<usize>>,
) -> Result<(), AllocError>
    requires live { are_trees live.now ≡ true }
    requires config { are_trees config.old.items ≡ true }
    requires apart { are_apart (elements live.now) ≡ true }
    requires config_apart { are_apart (elements config.old.items) ≡ true }
    requires alike { AreAlikeBelow live.now config.old.items }
    requires found { found.items ≡ live_places live.now config.old.items }
    ensures { OnOk result (AreOver live.now config.old.items config.new.items) }
{
    let parts = in_turn(alloc, live, mem::replace(config, Vec::new(alloc)), found)?;
    let places = parts.places;
    let fill = places.as_slice();
    let mut own = VecDeque::from(parts.own);
    let mut new = parts.new;
    let mut merged = Vec::with_capacity(alloc, live.len())?;
    let mut next = 0;
    for (i, child) in live.iter().enumerate() {
        if places.contains(&i) {
            let (element, mut node) = own.pop_front().unwrap();
            let place = fill[next];
            over_node(alloc, &live[place].1, &mut node)?;
            merged.push((element, node))?;
            next += 1;
        } else {
            push_copy(alloc, &child.0, &child.1, &mut merged)?;
        }
    }
    merged.append(&mut new)?;
    *config = merged;
    Ok(())
}

// The items of a list over the live ones. A configuration mostly repeats the live children, so that
// nothing has to be found.
#[cycle(over)]
fn over_items(
    alloc: Global,
    live: &[(Elem, Node)],
    config: &mut Vec<(Elem, Node)>,
) -> Result<(), AllocError>
    requires live { are_trees live.now ≡ true }
    requires config { are_trees config.old.items ≡ true }
    requires apart { are_apart (elements live.now) ≡ true }
    requires config_apart { are_apart (elements config.old.items) ≡ true }
    requires alike { AreAlikeBelow live.now config.old.items }
    ensures { OnOk result (AreOver live.now config.old.items config.new.items) }
{
    if stand_alike(live, config) {
        return over_alike(alloc, live, config);
    }
    let found = live_places(alloc, live, config)?;
    if live.len() == config.len() && all_found(&found) {
        return over_placed(alloc, live, config, &found);
    }
    over_found(alloc, live, config, found)
}

/// How the next children compare: where the live ones have no more, the configuration's is first.
pub fn order_beside(
    live: &[(Elem, Node)],
    i: usize,
    config: &VecDeque<(Elem, Node)>,
) -> Option<Ordering>
    ensures { result ≡ heads_order (drop i live.now) config.now.items }
{
    match config.front() {
        Some(own) if i < live.len() => Some(live[i].0.order(&own.0)),
        Some(_) => Some(Ordering::Greater),
        None if i < live.len() => Some(Ordering::Less),
        None => None,
    }
}

// The children of both in the order of their elements, found by one walk over both, which rise. What
// the configuration has is moved, over the live child of its element, and what it lacks is copied.
#[cycle(over)]
fn over_beside(
    alloc: Global,
    live: &[(Elem, Node)],
    config: &mut Vec<(Elem, Node)>,
) -> Result<(), AllocError>
    requires live { are_trees live.now ≡ true }
    requires config { are_trees config.old.items ≡ true }
    requires live_rise { rises (elements live.now) ≡ true }
    requires rise { rises (elements config.old.items) ≡ true }
    requires alike { AreAlikeBelow live.now config.old.items }
    ensures { OnOk result (AreOverInOrder live.now config.old.items config.new.items) }
{
    let mut merged = Vec::with_capacity(alloc, live.len().max(config.len()))?;
    let mut left = VecDeque::from(mem::replace(config, Vec::new(alloc)));
    let mut i = 0;
    while let Some(order) = order_beside(live, i, &left) {
        match order {
            Ordering::Less => {
                let child = &live[i];
                push_copy(alloc, &child.0, &child.1, &mut merged)?;
                i += 1;
            }
            Ordering::Greater => {
                let new = left.pop_front().unwrap();
                merged.push(new)?;
            }
            Ordering::Equal => {
                let (element, mut node) = left.pop_front().unwrap();
                over_node(alloc, &live[i].1, &mut node)?;
                merged.push((element, node))?;
                i += 1;
            }
        }
    }
    *config = merged;
    Ok(())
}

// The fields of a record or the entries of a Dict over the live ones, in the order of their elements.
#[cycle(over)]
fn over_fields(
    alloc: Global,
    live: &[(Elem, Node)],
    config: &mut Vec<(Elem, Node)>,
) -> Result<(), AllocError>
    requires live { are_trees live.now ≡ true }
    requires config { are_trees config.old.items ≡ true }
    requires live_rise { rises (elements live.now) ≡ true }
    requires rise { rises (elements config.old.items) ≡ true }
    requires alike { AreAlikeBelow live.now config.old.items }
    ensures { OnOk result (AreOverInOrder live.now config.old.items config.new.items) }
{
    if stand_alike(live, config) {
        return over_alike(alloc, live, config);
    }
    over_beside(alloc, live, config)
}

// Puts the configuration's tree over the live one: its content at each place that it has, else the
// live tree's. Takes no memory where both have the same places in the same order.
#[cycle(over)]
#[inline(always)]
pub(crate) fn over_node(alloc: Global, live: &Node, config: &mut Node) -> Result<(), AllocError>
    requires live { is_tree live.now ≡ true }
    requires config { is_tree config.old ≡ true }
    requires alike { AreAlikeTrees live.now config.old }
    ensures { OnOk result (IsOver live.now config.old config.new) }
{
    match config {
        Node::Leaf(_) => Ok(()),
        Node::Branch(children) => over_fields(alloc, live.children(), children),
        Node::Dict(children) => over_fields(alloc, live.children(), children),
        Node::List(children) => over_items(alloc, live.children(), children),
    }
}
