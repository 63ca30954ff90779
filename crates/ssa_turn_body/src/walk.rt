//! The walk over two trees side by side that makes the changes leading from one to the other.
ghost use Rattle.std.specs.Prelude.{◌≡◌, [], false, not, true, IfOk, OnOk};
ghost use Rattle.ssa_path.specs.Children.{elements, IsChildAt};
ghost use Rattle.ssa_path.specs.Listing.{way_view};
ghost use Rattle.ssa_path.specs.View.{element_view, path_view};
ghost use Rattle.ssa_typed.specs.Over.{AreAlikeBelow, AreAlikeTrees};
ghost use Rattle.ssa_typed.specs.Rows.{are_trees, below, is_tree, leaf_content, own_content};
ghost use Rattle.ssa_turn_body.specs.Edits.{is_idle};
ghost use Rattle.ssa_turn_body.specs.Led.{AreLeading, IsAlikeChild, IsChildLed, MayAdd};
ghost use Rattle.ssa_turn_body.specs.Marks.{kids, marks, may_stand, with_order, TellAlike};
ghost use Rattle.ssa_turn_body.specs.Said.{is_swapped};
ghost use Rattle.ssa_turn_body.specs.Told.{from_place};

use crate::change::PlaceChange;
use crate::children::{ChildrenEdit, LeafSwap};
use crate::found::edit_between;
use crate::side_by_side::places_of;
use crate::steps::Step;
use ssa_json::value::Scalar;
use ssa_members::push_closely;
use ssa_path::element::Elem;
use ssa_path::path::{copy_way, lent_way};
use ssa_typed::in_order::stand_alike;
use ssa_typed::node::{Leaf, Node};
use std::alloc::{AllocError, Global};
use std::mem;

// Whether both leaves are of one sort and have the same content.
#[inline(always)]
fn same_leaf(own: &Leaf, other: &Leaf) -> bool
    ensures { is_swapped (leaf_content own.now) (leaf_content other.now) ≡ not result }
{
    match (own, other) {
        (Leaf::Scalar(own), Leaf::Scalar(other)) => own.same(other),
        (Leaf::Atomic(own), Leaf::Atomic(other)) => own.same(other),
        (Leaf::Scalar(_), Leaf::Atomic(_)) => false,
        (Leaf::Atomic(_), Leaf::Scalar(_)) => false,
    }
}

// Whether both are leaves of one sort with the same content: then no change leads from one to the
// other.
#[inline(always)]
pub(crate) fn is_same_leaf(from: &Node, to: &Node) -> bool
    ensures { result ≡ true → TellAlike from.now to.now }
{
    match (from, to) {
        (Node::Leaf(own), Node::Leaf(other)) => same_leaf(own, other),
        _ => false,
    }
}

// Puts a change of the place to which this way leads behind the others. A record mostly has one, and is kept
// long, so the first takes room for itself alone.
pub(crate) fn push_step(
    alloc: Global,
    way: &[&Elem],
    change: PlaceChange,
    steps: &mut Vec<Step>,
) -> Result<(), AllocError>
    ensures { OnOk result (MayAdd false (way_view way.now) change steps.old.items steps.new.items) }
{
    let path = copy_way(alloc, way)?;
    push_closely(steps, Step { path, change })?;
    Ok(())
}

// Another leaf at the end of a way, where it is another: it is moved out.
pub(crate) fn push_leaf(
    alloc: Global,
    way: &[&Elem],
    own: &Leaf,
    to: &mut Leaf,
    steps: &mut Vec<Step>,
) -> Result<(), AllocError>
    ensures { OnOk result (AreLeading (way_view way.now) (from_place (leaf_content own.now, [])) (from_place (leaf_content to.old, [])) steps.old.items steps.new.items) }
{
    if same_leaf(own, to) {
        return Ok(());
    }
    let leaf = mem::replace(to, Leaf::Scalar(Scalar::Bool(false)));
    let change = PlaceChange::Leaf(LeafSwap { leaf });
    push_step(alloc, way, change, steps)?;
    Ok(())
}

// The edit of the children at the end of a way, where any goes, comes or is exchanged.
#[inline(always)]
fn push_edit(
    alloc: Global,
    way: &[&Elem],
    edit: Box<ChildrenEdit>,
    steps: &mut Vec<Step>,
) -> Result<(), AllocError>
    ensures { OnOk result (MayAdd (is_idle edit.value) (way_view way.now) (PlaceChange.Children edit) steps.old.items steps.new.items) }
{
    if edit.is_idle() {
        return Ok(());
    }
    push_step(alloc, way, PlaceChange::Children(edit), steps)?;
    Ok(())
}

// The changes in the child at a place. Most children are leaves that stay as they are.
#[cycle(walk)]
#[inline(always)]
fn walk_child<'a>(
    alloc: Global,
    way: &mut Vec<&'a Elem>,
    from: &'a Node,
    place: usize,
    to: &mut (Elem, Node),
    steps: &mut Vec<Step>,
) -> Result<(), AllocError>
    requires from { is_tree from.now ≡ true }
    requires to { is_tree to.old.1 ≡ true }
    requires place { IsChildAt (element_view to.old.0) (below from.now) place }
    requires alike { IsAlikeChild (below from.now) to.old }
    ensures way { OnOk result (way.new.items ≡ way.old.items) }
    ensures led { OnOk result (IsChildLed (way_view way.old.items) (below from.now) to.old steps.old.items steps.new.items) }
{
    let child = &from.children()[place];
    if is_same_leaf(&child.1, &to.1) {
        return Ok(());
    }
    way.push(&child.0)?;
    walk(alloc, way, &child.1, &mut to.1, steps)?;
    let _ = way.pop();
    Ok(())
}

// The changes in the child at a place, where the other child is given away.
#[cycle(walk)]
fn walk_given<'a>(
    alloc: Global,
    way: &mut Vec<&'a Elem>,
    from: &'a Node,
    place: usize,
    to: (Elem, Node),
    steps: &mut Vec<Step>,
) -> Result<(), AllocError>
    requires from { is_tree from.now ≡ true }
    requires to { is_tree to.1 ≡ true }
    requires place { IsChildAt (element_view to.0) (below from.now) place }
    requires alike { IsAlikeChild (below from.now) to }
    ensures way { OnOk result (way.new.items ≡ way.old.items) }
    ensures led { OnOk result (IsChildLed (way_view way.old.items) (below from.now) to steps.old.items steps.new.items) }
{
    let mut child = to;
    walk_child(alloc, way, from, place, &mut child, steps)
}

// The changes that lead from the children of a place to these, which are of the same elements in
// the same order: those in the children. No place is searched, and none of the places is kept.
#[cycle(walk)]
fn walk_alike<'a>(
    alloc: Global,
    way: &mut Vec<&'a Elem>,
    from: &'a Node,
    to: &mut Vec<(Elem, Node)>,
    steps: &mut Vec<Step>,
) -> Result<(), AllocError>
    requires from { is_tree from.now ≡ true }
    requires to { are_trees to.old.items ≡ true }
    requires same { elements (below from.now) ≡ elements to.old.items }
    requires alike { AreAlikeBelow (below from.now) to.old.items }
    ensures way { OnOk result (way.new.items ≡ way.old.items) }
    ensures led { OnOk result (AreLeading (way_view way.old.items) (marks from.now) (from_place (with_order (own_content from.now) (elements to.old.items), kids to.old.items)) steps.old.items steps.new.items) }
{
    for i in 0..to.len() {
        walk_child(alloc, way, from, i, &mut to[i], steps)?;
    }
    Ok(())
}

// The changes that lead from the children of a place to others, of which some go, come or stand
// elsewhere: those in the children, and behind them the one of the place itself.
#[cycle(walk)]
fn walk_edit<'a>(
    alloc: Global,
    way: &mut Vec<&'a Elem>,
    from: &'a Node,
    to: Vec<(Elem, Node)>,
    steps: &mut Vec<Step>,
) -> Result<(), AllocError>
    requires from { is_tree from.now ≡ true }
    requires to { are_trees to.items ≡ true }
    requires stand { may_stand (own_content from.now) (elements to.items) ≡ true }
    requires alike { AreAlikeBelow (below from.now) to.items }
    ensures way { OnOk result (way.new.items ≡ way.old.items) }
    ensures led { OnOk result (AreLeading (way_view way.old.items) (marks from.now) (from_place (with_order (own_content from.now) (elements to.items), kids to.items)) steps.old.items steps.new.items) }
{
    let found = places_of(alloc, from, &to)?;
    let mut edit = edit_between(alloc, from.children(), &to, &found)?;
    let mut held = Vec::with_capacity(alloc, edit.come.places.len())?;
    let mut i: usize = 0;
    for child in to {
        match found[i] {
            Some(place) => walk_given(alloc, way, from, place, child, steps)?,
            None => held.push(child)?,
        }
        i += 1;
    }
    edit.held = held;
    let boxed = Box::new(alloc, edit)?;
    push_edit(alloc, way, boxed, steps)?;
    Ok(())
}

// The changes that lead from the children of a place to these, those in the children first.
#[cycle(walk)]
#[inline(always)]
fn walk_children<'a>(
    alloc: Global,
    way: &mut Vec<&'a Elem>,
    from: &'a Node,
    to: &mut Vec<(Elem, Node)>,
    steps: &mut Vec<Step>,
) -> Result<(), AllocError>
    requires from { is_tree from.now ≡ true }
    requires to { are_trees to.old.items ≡ true }
    requires stand { may_stand (own_content from.now) (elements to.old.items) ≡ true }
    requires alike { AreAlikeBelow (below from.now) to.old.items }
    ensures way { OnOk result (way.new.items ≡ way.old.items) }
    ensures led { OnOk result (AreLeading (way_view way.old.items) (marks from.now) (from_place (with_order (own_content from.now) (elements to.old.items), kids to.old.items)) steps.old.items steps.new.items) }
{
    if stand_alike(from.children(), to) {
        return walk_alike(alloc, way, from, to, steps);
    }
    let others = mem::replace(to, Vec::new(alloc));
    walk_edit(alloc, way, from, others, steps)?;
    Ok(())
}

// The changes that lead from one tree to another, those of inner places first, behind the others.
// What comes is moved out of the second tree.
#[cycle(walk)]
pub(crate) fn walk<'a>(
    alloc: Global,
    way: &mut Vec<&'a Elem>,
    from: &'a Node,
    to: &mut Node,
    steps: &mut Vec<Step>,
) -> Result<(), AllocError>
    requires from { is_tree from.now ≡ true }
    requires to { is_tree to.old ≡ true }
    requires alike { AreAlikeTrees from.now to.old }
    ensures way { OnOk result (way.new.items ≡ way.old.items) }
    ensures led { OnOk result (AreLeading (way_view way.old.items) (marks from.now) (marks to.old) steps.old.items steps.new.items) }
{
    match to {
        Node::Leaf(leaf) => match from {
            Node::Leaf(own) => {
                push_leaf(alloc, way, own, leaf, steps)?;
                Ok(())
            }
            Node::Branch(_) => unreachable!(),
            Node::Dict(_) => unreachable!(),
            Node::List(_) => unreachable!(),
        },
        Node::Branch(children) => {
            walk_children(alloc, way, from, children, steps)?;
            Ok(())
        }
        Node::Dict(children) => {
            walk_children(alloc, way, from, children, steps)?;
            Ok(())
        }
        Node::List(children) => {
            walk_children(alloc, way, from, children, steps)?;
            Ok(())
        }
    }
}

/// The changes that lead from one tree to another, those of inner places first, behind the others.
///
/// What comes is moved out of the second tree. A path is copied only where something changes.
pub fn steps_below(
    alloc: Global,
    path: &mut Vec<Elem>,
    from: &Node,
    to: Node,
    steps: &mut Vec<Step>,
) -> Result<(), AllocError>
    requires from { is_tree from.now ≡ true }
    requires to { is_tree to ≡ true }
    requires alike { AreAlikeTrees from.now to }
    ensures path { OnOk result (path.new.items ≡ path.old.items) }
    ensures led { OnOk result (AreLeading (path_view path.old.items) (marks from.now) (marks to) steps.old.items steps.new.items) }
{
    let mut way = lent_way(alloc, path)?;
    let mut second = to;
    walk(alloc, &mut way, from, &mut second, steps)
}
