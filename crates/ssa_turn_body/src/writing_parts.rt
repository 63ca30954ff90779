//! What changes tell of what comes.
ghost use Rattle.std.specs.Prelude.{◌≡◌, ◌∷◌, ◌++◌, [], ◌<◌, ◌^◌, length, true, IfOk, IfSome, OnOk, Some, if◌then◌else◌, position};
ghost use Rattle.std.specs.List.{position_from};
ghost use Rattle.ssa_model.specs.definitions.Path.{same_element};
ghost use Rattle.ssa_path.specs.View.{element_view, path_view};
ghost use Rattle.ssa_typed.specs.Rows.{are_trees, is_tree};
ghost use Rattle.ssa_turn_body.specs.Found.{AreBelow};
ghost use Rattle.ssa_turn_body.specs.Orders.{is_none};
ghost use Rattle.ssa_turn_body.specs.Records.{at_place, place_after, told_by};
ghost use Rattle.ssa_turn_body.specs.ToldValues.{as_values, coming_json, comes_in, comes_of, told_view};
ghost use Rattle.ssa_turn_body.specs.Writable.{AreWritable, IsWritable};

use crate::change::PlaceChange;
use crate::steps::Step;
use crate::told_paths::{ComingChild, Told};
use ssa_path::element::Elem;
use ssa_path::top_path::LentPath;
use ssa_typed::node::Node;
use std::alloc::{AllocError, Global};

// The place of an element in a list, where it is there.
fn find_in(order: &[Elem], element: &Elem) -> Option<usize>
    ensures value { result ≡ position (λ own. same_element (element_view element.now) (element_view own)) order.now }
    ensures small { IfSome result (λ k. k < 2 ^ 63) }
{
    order.iter().position(|own| element.is_same(own))
}

// The same place, by the elements.
fn place_in(order: &[Elem], element: &Elem) -> Option<usize>
    ensures value { result ≡ position_from (same_element (element_view element.now)) 0 (path_view order.now) }
    ensures small { IfSome result (λ k. k < 2 ^ 63) }
{
    find_in(order, element)
}

// The place in the order that is told, or the one where the item came in.
fn item_place(order: &[Elem], element: &Elem, place: usize) -> Option<usize>
    requires { place < 2 ^ 63 }
    ensures value { result ≡ (if is_none (path_view order.now) then Some place else position_from (same_element (element_view element.now)) 0 (path_view order.now)) }
    ensures small { IfSome result (λ k. k < 2 ^ 63) }
{
    match order {
        [] => Some(place),
        [_first, ..] => place_in(order, element),
    }
}

// The place of an item afterwards: as it came in, or in the order that is told.
fn place_after(order: &[Elem], element: &Elem, place: usize) -> Option<usize>
    requires { place < 2 ^ 63 }
    ensures value { result ≡ place_after (path_view order.now) (element_view element.now) place }
    ensures small { IfSome result (λ k. k < 2 ^ 63) }
{
    if element.is_item() {
        item_place(order, element, place)
    } else {
        None
    }
}

// Puts a child that comes behind others.
fn push_child<'a>(
    at: &'a [Elem],
    child: &'a (Elem, Node),
    place: Option<usize>,
    told: &mut Vec<(LentPath<'a>, Told<'a>)>,
) -> Result<(), AllocError>
    requires tree { is_tree child.now.1 ≡ true }
    requires small { IfSome place (λ k. k < 2 ^ 63) }
    ensures { OnOk result (told_view told.new.items ≡ told_view told.old.items ++ as_values coming_json ((path_view at.now ++ element_view child.now.0 ∷ [], (child.now.1, place)) ∷ [])) }
{
    let path = LentPath {
        place: at,
        last: Some(&child.0),
    };
    let coming = ComingChild {
        node: &child.1,
        place,
    };
    told.push((path, Told::Put(coming)))?;
    Ok(())
}

// Puts children that come at a place behind others, each with its place there.
fn push_children<'a>(
    at: &'a [Elem],
    order: &[Elem],
    places: &[usize],
    held: &'a [(Elem, Node)],
    told: &mut Vec<(LentPath<'a>, Told<'a>)>,
) -> Result<(), AllocError>
    requires trees { are_trees held.now ≡ true }
    requires each { length held.now ≡ length places.now }
    requires small { AreBelow (2 ^ 63) places.now }
    ensures { OnOk result (told_view told.new.items ≡ told_view told.old.items ++ as_values coming_json (at_place (path_view at.now) (comes_of (path_view order.now) places.now held.now))) }
{
    for (i, child) in held.iter().enumerate() {
        let own = places[i];
        let place = place_after(order, &child.0, own);
        push_child(at, child, place, told)?;
    }
    Ok(())
}

// Puts what comes by a change behind others.
fn push_parts<'a>(
    step: &'a Step,
    told: &mut Vec<(LentPath<'a>, Told<'a>)>,
) -> Result<(), AllocError>
    requires { IsWritable step.now.change }
    ensures { OnOk result (told_view told.new.items ≡ told_view told.old.items ++ as_values coming_json (at_place (path_view step.now.path.items) (comes_in step.now.change))) }
{
    match &step.change {
        PlaceChange::Leaf(_) => Ok(()),
        PlaceChange::Children(edit) => push_children(
            &step.path,
            &edit.order.after,
            &edit.come.places,
            &edit.held,
            told,
        ),
    }
}

/// What comes, with all that is below it.
pub fn told_parts<'a>(
    alloc: Global,
    steps: &'a [Step],
) -> Result<Vec<(LentPath<'a>, Told<'a>)>, AllocError>
    requires { AreWritable steps.now }
    ensures { IfOk result (λ t. told_view t.items ≡ as_values coming_json (told_by comes_in steps.now)) }
{
    let mut told = Vec::new(alloc);
    for step in steps {
        push_parts(step, &mut told)?;
    }
    Ok(told)
}
