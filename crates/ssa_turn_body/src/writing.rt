//! What changes tell of the places that they change.
ghost use Rattle.std.specs.Prelude.{◌≡◌, ◌∷◌, ◌++◌, [], IfOk, OnOk};
ghost use Rattle.ssa_model.specs.definitions.RecordText.{leaf_json, order_json};
ghost use Rattle.ssa_path.specs.View.{path_view};
ghost use Rattle.ssa_turn_body.specs.Records.{are_some_items, at_place, cuts_in, leaves_in, orders_in, told_by};
ghost use Rattle.ssa_turn_body.specs.ToldValues.{as_values, path_alone, singles, told_json, told_view};

use crate::change::PlaceChange;
use crate::steps::Step;
use crate::told_paths::Told;
use ssa_path::element::Elem;
use ssa_path::top_path::LentPath;
use std::alloc::{AllocError, Global};

// ---- what goes

// Puts the paths of elements at a place behind others.
fn push_paths<'a>(
    place: &'a [Elem],
    elements: &'a [Elem],
    told: &mut Vec<(LentPath<'a>, Told<'a>)>,
) -> Result<(), AllocError>
    ensures { OnOk result (told_view told.new.items ≡ told_view told.old.items ++ as_values path_alone (at_place (path_view place.now) (singles (path_view elements.now)))) }
{
    for element in elements {
        let path = LentPath {
            place,
            last: Some(element),
        };
        told.push((path, Told::Cut))?;
    }
    Ok(())
}

// Puts the paths of the children that go behind others.
fn push_cuts<'a>(step: &'a Step, told: &mut Vec<(LentPath<'a>, Told<'a>)>) -> Result<(), AllocError>
    ensures { OnOk result (told_view told.new.items ≡ told_view told.old.items ++ as_values path_alone (at_place (path_view step.now.path.items) (cuts_in step.now.change))) }
{
    match &step.change {
        PlaceChange::Leaf(_) => Ok(()),
        PlaceChange::Children(edit) => push_paths(&step.path, &edit.gone.elements, told),
    }
}

/// The paths of what goes.
pub fn told_cuts<'a>(
    alloc: Global,
    steps: &'a [Step],
) -> Result<Vec<(LentPath<'a>, Told<'a>)>, AllocError>
    ensures { IfOk result (λ t. told_view t.items ≡ as_values path_alone (told_by cuts_in steps.now)) }
{
    let mut told = Vec::new(alloc);
    for step in steps {
        push_cuts(step, &mut told)?;
    }
    Ok(told)
}

// ---- leaves

// Puts a place and what is to stand there behind others.
fn push_place<'a>(
    place: &'a [Elem],
    value: Told<'a>,
    told: &mut Vec<(LentPath<'a>, Told<'a>)>,
) -> Result<(), AllocError>
    ensures { OnOk result (told_view told.new.items ≡ told_view told.old.items ++ (path_view place.now, told_json (path_view place.now) value.entry) ∷ []) }
{
    let path = LentPath { place, last: None };
    told.push((path, value))?;
    Ok(())
}

// Puts the leaf that is to stand at a place behind others.
fn push_leaves<'a>(
    step: &'a Step,
    told: &mut Vec<(LentPath<'a>, Told<'a>)>,
) -> Result<(), AllocError>
    ensures { OnOk result (told_view told.new.items ≡ told_view told.old.items ++ as_values leaf_json (at_place (path_view step.now.path.items) (leaves_in step.now.change))) }
{
    match &step.change {
        PlaceChange::Leaf(swap) => { push_place(&step.path, Told::Leaf(&swap.leaf), told) }
        PlaceChange::Children(_) => Ok(()),
    }
}

/// The leaves that are to stand at their paths.
pub fn told_leaves<'a>(
    alloc: Global,
    steps: &'a [Step],
) -> Result<Vec<(LentPath<'a>, Told<'a>)>, AllocError>
    ensures { IfOk result (λ t. told_view t.items ≡ as_values leaf_json (told_by leaves_in steps.now)) }
{
    let mut told = Vec::new(alloc);
    for step in steps {
        push_leaves(step, &mut told)?;
    }
    Ok(told)
}

// ---- orders

// Whether the elements are items of a list, and not none.
fn are_some_items(elements: &[Elem]) -> bool
    ensures { result ≡ are_some_items (path_view elements.now) }
{
    match elements {
        [] => false,
        [first, ..] => first.is_item(),
    }
}

// Puts the order of the items of a list behind others, where they are exchanged.
fn push_orders<'a>(
    step: &'a Step,
    told: &mut Vec<(LentPath<'a>, Told<'a>)>,
) -> Result<(), AllocError>
    ensures { OnOk result (told_view told.new.items ≡ told_view told.old.items ++ as_values order_json (at_place (path_view step.now.path.items) (orders_in step.now.change))) }
{
    match &step.change {
        PlaceChange::Leaf(_) => Ok(()),
        PlaceChange::Children(edit) => {
            if are_some_items(&edit.order.before) && are_some_items(&edit.order.after) {
                return push_place(&step.path, Told::Order(&edit.order.after), told);
            }
            Ok(())
        }
    }
}

/// The orders of the lists whose items are exchanged.
pub fn told_orders<'a>(
    alloc: Global,
    steps: &'a [Step],
) -> Result<Vec<(LentPath<'a>, Told<'a>)>, AllocError>
    ensures { IfOk result (λ t. told_view t.items ≡ as_values order_json (told_by orders_in steps.now)) }
{
    let mut told = Vec::new(alloc);
    for step in steps {
        push_orders(step, &mut told)?;
    }
    Ok(told)
}
