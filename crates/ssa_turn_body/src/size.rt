//! How much the record of a body holds, counted in its steps.
ghost use Rattle.std.specs.Prelude.{◌≡◌, ◌-◌, ◌^◌, min};
ghost use Rattle.ssa_model.specs.definitions.Body.{Body};
ghost use Rattle.ssa_model.specs.definitions.Facts.{body_size};
ghost use Rattle.ssa_path.specs.View.{path_view};
ghost use Rattle.ssa_turn_body.specs.Records.{are_some_items, body_told};
ghost use Rattle.ssa_turn_body.specs.Rooms.{HasBodyRoom};
ghost use Rattle.ssa_turn_body.specs.Sizes.{change_size, edit_size, order_size, steps_size, trees_size};

use crate::change::PlaceChange;
use crate::children::{ChildrenEdit, Orders};
use crate::steps::{BodySteps, Step};
use ssa_path::element::Elem;
use ssa_typed::node::Node;

// Whether these are items of a list, and not none.
fn are_some_items(elements: &[Elem]) -> bool
    ensures { result ≡ are_some_items (path_view elements.now) }
{
    match elements {
        [] => false,
        [first, ..] => first.is_item(),
    }
}

// How many items are told in their order.
fn order_size(order: &Orders) -> usize
    ensures { result ≡ order_size order.now }
{
    if are_some_items(&order.before) && are_some_items(&order.after) {
        order.after.len()
    } else {
        0
    }
}

// How many places the trees have that come.
fn trees_size(held: &[(Elem, Node)]) -> usize
    ensures { result ≡ min (trees_size held.now) (2 ^ 64 - 1) }
{
    let mut size: usize = 0;
    for child in held {
        size = size.saturating_add(child.1.size());
    }
    size
}

// What the edit of a place says.
fn edit_size(edit: &ChildrenEdit) -> usize
    ensures { result ≡ min (edit_size edit.now) (2 ^ 64 - 1) }
{
    let gone = edit.gone.elements.len();
    let order = order_size(&edit.order);
    let come = trees_size(&edit.held);
    gone.saturating_add(order).saturating_add(come)
}

// What the change of a place says.
fn change_size(change: &PlaceChange) -> usize
    ensures { result ≡ min (change_size change.now) (2 ^ 64 - 1) }
{
    match change {
        PlaceChange::Leaf(_) => 1,
        PlaceChange::Children(edit) => edit_size(edit),
    }
}

// What the changes say.
fn steps_size(steps: &[Step]) -> usize
    ensures { result ≡ min (steps_size steps.now) (2 ^ 64 - 1) }
{
    let mut size: usize = 0;
    for step in steps {
        size = size.saturating_add(change_size(&step.change));
    }
    size
}

impl BodySteps {
    /// How much the record holds, or `usize::MAX` where it is more: each path put, with those
    /// below it; each path cut; each leaf; each item of a list in another order.
    pub fn size(&self) -> usize
        requires { (b : Body) × HasBodyRoom self.now b }
        ensures { result ≡ min (body_size (body_told self.now)) (2 ^ 64 - 1) }
    {
        steps_size(&self.steps)
    }
}
