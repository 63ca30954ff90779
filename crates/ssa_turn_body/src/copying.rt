//! A copy of steps, which serves wherever they do.
ghost use Rattle.std.specs.Prelude.{◌≡◌, [], vec_capacity, IfOk};
ghost use Rattle.std.specs.List.{AllZip};
ghost use Rattle.ssa_model.specs.definitions.Body.{Body};
ghost use Rattle.ssa_path.specs.View.{path_view};
ghost use Rattle.ssa_typed.specs.Copies.{kept_below};
ghost use Rattle.ssa_turn_body.specs.Copies.{ChangeIsCopied, EditIsCopied, StepIsCopied};
ghost use Rattle.ssa_turn_body.specs.Edits.{named_in};
ghost use Rattle.ssa_turn_body.specs.Records.{body_told};
ghost use Rattle.ssa_turn_body.specs.Rooms.{HasBodyRoom};

use crate::change::PlaceChange;
use crate::children::{ChildrenEdit, LeafSwap, Orders, Placed};
use crate::steps::{BodySteps, Step};
use ssa_path::element::Elem;
use ssa_path::path::copy_elements;
use ssa_typed::node::Node;
use std::alloc::{AllocError, Global};

// The same places and elements, copied.
fn copy_placed(alloc: Global, placed: &Placed) -> Result<Placed, AllocError>
    ensures places { IfOk result (λ p. p.places.items ≡ placed.now.places.items) }
    ensures named { IfOk result (λ p. named_in p ≡ named_in placed.now) }
{
    let places = Vec::from_slice(alloc, &placed.places)?;
    let elements = copy_elements(alloc, &placed.elements)?;
    Ok(Placed { places, elements })
}

// The same orders, copied.
fn copy_orders(alloc: Global, orders: &Orders) -> Result<Orders, AllocError>
    ensures after { IfOk result (λ o. path_view o.after.items ≡ path_view orders.now.after.items) }
    ensures before { IfOk result (λ o. path_view o.before.items ≡ path_view orders.now.before.items) }
{
    let after = copy_elements(alloc, &orders.after)?;
    let before = copy_elements(alloc, &orders.before)?;
    Ok(Orders { after, before })
}

// The same children, copied.
fn copy_held(alloc: Global, held: &Vec<(Elem, Node)>) -> Result<Vec<(Elem, Node)>, AllocError>
    ensures { IfOk result (λ v. kept_below v.items ≡ kept_below held.now.items) }
{
    let mut copies = Vec::with_capacity(alloc, held.len())?;
    for child in held {
        let element = child.0.copy(alloc)?;
        let node = child.1.copy(alloc)?;
        copies.push((element, node))?;
    }
    Ok(copies)
}

// An empty vector with as much room.
fn copy_place_room(alloc: Global, room: &Vec<(Elem, Node)>) -> Result<Vec<(Elem, Node)>, AllocError>
    ensures empty { IfOk result (λ v. v.items ≡ []) }
    ensures as_large { IfOk result (λ v. vec_capacity v ≡ vec_capacity room.now) }
{
    Vec::with_capacity(alloc, room.capacity())
}

// The same edit, its room as well, copied.
fn copy_edit(alloc: Global, edit: &ChildrenEdit) -> Result<ChildrenEdit, AllocError>
    ensures { IfOk result (λ e. EditIsCopied edit.now e) }
{
    let before = Vec::from_slice(alloc, &edit.before)?;
    let gone = copy_placed(alloc, &edit.gone)?;
    let come = copy_placed(alloc, &edit.come)?;
    let after = Vec::from_slice(alloc, &edit.after)?;
    let order = copy_orders(alloc, &edit.order)?;
    let held = copy_held(alloc, &edit.held)?;
    let out = copy_place_room(alloc, &edit.out)?;
    let room = copy_place_room(alloc, &edit.room)?;
    Ok(ChildrenEdit {
        before,
        gone,
        come,
        after,
        order,
        held,
        out,
        room,
    })
}

// The same change, copied.
fn copy_change(alloc: Global, change: &PlaceChange) -> Result<PlaceChange, AllocError>
    ensures { IfOk result (λ c. ChangeIsCopied change.now c) }
{
    match change {
        PlaceChange::Leaf(swap) => {
            let leaf = swap.leaf.copy(alloc)?;
            Ok(PlaceChange::Leaf(LeafSwap { leaf }))
        }
        PlaceChange::Children(edit) => {
            let copied = copy_edit(alloc, edit)?;
            Ok(PlaceChange::Children(Box::new(alloc, copied)?))
        }
    }
}

// The same change at the same path, copied.
fn copy_step(alloc: Global, step: &Step) -> Result<Step, AllocError>
    ensures { IfOk result (λ s. StepIsCopied step.now s) }
{
    let path = copy_elements(alloc, &step.path)?;
    let change = copy_change(alloc, &step.change)?;
    Ok(Step { path, change })
}

impl BodySteps {
    /// The same steps, their room as well, copied.
    pub fn copy(&self, alloc: Global) -> Result<BodySteps, AllocError>
        ensures told { IfOk result (λ s. body_told s ≡ body_told self.now) }
        ensures room { IfOk result (λ s. (b : Body) → HasBodyRoom self.now b → HasBodyRoom s b) }
    {
        let mut steps = Vec::with_capacity(alloc, self.steps.len())?;
        for step in &self.steps {
            let copied = copy_step(alloc, step)?;
            steps.push(copied)?;
        }
        Ok(BodySteps { steps })
    }
}
