//! The children of one place that go and those that come, where what stays keeps its order.
ghost use Rattle.std.specs.Prelude.{◌≡◌, ◌+◌, ◌<◌, ◌^◌, length, IfOk, OnOk};
ghost use Rattle.ssa_path.specs.Listing.{way_view};
ghost use Rattle.ssa_path.specs.View.{element_view};
ghost use Rattle.ssa_turn_body.specs.Turnovers.{is_still, named_at, none_passes, passing, with_all_come, with_come, with_gone, with_named, IsEditOf, MayTurnOver};

use crate::change::PlaceChange;
use crate::children::{ChildrenEdit, Orders, Placed};
use crate::steps::Step;
use crate::walk::push_step;
use ssa_members::push_closely;
use ssa_path::element::Elem;
use ssa_typed::node::Node;
use std::alloc::{AllocError, Global};

/// The children of a place that go, named with the places at which they stand, and those that come,
/// named with the places to which they come.
#[derive(Drop)]
pub struct Turnover {
    pub gone: Placed,
    pub come: Placed,
    pub held: Vec<(Elem, Node)>,
}

// Names one child more. They are kept long, so they take room for themselves alone.
fn name_child(
    alloc: Global,
    placed: &mut Placed,
    place: usize,
    element: &Elem,
) -> Result<(), AllocError>
    ensures { OnOk result (named_at placed.new ≡ with_named place (element_view element.now) (named_at placed.old)) }
{
    let own = element.copy(alloc)?;
    push_closely(&mut placed.places, place)?;
    push_closely(&mut placed.elements, own)?;
    Ok(())
}

// No children with their places.
fn none_placed(alloc: Global) -> Placed
    ensures { named_at result ≡ none_passes.gone }
{
    Placed {
        places: Vec::new(alloc),
        elements: Vec::new(alloc),
    }
}

impl Turnover {
    /// Nothing goes and nothing comes. Takes no memory.
    pub fn none(alloc: Global) -> Turnover
        ensures { passing result ≡ none_passes }
    {
        Turnover {
            gone: none_placed(alloc),
            come: none_placed(alloc),
            held: Vec::new(alloc),
        }
    }

    /// The child of this element goes, which stands at this place.
    pub fn goes(&mut self, alloc: Global, place: usize, element: &Elem) -> Result<(), AllocError>
        ensures { OnOk result (passing self.new ≡ with_gone place (element_view element.now) (passing self.old)) }
    {
        name_child(alloc, &mut self.gone, place, element)
    }

    /// This child comes, to this place.
    pub fn comes(
        &mut self,
        alloc: Global,
        place: usize,
        child: (Elem, Node),
    ) -> Result<(), AllocError>
        ensures { OnOk result (passing self.new ≡ with_come place child (passing self.old)) }
    {
        name_child(alloc, &mut self.come, place, &child.0)?;
        push_closely(&mut self.held, child)?;
        Ok(())
    }

    // Whether nothing goes and nothing comes.
    fn is_still(&self) -> bool
        ensures { result ≡ is_still (passing self.now) }
    {
        self.gone.places.is_empty() && self.come.places.is_empty()
    }

    // The edit by which they go and come, with room for so many children afterwards.
    fn edit(self, alloc: Global, count: usize) -> Result<ChildrenEdit, AllocError>
        ensures { IfOk result (λ s. IsEditOf (passing self) count s) }
    {
        let Turnover { gone, come, held } = self;
        let out = Vec::with_capacity(alloc, gone.places.len())?;
        let room = Vec::with_capacity(alloc, count)?;
        let order = Orders {
            after: Vec::new(alloc),
            before: Vec::new(alloc),
        };
        Ok(ChildrenEdit {
            before: Vec::new(alloc),
            gone,
            come,
            after: Vec::new(alloc),
            order,
            held,
            out,
            room,
        })
    }

    /// The edit of the place at the end of a way by which they go and come, put behind the other
    /// changes, unless nothing does. So many children stand there afterwards.
    pub fn push_edit(
        self,
        alloc: Global,
        way: &[&Elem],
        count: usize,
        steps: &mut Vec<Step>,
    ) -> Result<(), AllocError>
        ensures { OnOk result (MayTurnOver (is_still (passing self)) (way_view way.now) (passing self) count steps.old.items steps.new.items) }
    {
        if self.is_still() {
            return Ok(());
        }
        let edit = self.edit(alloc, count)?;
        let boxed = Box::new(alloc, edit)?;
        push_step(alloc, way, PlaceChange::Children(boxed), steps)?;
        Ok(())
    }
}

/// These children come, one behind the other, to the places from this one on. Answers the next place.
pub fn all_come(
    alloc: Global,
    turnover: &mut Turnover,
    place: usize,
    children: Vec<(Elem, Node)>,
) -> Result<usize, AllocError>
    requires { place + length children.items < 2 ^ 64 }
    ensures come { OnOk result (passing turnover.new ≡ with_all_come place children.items (passing turnover.old)) }
    ensures next { IfOk result (λ n. n ≡ place + length children.items) }
{
    let mut next = place;
    for child in children {
        turnover.comes(alloc, next, child)?;
        next += 1;
    }
    Ok(next)
}
