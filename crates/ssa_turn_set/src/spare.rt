//! The room for one element: the element itself, kept when its place goes, put back when it comes.
ghost use Rattle.std.specs.Prelude.{◌≡◌, true};
ghost use Rattle.ssa_path.specs.View.{element_view};
ghost use Rattle.ssa_turn_set.specs.Spare.{fits, is_nothing};

use ssa_path::element::Elem;
use std::mem;

/// The room for an element: the same element, or nothing where none comes.
#[derive(Drop)]
pub enum Spare {
    Nothing,
    Kept(Elem),
}

// The same element, out of its room. Takes no memory.
pub(crate) fn fill(element: &Elem, spare: &mut Spare) -> Elem
    requires { fits (element_view element.now) spare.old ≡ true }
    ensures same { element_view result ≡ element_view element.now }
    ensures left { is_nothing spare.new ≡ true }
{
    match mem::replace(spare, Spare::Nothing) {
        Spare::Kept(kept) => kept,
        Spare::Nothing => unreachable!(),
    }
}

// The element as room for itself. Takes no memory.
pub(crate) fn empty_element(element: Elem) -> Spare
    ensures { fits (element_view element) result ≡ true }
{
    Spare::Kept(element)
}
