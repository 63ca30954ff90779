//! A child opened among those of a place: the one that stands there, or a new one that comes to it.
ghost use Rattle.std.specs.Prelude.{◌≡◌, ◌≤◌, ◌+◌, [], true, length, vec_capacity};
ghost use Rattle.ssa_model.specs.definitions.FieldsV1.{tails};
ghost use Rattle.ssa_path.specs.Children.{elements, rises};
ghost use Rattle.ssa_path.specs.Trie.{are_filled_tries, is_trie, paths, paths_below};
ghost use Rattle.ssa_path.specs.View.{element_view};
ghost use Rattle.ssa_turn_set.specs.Room.{fresh, serves};
ghost use Rattle.ssa_turn_set.specs.Spare.{fits, is_nothing};
ghost use Rattle.ssa_turn_set.specs.Weaving.{IsOpenedAt};

use crate::spare::{Spare, fill};
use ssa_path::children::search;
use ssa_path::element::Elem;
use ssa_path::trie::Trie;
use std::alloc::Global;

// A child of this element, made in the room for it, without a path.
pub(crate) fn new_child(alloc: Global, element: &Elem, spare: &mut Spare) -> (Elem, Trie)
    requires { fits (element_view element.now) spare.old ≡ true }
    ensures element { element_view result.0 ≡ element_view element.now }
    ensures trie { is_trie result.1 ≡ true }
    ensures paths { paths result.1 ≡ [] }
    ensures left { is_nothing spare.new ≡ true }
{
    let place = Trie {
        here: false,
        below: Vec::new(alloc),
    };
    (fill(element, spare), place)
}

// The place of the child of this element, which comes to its place, without a path,
// where there is none.
pub(crate) fn open_within(
    children: &mut Vec<(Elem, Trie)>,
    element: &Elem,
    spare: &mut Spare,
) -> usize
    requires rise { rises (elements children.old.items) ≡ true }
    requires tries { are_filled_tries children.old.items ≡ true }
    requires fits { length children.old.items + fresh (tails (element_view element.now) (paths_below children.old.items)) ≤ vec_capacity children.old }
    requires spare { serves (element_view element.now) (tails (element_view element.now) (paths_below children.old.items)) spare.old ≡ true }
    ensures opened { IsOpenedAt (element_view element.now) children.old.items children.new.items result }
    ensures spare { is_nothing spare.new ≡ true }
    ensures capacity { vec_capacity children.old ≤ vec_capacity children.new }
{
    let gap = match search(children, element) {
        Ok(place) => return place,
        Err(gap) => gap,
    };
    let child = new_child(*children.allocator(), element, spare);
    match children.insert(gap, child) {
        Ok(()) => gap,
        Err(_) => unreachable!(),
    }
}
