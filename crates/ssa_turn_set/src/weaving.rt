//! Children that come among those of a place, in one pass: those that it has passed stand in a
//! vector with room for all, and the others in the old one, the last of them first.
ghost use Rattle.std.specs.Prelude.{◌≡◌, ◌≤◌, ◌+◌, ◌++◌, ◌∷◌, [], true, false, length, reverse, vec_capacity, IfNone};
ghost use Rattle.std.specs.Option.{option_to_list};
ghost use Rattle.ssa_path.specs.Children.{elements, rises};
ghost use Rattle.ssa_path.specs.Trie.{are_filled_tries, paths_below};
ghost use Rattle.ssa_path.specs.View.{element_view};
ghost use Rattle.ssa_model.specs.definitions.FieldsV1.{tails};
ghost use Rattle.ssa_turn_set.specs.Room.{fresh, serves};
ghost use Rattle.ssa_turn_set.specs.Spare.{is_nothing};
ghost use Rattle.ssa_turn_set.specs.Weaving.{starts_before, starts_with, IsOpened};

use crate::opening::new_child;
use crate::spare::Spare;
use ssa_path::element::Elem;
use ssa_path::trie::Trie;
use ssa_reverse::room::push_within;
use std::cmp::Ordering;
use std::mem;

// Turns the children round.
pub(crate) fn turn_round(children: &mut Vec<(Elem, Trie)>)
    ensures items { children.new.items ≡ reverse children.old.items }
    ensures capacity { vec_capacity children.new ≡ vec_capacity children.old }
{
    children.reverse();
}

// The next of the children, which stand with the last first.
fn next(left: &mut Vec<(Elem, Trie)>) -> Option<(Elem, Trie)>
    ensures items { reverse left.old.items ≡ option_to_list result ++ reverse left.new.items }
    ensures none { IfNone result (left.old.items ≡ []) }
    ensures capacity { vec_capacity left.new ≡ vec_capacity left.old }
{
    left.pop()
}

// Whether the next of the children is before the element.
fn is_before(left: &[(Elem, Trie)], element: &Elem) -> bool
    ensures { result ≡ starts_before (element_view element.now) (reverse left.now) }
{
    match left.last() {
        Some(child) => child.0.order(element) == Ordering::Less,
        None => false,
    }
}

// Whether the next of the children is the element's.
fn is_next(left: &[(Elem, Trie)], element: &Elem) -> bool
    ensures { result ≡ starts_with (element_view element.now) (reverse left.now) }
{
    match left.last() {
        Some(child) => element.order(&child.0) == Ordering::Equal,
        None => false,
    }
}

// Passes the children that are before the element.
fn pass_before(left: &mut Vec<(Elem, Trie)>, passed: &mut Vec<(Elem, Trie)>, element: &Elem)
    requires rise { rises (elements (passed.old.items ++ reverse left.old.items)) ≡ true }
    requires passed { rises (elements passed.old.items ++ element_view element.now ∷ []) ≡ true }
    requires fits { length passed.old.items + length left.old.items ≤ vec_capacity passed.old }
    ensures items { passed.new.items ++ reverse left.new.items ≡ passed.old.items ++ reverse left.old.items }
    ensures passed { rises (elements passed.new.items ++ element_view element.now ∷ []) ≡ true }
    ensures left { starts_before (element_view element.now) (reverse left.new.items) ≡ false }
    ensures capacity { vec_capacity passed.old ≤ vec_capacity passed.new }
    ensures left_capacity { vec_capacity left.new ≡ vec_capacity left.old }
{
    while is_before(left, element) {
        let Some(child) = next(left) else {
            unreachable!()
        };
        push_within(passed, child);
    }
}

// The element's child, taken from among the others, or made in the room for its element.
pub(crate) fn open_place(
    left: &mut Vec<(Elem, Trie)>,
    passed: &mut Vec<(Elem, Trie)>,
    element: &Elem,
    spare: &mut Spare,
) -> (Elem, Trie)
    requires rise { rises (elements (passed.old.items ++ reverse left.old.items)) ≡ true }
    requires tries { are_filled_tries (passed.old.items ++ reverse left.old.items) ≡ true }
    requires passed { rises (elements passed.old.items ++ element_view element.now ∷ []) ≡ true }
    requires fits { length passed.old.items + length left.old.items ≤ vec_capacity passed.old }
    requires spare { serves (element_view element.now) (tails (element_view element.now) (paths_below (passed.old.items ++ reverse left.old.items)))
        spare.old ≡ true }
    ensures opened { IsOpened (element_view element.now) (passed.old.items ++ reverse left.old.items) passed.new.items result (reverse left.new.items) }
    ensures spare { is_nothing spare.new ≡ true }
    ensures capacity { vec_capacity passed.old ≤ vec_capacity passed.new }
    ensures left_capacity { vec_capacity left.new ≡ vec_capacity left.old }
{
    pass_before(left, passed, element);
    if is_next(left, element) {
        let Some(child) = next(left) else {
            unreachable!()
        };
        return child;
    }
    new_child(*left.allocator(), element, spare)
}

// Moves what is left behind what has been passed, which becomes the place's vector.
pub(crate) fn pass_rest(left: &mut Vec<(Elem, Trie)>, passed: &mut Vec<(Elem, Trie)>)
    requires fits { length passed.old.items + length left.old.items ≤ vec_capacity passed.old }
    ensures items { left.new.items ≡ passed.old.items ++ reverse left.old.items }
    ensures empty { passed.new.items ≡ [] }
    ensures room { vec_capacity passed.new ≡ vec_capacity left.old }
{
    turn_round(left);
    match passed.append(left) {
        Ok(()) => mem::swap(left, passed),
        Err(_) => unreachable!(),
    }
}
