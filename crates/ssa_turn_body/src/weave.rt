//! Elements that leave a list and come into it at their places.
ghost use Rattle.std.specs.Prelude.{◌≡◌, ◌+◌, ◌≤◌, ◌++◌, [], length, drop, reverse, vec_len, vec_capacity, IfNone};
ghost use Rattle.std.specs.Option.{option_to_list};
ghost use Rattle.ssa_turn_body.specs.Woven.{ArePlaces, taken, left, woven, is_first, room_for};

use ssa_reverse::room::push_within;
use std::mem;

// The next element of a list that stands with the last first.
fn next<X>(stack: &mut Vec<X>) -> Option<X>
    ensures items { reverse stack.old.items ≡ option_to_list result ++ reverse stack.new.items }
    ensures none { IfNone result (stack.old.items ≡ []) }
    ensures capacity { vec_capacity stack.new ≡ vec_capacity stack.old }
{
    stack.pop()
}

// Turns a list round.
#[inline(always)]
fn turn_round<X>(items: &mut Vec<X>)
    ensures items { items.new.items ≡ reverse items.old.items }
    ensures capacity { vec_capacity items.new ≡ vec_capacity items.old }
{
    items.reverse();
}

// Whether the next of these places is this one.
fn is_next(places: &[usize], i: usize, place: usize) -> bool
    ensures { result ≡ is_first (drop i places.now) place }
{
    i < places.len() && places[i] == place
}

/// Takes out what stands at the places `gone` and puts what is held in, so that it stands at the
/// places `come`; what was taken out is held then, in its order.
///
/// Each element is moved a fixed number of times, and none where nothing goes and nothing comes,
/// which needs no room. The vectors left in `out` and `room` are the old ones, emptied.
pub fn weave<X: Drop>(
    items: &mut Vec<X>,
    gone: &[usize],
    come: &[usize],
    held: &mut Vec<X>,
    out: &mut Vec<X>,
    room: &mut Vec<X>,
)
    requires gone { ArePlaces 0 gone.now (length items.old.items) }
    requires come { ArePlaces 0 come.now (length held.old.items + length (left gone.now 0 items.old.items)) }
    requires held { length held.old.items ≡ length come.now }
    requires out_empty { out.old.items ≡ [] }
    requires out_room { length gone.now ≤ vec_capacity out.old }
    requires room_empty { room.old.items ≡ [] }
    requires room { room_for gone.now come.now (length held.old.items + length (left gone.now 0 items.old.items)) ≤ vec_capacity room.old }
    ensures items { items.new.items ≡ woven come.now 0 held.old.items (left gone.now 0 items.old.items) }
    ensures held { held.new.items ≡ taken gone.now 0 items.old.items }
    ensures out_empty { out.new.items ≡ [] }
    ensures out_room { length held.old.items ≤ vec_capacity out.new }
    ensures room_empty { room.new.items ≡ [] }
    ensures room { room_for come.now gone.now (length items.old.items) ≤ vec_capacity room.new }
{
    if gone.is_empty() && come.is_empty() {
        return;
    }
    turn_round(items);
    turn_round(held);
    let mut place: usize = 0;
    let mut gone_done: usize = 0;
    let mut come_done: usize = 0;
    while !items.is_empty() || come_done < come.len() {
        if is_next(come, come_done, room.len()) {
            let Some(item) = next(held) else {
                unreachable!()
            };
            push_within(room, item);
            come_done += 1;
        } else {
            let Some(item) = next(items) else {
                unreachable!()
            };
            if is_next(gone, gone_done, place) {
                push_within(out, item);
                gone_done += 1;
            } else {
                push_within(room, item);
            }
            place += 1;
        }
    }
    mem::swap(items, room);
    mem::swap(held, out);
}
