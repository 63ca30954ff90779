//! A set of paths put into another, in the room for it.
ghost use Rattle.std.specs.Prelude.{◌≡◌, ℕ, ◌≤◌, ◌+◌, ◌||◌, [], true, length, vec_capacity};
ghost use Rattle.ssa_model.specs.definitions.Path.{Path};
ghost use Rattle.ssa_path.specs.Children.{elements, rises};
ghost use Rattle.ssa_path.specs.Trie.{is_one_of, paths, paths_below, is_trie, are_filled_tries};
ghost use Rattle.ssa_turn_set.specs.Room.{children, freshes, gain_room, gains, lone_rooms, lose_room, loses};
ghost use Rattle.ssa_turn_set.specs.Weaving.{AreGathered};
ghost use Rattle.ssa_turn_set.specs.declared.room.Room.TheVariants.{Each, Lone};

use crate::filling::exchange_where_wider;
use crate::opening::open_within;
use crate::room::Room;
use crate::siblings::place_of;
use crate::spare::Spare;
use crate::weaving::{open_place, pass_rest, turn_round};
use ssa_path::element::Elem;
use ssa_path::trie::Trie;
use ssa_reverse::room::push_within;

// So many children are put in one by one: each that comes moves those behind it, which costs less than a pass that
// compares each with those that come.
const FEW: usize = 8;

// Adds the path of a place where nothing below it is gained.
#[inline(always)]
fn gain_leaf(gained: &Trie, set: &mut Trie)
    requires set { is_trie set.old ≡ true }
    requires leaf { children gained.now ≡ [] }
    ensures paths { (p : Path) → is_one_of (paths set.new) p ≡ (is_one_of (paths gained.now) p || is_one_of (paths set.old) p) }
    ensures trie { is_trie set.new ≡ true }
{
    set.here = gained.here || set.here;
}

// Adds the path of one child, below which nothing is gained: it comes to the place where it is not there.
fn put_lone_in(gained: &[(Elem, Trie)], below: &mut Vec<(Elem, Trie)>, spare: &mut Spare)
    requires gained_rise { rises (elements gained.now) ≡ true }
    requires gained_tries { are_filled_tries gained.now ≡ true }
    requires rise { rises (elements below.old.items) ≡ true }
    requires tries { are_filled_tries below.old.items ≡ true }
    requires fits { length below.old.items + freshes gained.now (paths_below below.old.items) ≤ vec_capacity below.old }
    requires room { gains gained.now (paths_below below.old.items) (lone_rooms spare.old) ≡ true }
    ensures gathered { AreGathered gained.now below.old.items below.new.items }
    ensures room { loses gained.now (paths_below below.old.items) (lone_rooms spare.new) ≡ true }
{
    let child = &gained[0];
    let place = open_within(below, &child.0, spare);
    gain_leaf(&child.1, &mut below[place].1);
}

// Adds the paths of `gained`, of which one child comes, with nothing below it, so many places down: each of those above stays.
#[inline(never)]
fn gain_lone(
    above: u8,
    gained: &Trie,
    set: &mut Trie,
    children: &mut Vec<(Elem, Trie)>,
    spare: &mut Spare,
)
    requires set { is_trie set.old ≡ true }
    requires gained { is_trie gained.now ≡ true }
    requires room { (near : ℕ) × (gain_room gained.now (paths set.old) (Lone above near children.old spare.old) ≡ true) }
    ensures paths { (p : Path) → is_one_of (paths set.new) p ≡ (is_one_of (paths gained.now) p || is_one_of (paths set.old) p) }
    ensures trie { is_trie set.new ≡ true }
    ensures room { (near : ℕ) → lose_room gained.now (paths set.old) (Lone above near children.new spare.new) ≡ true }
{
    let Trie { here: own, below } = set;
    *own = gained.here || *own;
    if above == 0 {
        exchange_where_wider(below, children);
        return put_lone_in(&gained.below, below, spare);
    }
    let child = &gained.below[0];
    let place = place_of(below, &child.0);
    gain_lone(above - 1, &child.1, &mut below[place].1, children, spare);
}

/// Adds the paths of `gained`. Takes no memory.
///
/// The room that is left is enough to take them out again.
#[cycle(gain)]
pub fn gain(gained: &Trie, set: &mut Trie, room: &mut Room)
    requires set { is_trie set.old ≡ true }
    requires gained { is_trie gained.now ≡ true }
    requires room { gain_room gained.now (paths set.old) room.old ≡ true }
    ensures paths { (p : Path) → is_one_of (paths set.new) p ≡ (is_one_of (paths gained.now) p || is_one_of (paths set.old) p) }
    ensures trie { is_trie set.new ≡ true }
    ensures room { lose_room gained.now (paths set.old) room.new ≡ true }
{
    match room {
        Room::Nothing => gain_leaf(gained, set),
        Room::Lone {
            above,
            near: _,
            children,
            spare,
        } => gain_lone(*above, gained, set, children, spare),
        Room::Each {
            children,
            below: rooms,
        } => gain_each(gained, set, children, rooms),
    }
}

// Adds the paths of `gained`, with a room for each of its children.
#[cycle(gain)]
#[inline(never)]
fn gain_each(
    gained: &Trie,
    set: &mut Trie,
    children: &mut Vec<(Elem, Trie)>,
    rooms: &mut Vec<(Spare, Room)>,
)
    requires set { is_trie set.old ≡ true }
    requires gained { is_trie gained.now ≡ true }
    requires room { gain_room gained.now (paths set.old) (Each children.old rooms.old) ≡ true }
    ensures paths { (p : Path) → is_one_of (paths set.new) p ≡ (is_one_of (paths gained.now) p || is_one_of (paths set.old) p) }
    ensures trie { is_trie set.new ≡ true }
    ensures room { lose_room gained.now (paths set.old) (Each children.new rooms.new) ≡ true }
{
    let Trie { here, below } = set;
    *here = gained.here || *here;
    if below.len() < children.capacity() && gained.below.len() > FEW {
        weave_in(&gained.below, below, children, rooms);
    } else {
        exchange_where_wider(below, children);
        put_each_in(&gained.below, below, rooms);
    }
}

// Adds the paths of children one after the other: each is searched for among those of the place, and comes to it
// where it is none of them.
#[cycle(gain)]
fn put_each_in(
    gained: &[(Elem, Trie)],
    below: &mut Vec<(Elem, Trie)>,
    rooms: &mut Vec<(Spare, Room)>,
)
    requires gained_rise { rises (elements gained.now) ≡ true }
    requires gained_tries { are_filled_tries gained.now ≡ true }
    requires rise { rises (elements below.old.items) ≡ true }
    requires tries { are_filled_tries below.old.items ≡ true }
    requires fits { length below.old.items + freshes gained.now (paths_below below.old.items) ≤ vec_capacity below.old }
    requires room { gains gained.now (paths_below below.old.items) rooms.old.items ≡ true }
    ensures gathered { AreGathered gained.now below.old.items below.new.items }
    ensures room { loses gained.now (paths_below below.old.items) rooms.new.items ≡ true }
{
    let mut i = 0;
    while i < gained.len() {
        let child = &gained[i];
        let room = &mut rooms[i];
        let place = open_within(below, &child.0, &mut room.0);
        gain(&child.1, &mut below[place].1, &mut room.1);
        i += 1;
    }
}

// Adds the paths of children, of which some come to the place, in one pass over its children; these
// are moved into the room for them.
#[cycle(gain)]
fn weave_in(
    gained: &[(Elem, Trie)],
    below: &mut Vec<(Elem, Trie)>,
    children: &mut Vec<(Elem, Trie)>,
    rooms: &mut Vec<(Spare, Room)>,
)
    requires gained_rise { rises (elements gained.now) ≡ true }
    requires gained_tries { are_filled_tries gained.now ≡ true }
    requires rise { rises (elements below.old.items) ≡ true }
    requires tries { are_filled_tries below.old.items ≡ true }
    requires empty { children.old.items ≡ [] }
    requires fits { length below.old.items + freshes gained.now (paths_below below.old.items) ≤ vec_capacity children.old }
    requires room { gains gained.now (paths_below below.old.items) rooms.old.items ≡ true }
    ensures gathered { AreGathered gained.now below.old.items below.new.items }
    ensures empty { children.new.items ≡ [] }
    ensures left { vec_capacity children.new ≡ vec_capacity below.old }
    ensures room { loses gained.now (paths_below below.old.items) rooms.new.items ≡ true }
{
    turn_round(below);
    let mut i = 0;
    while i < gained.len() {
        let child = &gained[i];
        let room = &mut rooms[i];
        let mut place = open_place(below, children, &child.0, &mut room.0);
        gain(&child.1, &mut place.1, &mut room.1);
        push_within(children, place);
        i += 1;
    }
    pass_rest(below, children);
}
