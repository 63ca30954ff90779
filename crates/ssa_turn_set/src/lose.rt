//! A set of paths taken out of another, its places made room for the way back.
ghost use Rattle.std.specs.Prelude.{◌≡◌, ◌&&◌, List, [], length, not, true, vec_capacity};
ghost use Rattle.ssa_model.specs.definitions.Path.{Element, Path, same_element};
ghost use Rattle.ssa_path.specs.Children.{elements, rises};
ghost use Rattle.ssa_path.specs.View.{element_view};
ghost use Rattle.ssa_path.specs.Trie.{are_filled_tries, is_one_of, paths, paths_below, is_trie, is_filled};
ghost use Rattle.ssa_turn_set.specs.Room.{children, gain_one, gain_room, lone_room, lone_rooms, lose_one, lose_room, loses, serves};
ghost use Rattle.ssa_turn_set.specs.Siblings.{AreTaken};
ghost use Rattle.ssa_turn_set.specs.Spare.{is_nothing};
ghost use Rattle.ssa_turn_set.specs.declared.room.Room.TheVariants.{Each, Lone};

use crate::filling::exchange_where_short;
use crate::room::Room;
use crate::siblings::{place_from, place_near, place_of};
use crate::spare::{Spare, empty_element};
use ssa_json::value::Scalar;
use ssa_path::element::Elem;
use ssa_path::trie::{Trie, take_out_bare};
use std::mem;

// Takes the path of a place out where nothing below it is lost.
#[inline(always)]
fn lose_leaf(lost: &Trie, set: &mut Trie)
    requires set { is_trie set.old ≡ true }
    requires lost { is_trie lost.now ≡ true }
    requires leaf { children lost.now ≡ [] }
    ensures paths { (p : Path) → is_one_of (paths set.new) p ≡ (is_one_of (paths set.old) p && not (is_one_of (paths lost.now) p)) }
    ensures trie { is_trie set.new ≡ true }
{
    set.here = set.here && !lost.here;
}

// Whether a child has no path left: then its element is room.
#[inline(always)]
fn keep_bare(child: &mut (Elem, Trie), spare: &mut Spare) -> bool
    requires trie { is_trie child.old.1 ≡ true }
    ensures bare { result ≡ not (is_filled child.old.1) }
    ensures place { child.new.1 ≡ child.old.1 }
    ensures element { is_filled child.old.1 ≡ true → child.new.0 ≡ child.old.0 }
    ensures spare { (e : Element) → same_element e (element_view child.old.0) ≡ true → is_nothing spare.old ≡ true
        → serves e (paths child.old.1) spare.new ≡ true }
{
    if child.1.has_paths() {
        return false;
    }
    let element = mem::replace(&mut child.0, Elem::Value(Scalar::Bool(false)));
    *spare = empty_element(element);
    true
}

// Takes out the path of a child, below which nothing is lost, and tells whether it has none left: then its element is room.
#[inline(always)]
fn lose_lone(lost: &(Elem, Trie), child: &mut (Elem, Trie), spare: &mut Spare) -> bool
    requires element { same_element (element_view lost.now.0) (element_view child.old.0) ≡ true }
    requires trie { is_trie child.old.1 ≡ true }
    requires lost { is_trie lost.now.1 ≡ true }
    requires form { (ps : List Path) × (lose_one lost.now ps (lone_room spare.old) ≡ true) }
    ensures paths { (p : Path) → is_one_of (paths child.new.1) p ≡ (is_one_of (paths child.old.1) p && not (is_one_of (paths lost.now.1) p)) }
    ensures trie { is_trie child.new.1 ≡ true }
    ensures bare { result ≡ not (is_filled child.new.1) }
    ensures element { is_filled child.new.1 ≡ true → child.new.0 ≡ child.old.0 }
    ensures room { lose_one lost.now (paths child.new.1) (lone_room spare.old) ≡ true → gain_one lost.now (paths child.new.1) (lone_room spare.new) ≡ true }
{
    lose_leaf(&lost.1, &mut child.1);
    keep_bare(child, spare)
}

// Takes out the path of one child, below which nothing is lost; it goes from among the others where it has none left.
fn take_lone_out(lost: &[(Elem, Trie)], below: &mut Vec<(Elem, Trie)>, near: u32, spare: &mut Spare)
    requires rise { rises (elements below.old.items) ≡ true }
    requires tries { are_filled_tries below.old.items ≡ true }
    requires lost_rise { rises (elements lost.now) ≡ true }
    requires lost_tries { are_filled_tries lost.now ≡ true }
    requires within { (p : Path) → is_one_of (paths_below lost.now) p ≡ true → is_one_of (paths_below below.old.items) p ≡ true }
    requires form { (ps : List Path) × (loses lost.now ps (lone_rooms spare.old) ≡ true) }
    ensures taken { AreTaken lost.now below.old.items (lone_rooms spare.old) below.new.items (lone_rooms spare.new) }
    ensures capacity { vec_capacity below.new ≡ vec_capacity below.old }
{
    let child = &lost[0];
    let place = place_near(below, &child.0, near as usize);
    if lose_lone(child, &mut below[place], spare) {
        below.remove(place);
    }
}

// Takes out the paths of `lost`, of which one child goes, with nothing below it, so many places down: each of those above stays.
#[inline(never)]
fn lose_lone_below(
    above: u8,
    near: u32,
    lost: &Trie,
    set: &mut Trie,
    children: &mut Vec<(Elem, Trie)>,
    spare: &mut Spare,
)
    requires set { is_trie set.old ≡ true }
    requires lost { is_trie lost.now ≡ true }
    requires within { (p : Path) → is_one_of (paths lost.now) p ≡ true → is_one_of (paths set.old) p ≡ true }
    requires form { (ps : List Path) × (lose_room lost.now ps (Lone above near children.old spare.old) ≡ true) }
    ensures paths { (p : Path) → is_one_of (paths set.new) p ≡ (is_one_of (paths set.old) p && not (is_one_of (paths lost.now) p)) }
    ensures trie { is_trie set.new ≡ true }
    ensures room { lose_room lost.now (paths set.new) (Lone above near children.old spare.old) ≡ true
        → gain_room lost.now (paths set.new) (Lone above near children.new spare.new) ≡ true }
{
    let Trie { here: own, below } = set;
    *own = *own && !lost.here;
    if above == 0 {
        let before = below.len();
        take_lone_out(&lost.below, below, near, spare);
        return exchange_where_short(below, children, before);
    }
    let child = &lost.below[0];
    let place = place_of(below, &child.0);
    lose_lone_below(
        above - 1,
        near,
        &child.1,
        &mut below[place].1,
        children,
        spare,
    );
    if !below[place].1.has_paths() {
        below.remove(place);
    }
}

/// Takes out the paths of `lost`, all of which the set has. Takes no memory.
///
/// Where the room is enough for this, the room that is left is enough to put them in again.
#[cycle(lose)]
pub fn lose(lost: &Trie, set: &mut Trie, room: &mut Room)
    requires set { is_trie set.old ≡ true }
    requires lost { is_trie lost.now ≡ true }
    requires within { (p : Path) → is_one_of (paths lost.now) p ≡ true → is_one_of (paths set.old) p ≡ true }
    requires form { (ps : List Path) × (lose_room lost.now ps room.old ≡ true) }
    ensures paths { (p : Path) → is_one_of (paths set.new) p ≡ (is_one_of (paths set.old) p && not (is_one_of (paths lost.now) p)) }
    ensures trie { is_trie set.new ≡ true }
    ensures room { lose_room lost.now (paths set.new) room.old ≡ true → gain_room lost.now (paths set.new) room.new ≡ true }
{
    match room {
        Room::Nothing => lose_leaf(lost, set),
        Room::Lone {
            above,
            near,
            children,
            spare,
        } => lose_lone_below(*above, *near, lost, set, children, spare),
        Room::Each {
            children,
            below: rooms,
        } => lose_each(lost, set, children, rooms),
    }
}

// Takes out the paths of `lost`, with a room for each of its children.
#[cycle(lose)]
#[inline(never)]
fn lose_each(
    lost: &Trie,
    set: &mut Trie,
    children: &mut Vec<(Elem, Trie)>,
    rooms: &mut Vec<(Spare, Room)>,
)
    requires set { is_trie set.old ≡ true }
    requires lost { is_trie lost.now ≡ true }
    requires within { (p : Path) → is_one_of (paths lost.now) p ≡ true → is_one_of (paths set.old) p ≡ true }
    requires form { (ps : List Path) × (lose_room lost.now ps (Each children.old rooms.old) ≡ true) }
    ensures paths { (p : Path) → is_one_of (paths set.new) p ≡ (is_one_of (paths set.old) p && not (is_one_of (paths lost.now) p)) }
    ensures trie { is_trie set.new ≡ true }
    ensures room { lose_room lost.now (paths set.new) (Each children.old rooms.old) ≡ true
        → gain_room lost.now (paths set.new) (Each children.new rooms.new) ≡ true }
{
    let Trie { here, below } = set;
    *here = *here && !lost.here;
    let before = below.len();
    take_out(&lost.below, below, rooms);
    exchange_where_short(below, children, before);
}

// Takes out the paths of children: of one alone where it stands, and of more in one pass, in which all go that have
// none left.
#[cycle(lose)]
fn take_out(lost: &[(Elem, Trie)], below: &mut Vec<(Elem, Trie)>, rooms: &mut Vec<(Spare, Room)>)
    requires rise { rises (elements below.old.items) ≡ true }
    requires tries { are_filled_tries below.old.items ≡ true }
    requires lost_rise { rises (elements lost.now) ≡ true }
    requires lost_tries { are_filled_tries lost.now ≡ true }
    requires within { (p : Path) → is_one_of (paths_below lost.now) p ≡ true → is_one_of (paths_below below.old.items) p ≡ true }
    requires form { (ps : List Path) × (loses lost.now ps rooms.old.items ≡ true) }
    ensures taken { AreTaken lost.now below.old.items rooms.old.items below.new.items rooms.new.items }
    ensures capacity { vec_capacity below.new ≡ vec_capacity below.old }
{
    if lost.len() == 1 {
        return take_one_out(lost, below, rooms);
    }
    let mut start = 0;
    let mut any_bare = false;
    let mut i = 0;
    while i < lost.len() {
        let child = &lost[i];
        let place = place_from(below, start, &child.0);
        any_bare |= lose_child(child, &mut below[place], &mut rooms[i]);
        start = place + 1;
        i += 1;
    }
    take_out_bare(below, any_bare);
}

// Takes out the paths of one child, which goes from among the others where it has none left.
#[cycle(lose)]
fn take_one_out(
    lost: &[(Elem, Trie)],
    below: &mut Vec<(Elem, Trie)>,
    rooms: &mut Vec<(Spare, Room)>,
)
    requires one { length lost.now ≡ 1 }
    requires rise { rises (elements below.old.items) ≡ true }
    requires tries { are_filled_tries below.old.items ≡ true }
    requires lost_rise { rises (elements lost.now) ≡ true }
    requires lost_tries { are_filled_tries lost.now ≡ true }
    requires within { (p : Path) → is_one_of (paths_below lost.now) p ≡ true → is_one_of (paths_below below.old.items) p ≡ true }
    requires form { (ps : List Path) × (loses lost.now ps rooms.old.items ≡ true) }
    ensures taken { AreTaken lost.now below.old.items rooms.old.items below.new.items rooms.new.items }
    ensures capacity { vec_capacity below.new ≡ vec_capacity below.old }
{
    let child = &lost[0];
    let place = place_of(below, &child.0);
    if lose_child(child, &mut below[place], &mut rooms[0]) {
        below.remove(place);
    }
}

// Takes out the paths of a child, and tells whether it has none left: then its element is room.
#[cycle(lose)]
#[inline(always)]
fn lose_child(lost: &(Elem, Trie), child: &mut (Elem, Trie), room: &mut (Spare, Room)) -> bool
    requires element { same_element (element_view lost.now.0) (element_view child.old.0) ≡ true }
    requires trie { is_trie child.old.1 ≡ true }
    requires lost { is_trie lost.now.1 ≡ true }
    requires within { (p : Path) → is_one_of (paths lost.now.1) p ≡ true → is_one_of (paths child.old.1) p ≡ true }
    requires form { (ps : List Path) × (lose_one lost.now ps room.old ≡ true) }
    ensures paths { (p : Path) → is_one_of (paths child.new.1) p ≡ (is_one_of (paths child.old.1) p && not (is_one_of (paths lost.now.1) p)) }
    ensures trie { is_trie child.new.1 ≡ true }
    ensures bare { result ≡ not (is_filled child.new.1) }
    ensures element { is_filled child.new.1 ≡ true → child.new.0 ≡ child.old.0 }
    ensures room { lose_one lost.now (paths child.new.1) room.old ≡ true → gain_one lost.now (paths child.new.1) room.new ≡ true }
{
    lose(&lost.1, &mut child.1, &mut room.1);
    keep_bare(child, &mut room.0)
}
