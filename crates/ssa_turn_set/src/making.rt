//! The record between two sets, with its room.
ghost use Rattle.std.specs.Prelude.{◌≡◌, ◌≤◌, ◌<◌, ◌+◌, ◌-◌, ◌^◌, ◌∷◌, List, [], length, true, false, vec_capacity, IfOk};
ghost use Rattle.ssa_model.specs.definitions.FieldsV1.{heads};
ghost use Rattle.ssa_model.specs.definitions.Path.{Path};
ghost use Rattle.ssa_path.specs.Children.{elements, rises};
ghost use Rattle.ssa_path.specs.View.{element_view};
ghost use Rattle.ssa_path.specs.Trie.{are_filled_tries, is_trie, paths};
ghost use Rattle.ssa_path.specs.Combine.{IsCombination};
ghost use Rattle.ssa_turn_set.specs.Room.{children, fresh, freshes, gain_room, goes, has_place, leaves_beside, leaving, leaving_beside, left, own_children, rooms_of, serves, width, IsRoomOfOne};
ghost use Rattle.ssa_turn_set.specs.Spare.{fits};
ghost use Rattle.ssa_turn_set.specs.Turn.{IsBetween};
ghost use Rattle.ssa_turn_set.specs.declared.room.Room.TheOpen.{Room-F};
ghost use Rattle.ssa_turn_set.specs.declared.room.Room.TheViews.{out-Room};
ghost use Rattle.ssa_turn_set.specs.declared.spare.Spare.TheVariants.{Nothing};

use crate::kept_paths::KeptPaths;
use crate::loss::{count_whole, goes_whole, make_loss_room, place_or};
use crate::room::Room;
use crate::spare::Spare;
use crate::turn::{SetDelta, SetRoom};
use ssa_path::children::find_child;
use ssa_path::combine::{Combination, combine};
use ssa_path::element::Elem;
use ssa_path::field_set::FieldSet;
use ssa_path::parting::part;
use ssa_path::trie::Trie;
use ssa_path::within::lies_within;
use std::alloc::{AllocError, Global};
use std::mem;

// A copy of the element, as room for it.
fn make_spare(alloc: Global, element: &Elem) -> Result<Spare, AllocError>
    ensures { IfOk result (λ s. fits (element_view element.now) s ≡ true) }
{
    let kept = element.copy(alloc)?;
    Ok(Spare::Kept(kept))
}

// Room for the element of a child that comes; one that is there already needs none.
fn make_spare_for(alloc: Global, element: &Elem, coming: usize) -> Result<Spare, AllocError>
    ensures { IfOk result (λ s. (ps : List Path) → coming ≡ fresh ps → serves (element_view element.now) ps s ≡ true) }
{
    if coming == 0 {
        return Ok(Spare::Nothing);
    }
    make_spare(alloc, element)
}

// An empty vector with room for a place's children, where some are lost whole, but not all: so many of them leave.
pub(crate) fn make_children(
    alloc: Global,
    going: usize,
    leaving: usize,
    len: usize,
) -> Result<Vec<(Elem, Trie)>, AllocError>
    ensures items { IfOk result (λ v. v.items ≡ []) }
    ensures fits { IfOk result (λ v. 0 < going → leaving < len → len ≤ vec_capacity v) }
{
    if going == 0 || leaving >= len {
        return Ok(Vec::new(alloc));
    }
    Vec::with_capacity(alloc, len)
}

// Takes the room for one child one place further down, and tells whether it did: another room, or one that is too far
// down already, stays as it is.
#[inline(always)]
pub(crate) fn lower_lone(room: &mut Room) -> bool
    ensures lowered { result ≡ true → rooms_of (out-Room room.new) ≡ (Nothing, room.old) ∷ [] }
    ensures own { own_children (out-Room room.new) ≡ own_children (out-Room room.old) }
    ensures same { result ≡ false → room.new ≡ room.old }
{
    match room {
        Room::Lone { above, .. } if *above < u8::MAX => {
            *above += 1;
            true
        }
        _ => false,
    }
}

// The room of a place with this room for the one child that is concerned.
fn make_one_each(
    alloc: Global,
    children: Vec<(Elem, Trie)>,
    spare: Spare,
    place: Room,
) -> Result<Room, AllocError>
    ensures { IfOk result (IsRoomOfOne children spare place) }
{
    let mut below = Vec::with_capacity(alloc, 1)?;
    below.push((spare, place))?;
    Ok(Room::Each { children, below })
}

// Makes of the room for the one child that is concerned, which was found at `near`, that of its place.
#[inline(always)]
pub(crate) fn put_above(
    alloc: Global,
    children: Vec<(Elem, Trie)>,
    spare: Spare,
    near: usize,
    room: &mut Room,
) -> Result<(), AllocError>
    ensures { IfOk result (λ _. IsRoomOfOne children spare room.old room.new) }
{
    match room {
        Room::Nothing => {
            *room = Room::Lone {
                above: 0,
                near: near.min(u32::MAX as usize) as u32,
                children,
                spare,
            };
        }
        _ => {
            let place = mem::replace(room, Room::Nothing);
            *room = make_one_each(alloc, children, spare, place)?;
        }
    }
    Ok(())
}

// 1 where nothing is left of a place that loses these paths, for which it is walked. Of one with more children than are lost
// something stays.
fn count_gone(place: &Trie, lost: &Trie) -> usize
    requires place { is_trie place.now ≡ true }
    requires lost { is_trie lost.now ≡ true }
    ensures one { result ≡ fresh (left (paths place.now) (paths lost.now)) }
    ensures most { result ≤ 1 }
{
    if place.below.len() > lost.below.len() {
        return 0;
    }
    if lies_within(place, lost) { 1 } else { 0 }
}

// 1 where a set's child of the same element goes whole with these paths, unless it is among the gained.
fn count_leaving(own: &[(Elem, Trie)], lost: &(Elem, Trie), gained: &[(Elem, Trie)]) -> usize
    requires rise { rises (elements own.now) ≡ true }
    requires tries { are_filled_tries own.now ≡ true }
    requires lost { is_trie lost.now.1 ≡ true }
    requires gained { rises (elements gained.now) ≡ true }
    ensures { result ≡ leaves_beside gained.now lost.now own.now }
{
    if find_child(gained, &lost.0).is_some() {
        return 0;
    }
    match find_child(own, &lost.0) {
        Some(place) => count_gone(place, &lost.1),
        None => 0,
    }
}

// How many of a set's children go whole where it loses these, but for the gained.
fn count_all_leaving(own: &[(Elem, Trie)], lost: &[(Elem, Trie)], gained: &[(Elem, Trie)]) -> usize
    requires rise { rises (elements own.now) ≡ true }
    requires tries { are_filled_tries own.now ≡ true }
    requires lost { are_filled_tries lost.now ≡ true }
    requires gained { rises (elements gained.now) ≡ true }
    ensures { result ≡ leaving_beside gained.now lost.now own.now }
{
    let mut count = 0;
    for child in lost {
        count += count_leaving(own, child, gained);
    }
    count
}

// Room for so many children that come, beside those that a set has left of its own.
fn make_coming_children(
    alloc: Global,
    coming: usize,
    own: &Trie,
    leaving: usize,
) -> Result<Vec<(Elem, Trie)>, AllocError>
    requires few { coming < 2 ^ 63 }
    requires leaving { leaving ≤ length (children own.now) }
    ensures items { IfOk result (λ v. v.items ≡ []) }
    ensures fits { IfOk result (λ v. 0 < coming → length (children own.now) - leaving + coming ≤ vec_capacity v) }
{
    if coming == 0 {
        return Ok(Vec::new(alloc));
    }
    Vec::with_capacity(alloc, own.below.len() - leaving + coming)
}

// The vector for a place's children, where so many come, and whether it had none left: of the gained so many had gone whole.
fn make_gain_children(
    alloc: Global,
    gained: &Trie,
    own: &Trie,
    lost: &Trie,
    coming: usize,
    going: usize,
) -> Result<(Vec<(Elem, Trie)>, bool), AllocError>
    requires gained { is_trie gained.now ≡ true }
    requires own { is_trie own.now ≡ true }
    requires lost { is_trie lost.now ≡ true }
    requires few { coming < 2 ^ 63 }
    requires coming { coming ≡ freshes (children gained.now) (left (paths own.now) (paths lost.now)) }
    requires going { going + leaving_beside (children gained.now) (children lost.now) (children own.now) ≡ leaving (children lost.now) (children own.now) }
    ensures items { IfOk result (λ r. r.0.items ≡ []) }
    ensures fits { IfOk result (λ r. 0 < coming → length (heads (left (paths own.now) (paths lost.now))) + coming ≤ vec_capacity r.0) }
    ensures goes { IfOk result (λ r. r.1 ≡ goes (paths own.now) (paths lost.now)) }
{
    if coming == 0 && own.below.len() > lost.below.len() {
        return Ok((Vec::new(alloc), false));
    }
    let leaving = going + count_all_leaving(&own.below, &lost.below, &gained.below);
    let children = make_coming_children(alloc, coming, own, leaving)?;
    Ok((children, goes_whole(own, lost, leaving)))
}

// Makes of the room of the one child that is gained, which comes or is there, that of its place, with this vector for its children:
// where it is there, no memory is taken for the room of one child further down.
#[inline(always)]
fn put_gain_above(
    alloc: Global,
    element: &Elem,
    comes: usize,
    children: Vec<(Elem, Trie)>,
    room: &mut Room,
) -> Result<(), AllocError>
    requires empty { children.items ≡ [] }
    ensures rooms { IfOk result (λ _. (s : Spare) × (rooms_of (out-Room room.new) ≡ (s, room.old) ∷ [])
        × ((ps : List Path) → comes ≡ fresh ps → serves (element_view element.now) ps s ≡ true)) }
    ensures own { IfOk result (λ _. own_children (out-Room room.old) ≡ [] → own_children (out-Room room.new) ≡ []) }
    ensures place { IfOk result (λ _. 0 < comes → has_place (out-Room room.new) ≡ true) }
    ensures wide { IfOk result (λ _. 0 < comes → vec_capacity children ≤ width (out-Room room.new)) }
{
    if comes == 0 && lower_lone(room) {
        return Ok(());
    }
    let spare = make_spare_for(alloc, element, comes)?;
    put_above(alloc, children, spare, 0, room)
}

// The same as `make_place_gain` tells, where one child is gained.
#[cycle(gain_room)]
#[inline(never)]
fn make_one_gain(
    alloc: Global,
    gained: &Trie,
    own: &Trie,
    lost: &Trie,
    room: &mut Room,
) -> Result<bool, AllocError>
    requires gained { is_trie gained.now ≡ true }
    requires own { is_trie own.now ≡ true }
    requires lost { is_trie lost.now ≡ true }
    requires one { length (children gained.now) ≡ 1 }
    requires nothing { out-Room room.old ≡ Room-F.Nothing }
    ensures room { IfOk result (λ r. gain_room gained.now (left (paths own.now) (paths lost.now)) room.new ≡ true) }
    ensures goes { IfOk result (λ r. r ≡ goes (paths own.now) (paths lost.now)) }
{
    let bare = Trie {
        here: false,
        below: Vec::new(alloc),
    };
    let child = &gained.below[0];
    let place = place_or(&own.below, &child.0, &bare);
    let gone = place_or(&lost.below, &child.0, &bare);
    let goes = make_place_gain(alloc, &child.1, place, gone, room)?;
    let comes = usize::from(goes);
    let going = count_whole(place, goes);
    let (children, place_goes) = make_gain_children(alloc, gained, own, lost, comes, going)?;
    put_gain_above(alloc, &child.0, comes, children, room)?;
    Ok(place_goes)
}

// The same as `make_place_gain` tells, where any number of children is gained.
#[cycle(gain_room)]
#[inline(never)]
fn make_each_gain(
    alloc: Global,
    gained: &Trie,
    own: &Trie,
    lost: &Trie,
    room: &mut Room,
) -> Result<bool, AllocError>
    requires gained { is_trie gained.now ≡ true }
    requires own { is_trie own.now ≡ true }
    requires lost { is_trie lost.now ≡ true }
    ensures room { IfOk result (λ r. gain_room gained.now (left (paths own.now) (paths lost.now)) room.new ≡ true) }
    ensures goes { IfOk result (λ r. r ≡ goes (paths own.now) (paths lost.now)) }
{
    let bare = Trie {
        here: false,
        below: Vec::new(alloc),
    };
    let mut below = Vec::with_capacity(alloc, gained.below.len())?;
    let mut coming = 0;
    let mut leaving = 0;
    for child in &gained.below {
        let place = place_or(&own.below, &child.0, &bare);
        let gone = place_or(&lost.below, &child.0, &bare);
        let mut child_room = Room::Nothing;
        let goes = make_place_gain(alloc, &child.1, place, gone, &mut child_room)?;
        let comes = usize::from(goes);
        let spare = make_spare_for(alloc, &child.0, comes)?;
        coming += comes;
        leaving += count_whole(place, goes);
        below.push((spare, child_room))?;
    }
    let (children, goes) = make_gain_children(alloc, gained, own, lost, coming, leaving)?;
    *room = Room::Each { children, below };
    Ok(goes)
}

// Makes room enough to put the paths of `gained` into a place that lost those of `lost`, and tells whether it then had none left.
//
// That is told from what the children tell; those that are lost and not gained are walked, where it is asked how many go.
#[cycle(gain_room)]
#[inline(always)]
fn make_place_gain(
    alloc: Global,
    gained: &Trie,
    own: &Trie,
    lost: &Trie,
    room: &mut Room,
) -> Result<bool, AllocError>
    requires gained { is_trie gained.now ≡ true }
    requires own { is_trie own.now ≡ true }
    requires lost { is_trie lost.now ≡ true }
    requires nothing { out-Room room.old ≡ Room-F.Nothing }
    ensures room { IfOk result (λ r. gain_room gained.now (left (paths own.now) (paths lost.now)) room.new ≡ true) }
    ensures goes { IfOk result (λ r. r ≡ goes (paths own.now) (paths lost.now)) }
{
    match gained.below.len() {
        0 => Ok(count_gone(own, lost) == 1),
        1 => make_one_gain(alloc, gained, own, lost, room),
        _ => make_each_gain(alloc, gained, own, lost, room),
    }
}

/// Room enough to put the paths of `gained` into a set that had those of `own` and lost those of
/// `lost`.
pub fn make_gain_room(
    alloc: Global,
    gained: &Trie,
    own: &Trie,
    lost: &Trie,
) -> Result<Room, AllocError>
    requires gained { is_trie gained.now ≡ true }
    requires own { is_trie own.now ≡ true }
    requires lost { is_trie lost.now ≡ true }
    ensures { IfOk result (λ r. gain_room gained.now (left (paths own.now) (paths lost.now)) r ≡ true) }
{
    if gained.below.is_empty() {
        return Ok(Room::Nothing);
    }
    let mut room = Room::Nothing;
    let _goes = make_place_gain(alloc, gained, own, lost, &mut room)?;
    Ok(room)
}

// What a combination keeps of two tries, with no more room than it needs: a record keeps it for long.
pub(crate) fn combine_exactly(
    alloc: Global,
    own: &Trie,
    other: &Trie,
    how: Combination,
) -> Result<Trie, AllocError>
    requires own { is_trie own.now ≡ true }
    requires other { is_trie other.now ≡ true }
    ensures { IfOk result (λ t. IsCombination how own.now other.now t) }
{
    let combined = combine(alloc, own, other, how)?;
    combined.copy(alloc)
}

/// The record that leads from one set to another, with room for every turn of it.
///
/// All memory that its turns want is taken here; `Err` comes where it is refused.
pub fn between(alloc: Global, from: &FieldSet, to: &FieldSet) -> Result<SetDelta, AllocError>
    ensures { IfOk result (λ d. IsBetween from.now to.now d) }
{
    let (own, other) = (from.root(), to.root());
    let alone = part(alloc, own, other)?;
    let gain_room = make_gain_room(alloc, &alone.other, own, &alone.own)?;
    let loss = make_loss_room(alloc, &alone.own, own)?;
    Ok(SetDelta {
        gain: KeptPaths::of_trie(alone.other),
        lose: KeptPaths::of_trie(alone.own),
        room: SetRoom {
            gain: gain_room,
            lose: loss.room,
        },
    })
}
