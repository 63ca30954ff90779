//! The record of a set that loses some of its paths, with its room.
ghost use Rattle.std.specs.Prelude.{◌≡◌, ◌≤◌, ◌<◌, ◌∷◌, ◌&&◌, if◌then◌else◌, List, [], length, true, None, IfOk};
ghost use Rattle.std.specs.List.{All};
ghost use Rattle.ssa_model.specs.definitions.FieldsV1.{tails};
ghost use Rattle.ssa_model.specs.definitions.Path.{Path};
ghost use Rattle.ssa_model.specs.definitions.PathMap.{minus};
ghost use Rattle.ssa_path.specs.Children.{child_at, elements, rises};
ghost use Rattle.ssa_path.specs.Combine.{IsCombination};
ghost use Rattle.ssa_path.specs.Trie.{are_filled_tries, is_filled, is_trie, paths, paths_below, IsWithin};
ghost use Rattle.ssa_path.specs.View.{element_view};
ghost use Rattle.ssa_turn_set.specs.Room.{children, gain_room, goes, has_place, leaving, left, lose_room, own_children, rooms_of, width};
ghost use Rattle.ssa_turn_set.specs.Turn.{IsBetween};
ghost use Rattle.ssa_turn_set.specs.declared.room.Room.TheOpen.{Room-F};
ghost use Rattle.ssa_turn_set.specs.declared.room.Room.TheViews.{out-Room};
ghost use Rattle.ssa_turn_set.specs.declared.spare.Spare.TheVariants.{Nothing};

use crate::kept_paths::KeptPaths;
use crate::making::{combine_exactly, lower_lone, make_children, put_above};
use crate::room::Room;
use crate::spare::Spare;
use crate::turn::{SetDelta, SetRoom};
use ssa_path::children::find_child;
use ssa_path::combine::Combination;
use ssa_path::element::Elem;
use ssa_path::field_set::FieldSet;
use ssa_path::shared_set::SharedSet;
use ssa_path::trie::Trie;
use ssa_path::within::counterpart;
use std::alloc::{AllocError, Global};
use std::rc::Rc;

// The place of a child of this element: where there is none, the bare one.
#[inline(always)]
pub(crate) fn place_or<'a>(own: &'a [(Elem, Trie)], element: &Elem, bare: &'a Trie) -> &'a Trie
    requires rise { rises (elements own.now) ≡ true }
    requires tries { are_filled_tries own.now ≡ true }
    requires paths { paths bare.now ≡ [] }
    requires trie { is_trie bare.now ≡ true }
    ensures paths { paths result.now ≡ tails (element_view element.now) (paths_below own.now) }
    ensures trie { is_trie result.now ≡ true }
{
    match find_child(own, element) {
        Some(place) => place,
        None => bare,
    }
}

/// Room to take paths out of a set, and whether the set has all of them.
#[derive(Drop)]
pub struct LossRoom {
    pub room: Room,
    pub has_all: bool,
}

// 1 where the place has some path, and is told to go whole.
pub(crate) fn count_whole(place: &Trie, goes: bool) -> usize
    requires { is_trie place.now ≡ true }
    ensures one { result ≡ if is_filled place.now && goes then 1 else 0 }
    ensures most { result ≤ 1 }
{
    usize::from(goes && place.has_paths())
}

// Whether nothing is left of a place that loses these paths, where so many of its children go whole.
pub(crate) fn goes_whole(own: &Trie, lost: &Trie, gone: usize) -> bool
    requires own { is_trie own.now ≡ true }
    requires lost { is_trie lost.now ≡ true }
    requires gone { gone ≡ leaving (children lost.now) (children own.now) }
    ensures { result ≡ goes (paths own.now) (paths lost.now) }
{
    if own.here && !lost.here {
        return false;
    }
    gone == own.below.len()
}

// Whether a place has what it loses, and whether it goes whole, where nothing below it is lost.
#[inline(always)]
fn leaf_loss(lost: &Trie, own: &Trie) -> (bool, bool)
    requires lost { is_trie lost.now ≡ true }
    requires own { is_trie own.now ≡ true }
    requires leaf { children lost.now ≡ [] }
    ensures all { result.0 ≡ true → IsWithin (paths lost.now) (paths own.now) }
    ensures goes { result.1 ≡ goes (paths own.now) (paths lost.now) }
{
    let has_all = own.here || !lost.here;
    (has_all, goes_whole(own, lost, 0))
}

// Makes of the room of the one child that is lost, which goes whole or stays, that of its place: where it stays, no memory is
// taken for the room of one child further down. So many of the place's children leave.
#[inline(always)]
fn put_loss_above(
    alloc: Global,
    goes: bool,
    leaving: usize,
    len: usize,
    near: usize,
    room: &mut Room,
) -> Result<(), AllocError>
    ensures rooms { IfOk result (λ _. rooms_of (out-Room room.new) ≡ (Nothing, room.old) ∷ []) }
    ensures own { IfOk result (λ _. own_children (out-Room room.old) ≡ [] → own_children (out-Room room.new) ≡ []) }
    ensures place { IfOk result (λ _. goes ≡ true → has_place (out-Room room.new) ≡ true) }
    ensures fits { IfOk result (λ _. goes ≡ true → leaving < len → len ≤ width (out-Room room.new)) }
{
    if !goes && lower_lone(room) {
        return Ok(());
    }
    let children = make_children(alloc, usize::from(goes), leaving, len)?;
    put_above(alloc, children, Spare::Nothing, near, room)
}

// The same as `make_place_loss` tells, where one child is lost, whose place this is.
#[cycle(loss)]
#[inline(always)]
fn make_loss_at(
    alloc: Global,
    lost: &Trie,
    own: &Trie,
    place: &Trie,
    room: &mut Room,
    near: &mut usize,
) -> Result<(bool, bool), AllocError>
    requires lost { is_trie lost.now ≡ true }
    requires own { is_trie own.now ≡ true }
    requires one { length (children lost.now) ≡ 1 }
    requires place { All (λ d. paths place.now ≡ tails (element_view d.0) (paths_below (children own.now))) (children lost.now) }
    requires trie { is_trie place.now ≡ true }
    requires nothing { out-Room room.old ≡ Room-F.Nothing }
    ensures room { IfOk result (λ l. lose_room lost.now (left (paths own.now) (paths lost.now)) room.new ≡ true) }
    ensures all { IfOk result (λ l. l.0 ≡ true → IsWithin (paths lost.now) (paths own.now)) }
    ensures goes { IfOk result (λ l. l.1 ≡ goes (paths own.now) (paths lost.now)) }
{
    let child = &lost.below[0];
    let (child_has_all, goes) = make_place_loss(alloc, &child.1, place, room, near)?;
    let leaving = count_whole(place, goes);
    put_loss_above(alloc, goes, leaving, own.below.len(), *near, room)?;
    let mut has_all = own.here || !lost.here;
    has_all &= child_has_all;
    Ok((has_all, goes_whole(own, lost, leaving)))
}

// The same, where the set has no child of the lost one's element. It is rare, and apart: so no bare place is made and dropped where
// the child is there.
#[cycle(loss)]
#[inline(never)]
fn make_absent_loss(
    alloc: Global,
    lost: &Trie,
    own: &Trie,
    room: &mut Room,
    near: &mut usize,
) -> Result<(bool, bool), AllocError>
    requires lost { is_trie lost.now ≡ true }
    requires own { is_trie own.now ≡ true }
    requires one { length (children lost.now) ≡ 1 }
    requires absent { All (λ d. child_at (element_view d.0) (children own.now) ≡ None) (children lost.now) }
    requires nothing { out-Room room.old ≡ Room-F.Nothing }
    ensures room { IfOk result (λ l. lose_room lost.now (left (paths own.now) (paths lost.now)) room.new ≡ true) }
    ensures all { IfOk result (λ l. l.0 ≡ true → IsWithin (paths lost.now) (paths own.now)) }
    ensures goes { IfOk result (λ l. l.1 ≡ goes (paths own.now) (paths lost.now)) }
{
    let bare = Trie {
        here: false,
        below: Vec::new(alloc),
    };
    make_loss_at(alloc, lost, own, &bare, room, near)
}

// The same as `make_place_loss` tells, where one child is lost.
#[cycle(loss)]
#[inline(never)]
fn make_one_loss(
    alloc: Global,
    lost: &Trie,
    own: &Trie,
    room: &mut Room,
    near: &mut usize,
) -> Result<(bool, bool), AllocError>
    requires lost { is_trie lost.now ≡ true }
    requires own { is_trie own.now ≡ true }
    requires one { length (children lost.now) ≡ 1 }
    requires nothing { out-Room room.old ≡ Room-F.Nothing }
    ensures room { IfOk result (λ l. lose_room lost.now (left (paths own.now) (paths lost.now)) room.new ≡ true) }
    ensures all { IfOk result (λ l. l.0 ≡ true → IsWithin (paths lost.now) (paths own.now)) }
    ensures goes { IfOk result (λ l. l.1 ≡ goes (paths own.now) (paths lost.now)) }
{
    match counterpart(&own.below, &lost.below[0], near) {
        Some(place) => make_loss_at(alloc, lost, own, place, room, near),
        None => make_absent_loss(alloc, lost, own, room, near),
    }
}

// The same as `make_place_loss` tells, where any number of children is lost.
#[cycle(loss)]
#[inline(never)]
fn make_each_loss(
    alloc: Global,
    lost: &Trie,
    own: &Trie,
    room: &mut Room,
    near: &mut usize,
) -> Result<(bool, bool), AllocError>
    requires lost { is_trie lost.now ≡ true }
    requires own { is_trie own.now ≡ true }
    ensures room { IfOk result (λ l. lose_room lost.now (left (paths own.now) (paths lost.now)) room.new ≡ true) }
    ensures all { IfOk result (λ l. l.0 ≡ true → IsWithin (paths lost.now) (paths own.now)) }
    ensures goes { IfOk result (λ l. l.1 ≡ goes (paths own.now) (paths lost.now)) }
{
    let bare = Trie {
        here: false,
        below: Vec::new(alloc),
    };
    let mut below = Vec::with_capacity(alloc, lost.below.len())?;
    let mut going = 0;
    let mut leaving = 0;
    let mut has_all = own.here || !lost.here;
    for child in &lost.below {
        let place = place_or(&own.below, &child.0, &bare);
        let mut child_room = Room::Nothing;
        let (child_has_all, goes) = make_place_loss(alloc, &child.1, place, &mut child_room, near)?;
        has_all &= child_has_all;
        going += usize::from(goes);
        leaving += count_whole(place, goes);
        below.push((Spare::Nothing, child_room))?;
    }
    let children = make_children(alloc, going, leaving, own.below.len())?;
    *room = Room::Each { children, below };
    Ok((has_all, goes_whole(own, lost, leaving)))
}

// Makes room enough to take the paths of `lost` out of a place, and tells whether the place has all of them, and whether it then
// goes whole.
//
// That is told from what the children tell, so that none of them is walked for it again at each place above.
#[cycle(loss)]
#[inline(always)]
fn make_place_loss(
    alloc: Global,
    lost: &Trie,
    own: &Trie,
    room: &mut Room,
    near: &mut usize,
) -> Result<(bool, bool), AllocError>
    requires lost { is_trie lost.now ≡ true }
    requires own { is_trie own.now ≡ true }
    requires nothing { out-Room room.old ≡ Room-F.Nothing }
    ensures room { IfOk result (λ l. lose_room lost.now (left (paths own.now) (paths lost.now)) room.new ≡ true) }
    ensures all { IfOk result (λ l. l.0 ≡ true → IsWithin (paths lost.now) (paths own.now)) }
    ensures goes { IfOk result (λ l. l.1 ≡ goes (paths own.now) (paths lost.now)) }
{
    match lost.below.len() {
        0 => Ok(leaf_loss(lost, own)),
        1 => make_one_loss(alloc, lost, own, room, near),
        _ => make_each_loss(alloc, lost, own, room, near),
    }
}

/// Room enough to take the paths of `lost` out of a set of the paths of `own`.
pub fn make_loss_room(alloc: Global, lost: &Trie, own: &Trie) -> Result<LossRoom, AllocError>
    requires lost { is_trie lost.now ≡ true }
    requires own { is_trie own.now ≡ true }
    ensures room { IfOk result (λ l. lose_room lost.now (left (paths own.now) (paths lost.now)) l.room ≡ true) }
    ensures all { IfOk result (λ l. l.has_all ≡ true → IsWithin (paths lost.now) (paths own.now)) }
{
    let mut room = Room::Nothing;
    let (has_all, _goes) = make_place_loss(alloc, lost, own, &mut room, &mut 0)?;
    Ok(LossRoom { room, has_all })
}

// No path, and the room that it needs. Takes no memory.
fn nothing(alloc: Global) -> (KeptPaths, Room)
    ensures paths { paths result.0 ≡ [] }
    ensures trie { is_trie result.0 ≡ true }
    ensures room { (ps : List Path) → gain_room result.0 ps result.1 ≡ true }
{
    let none = Trie {
        here: false,
        below: Vec::new(alloc),
    };
    (KeptPaths::of_trie(none), Room::Nothing)
}

// What a set has of the lost paths, not all of them, with the room to take it out. It is rare, and apart: what it holds on the
// stack is cleared wherever it is inlined.
#[inline(never)]
fn taken_partly(
    alloc: Global,
    lost: &Trie,
    own: &Trie,
    room: &mut Room,
) -> Result<KeptPaths, AllocError>
    requires lost { is_trie lost.now ≡ true }
    requires own { is_trie own.now ≡ true }
    ensures lost { IfOk result (λ t. IsCombination Combination.Meet lost.now own.now t) }
    ensures room { IfOk result (λ t. lose_room t (left (paths own.now) (paths t)) room.new ≡ true) }
{
    let met = combine_exactly(alloc, lost, own, Combination::Meet)?;
    let loss = make_loss_room(alloc, &met, own)?;
    *room = loss.room;
    Ok(KeptPaths::of_trie(met))
}

// What a set has of the lost paths, with the room to take it out, no more of either than is needed: mostly it has them all.
#[inline(always)]
fn taken(
    alloc: Global,
    lost: Rc<Trie>,
    own: &Trie,
    room: &mut Room,
    near: &mut usize,
) -> Result<KeptPaths, AllocError>
    requires lost { is_trie lost.value ≡ true }
    requires own { is_trie own.now ≡ true }
    requires nothing { out-Room room.old ≡ Room-F.Nothing }
    ensures lost { IfOk result (λ t. IsCombination Combination.Meet lost.value own.now t) }
    ensures room { IfOk result (λ t. lose_room t (left (paths own.now) (paths t)) room.new ≡ true) }
{
    let (has_all, _goes) = make_place_loss(alloc, &lost, own, room, near)?;
    if has_all {
        return Ok(KeptPaths::of_shared(lost));
    }
    taken_partly(alloc, &lost, own, room)
}

impl SetDelta {
    /// The record of a set that loses these paths, as far as it has them, with room for every turn of
    /// it.
    ///
    /// Of the set's other paths only so many are looked at as tell where nothing of it is left. A set
    /// that has all of these paths takes them into its record as they are. All memory that its turns
    /// want is taken here; `Err` comes where it is refused.
    ///
    /// `near` is where a path was found in the set of another, which is looked at first: it may be any
    /// number, and is then where it was found in this one.
    pub fn of_loss(
        alloc: Global,
        from: &FieldSet,
        lost: SharedSet,
        near: &mut usize,
    ) -> Result<SetDelta, AllocError>
        ensures { IfOk result (λ d. IsBetween from.now (minus from.now lost) d) }
    {
        let own = from.root();
        let (gain, gain_room) = nothing(alloc);
        let mut lose_room = Room::Nothing;
        let lose = taken(alloc, lost.into_root(), own, &mut lose_room, near)?;
        Ok(SetDelta {
            gain,
            lose,
            room: SetRoom {
                gain: gain_room,
                lose: lose_room,
            },
        })
    }
}
