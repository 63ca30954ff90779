//! A set of paths and the record of what it gains and loses, turned in place.
ghost use Rattle.std.specs.Prelude.{◌≡◌, true};
ghost use Rattle.ssa_model.specs.definitions.PathMap.{listed};
ghost use Rattle.ssa_path.specs.Trie.{is_trie, paths};
ghost use Rattle.ssa_turn_set.specs.Turn.{SetFits, has_set_room, set_steps, set_back, set_target, LeadsBack, SetsAreLed, StepsAreFixed, TargetIsFixed};

use crate::gain::gain;
use crate::kept_paths::KeptPaths;
use crate::lose::lose;
use crate::room::Room;
use ssa_path::trie::Trie;
use std::mem;

/// The room for the paths that are gained and for those that are lost, all of it empty.
#[derive(Drop)]
pub struct SetRoom {
    pub gain: Room,
    pub lose: Room,
}

impl SetRoom {
    /// The rooms of both sides: nothing else is kept. Takes no memory.
    pub fn into_parts(self) -> (Room, Room)
        ensures gain { result.0 ≡ self.gain }
        ensures lose { result.1 ≡ self.lose }
    {
        let SetRoom { gain, lose } = self;
        (gain, lose)
    }
}

/// A record of a field set: the paths that it gains and those that it loses, with the room for a
/// turn, which serves the way back as well.
#[derive(Drop)]
pub struct SetDelta {
    pub gain: KeptPaths,
    pub lose: KeptPaths,
    pub room: SetRoom,
}

impl SetDelta {
    /// What is gained and lost, and the room: nothing else is kept. Takes no memory.
    pub fn into_parts(self) -> (KeptPaths, KeptPaths, SetRoom)
        ensures gain { result.0 ≡ self.gain }
        ensures lose { result.1 ≡ self.lose }
        ensures room { result.2 ≡ self.room }
    {
        let SetDelta { gain, lose, room } = self;
        (gain, lose, room)
    }
}

/// Changes the set as the record says, and leaves the record that leads back. Takes no memory.
pub fn turn_set(set: &mut Trie, delta: &mut SetDelta)
    requires set { is_trie set.old ≡ true }
    requires gain { is_trie delta.old.gain ≡ true }
    requires lose { is_trie delta.old.lose ≡ true }
    requires fits { SetFits (set_steps delta.old) (listed (paths set.old)) }
    requires room { has_set_room delta.old (listed (paths set.old)) ≡ true }
    ensures set { is_trie set.new ≡ true }
    ensures gain { delta.new.gain ≡ delta.old.lose }
    ensures lose { delta.new.lose ≡ delta.old.gain }
    ensures value { listed (paths set.new) ≡ set_target (set_steps delta.old) (listed (paths set.old)) }
    ensures back { SetFits (set_steps delta.new) (listed (paths set.new)) }
    ensures leads_back { set_target (set_steps delta.new) (listed (paths set.new)) ≡ listed (paths set.old) }
    ensures room { has_set_room delta.new (listed (paths set.new)) ≡ true }
{
    lose(delta.lose.as_trie(), set, &mut delta.room.lose);
    gain(delta.gain.as_trie(), set, &mut delta.room.gain);
    mem::swap(&mut delta.gain, &mut delta.lose);
    mem::swap(&mut delta.room.gain, &mut delta.room.lose);
}

/// Turned twice, a set and its record are as they were.
pub fn turn_twice(set: &mut Trie, delta: &mut SetDelta)
    requires set { is_trie set.old ≡ true }
    requires gain { is_trie delta.old.gain ≡ true }
    requires lose { is_trie delta.old.lose ≡ true }
    requires fits { SetFits (set_steps delta.old) (listed (paths set.old)) }
    requires room { has_set_room delta.old (listed (paths set.old)) ≡ true }
    ensures value { listed (paths set.new) ≡ listed (paths set.old) }
    ensures gain { delta.new.gain ≡ delta.old.gain }
    ensures lose { delta.new.lose ≡ delta.old.lose }
    ensures room { has_set_room delta.new (listed (paths set.new)) ≡ true }
{
    turn_set(set, delta);
    turn_set(set, delta);
}

/// A record and the set before fix the set after.
pub fn target_is_fixed()
    ensures { TargetIsFixed }
{}

/// The sets before and after fix the record.
pub fn steps_are_fixed()
    ensures { StepsAreFixed }
{}

/// Where a record leads from one set to another, the turned one leads back.
pub fn leads_back()
    ensures { LeadsBack }
{}

/// From any set to any other a record leads.
pub fn sets_are_led()
    ensures { SetsAreLed }
{}
