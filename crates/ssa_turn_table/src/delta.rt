//! The record of two tables of managers.
ghost use Rattle.std.specs.Prelude.{◌≡◌};

use ssa_json::moment::Moment;
use ssa_merge::manager::ManagerKey;
use ssa_merge::managers::Entry;
use ssa_turn_set::turn::SetDelta;

/// A manager of both tables: what becomes of its set, and its moment afterwards where it is another.
#[derive(Drop)]
pub struct EntryChange {
    pub key: ManagerKey,
    pub set: SetDelta,
    pub at: Option<Moment>,
}

impl EntryChange {
    /// The manager, what becomes of its set, and its new moment: nothing else is kept. Takes no memory.
    pub fn into_parts(self) -> (ManagerKey, SetDelta, Option<Moment>)
        ensures key { result.0 ≡ self.key }
        ensures set { result.1 ≡ self.set }
        ensures at { result.2 ≡ self.at }
    {
        let EntryChange { key, set, at } = self;
        (key, set, at)
    }
}

/// An entry that comes, and its place in the table afterwards.
///
/// `key` is the entry's manager once more: it stands in the list of those gone on the way back, so
/// that no name is copied in a turn.
#[derive(Drop)]
pub struct Here {
    pub place: usize,
    pub entry: Entry,
    pub key: ManagerKey,
}

impl Here {
    /// The place, the entry, and its manager once more: nothing else is kept. Takes no memory.
    pub fn into_parts(self) -> (usize, Entry, ManagerKey)
        ensures place { result.0 ≡ self.place }
        ensures entry { result.1 ≡ self.entry }
        ensures key { result.2 ≡ self.key }
    {
        let Here { place, entry, key } = self;
        (place, entry, key)
    }
}

/// The room for the lists of the way back, both empty.
#[derive(Drop)]
pub struct TableRoom {
    pub gone: Vec<ManagerKey>,
    pub here: Vec<Here>,
}

impl TableRoom {
    /// The room for both lists: nothing else is kept. Takes no memory.
    pub fn into_parts(self) -> (Vec<ManagerKey>, Vec<Here>)
        ensures gone { result.0 ≡ self.gone }
        ensures here { result.1 ≡ self.here }
    {
        let TableRoom { gone, here } = self;
        (gone, here)
    }
}

/// A record of a table: the managers that change, those that are gone and those that are here, each
/// in table order, with the room for a turn, which serves the way back as well.
#[derive(Drop)]
pub struct TableDelta {
    pub changed: Vec<EntryChange>,
    pub gone: Vec<ManagerKey>,
    pub here: Vec<Here>,
    pub room: TableRoom,
}

impl TableDelta {
    /// The managers that change, those gone and those here, and the room: nothing else is kept. Takes no memory.
    pub fn into_parts(self) -> (Vec<EntryChange>, Vec<ManagerKey>, Vec<Here>, TableRoom)
        ensures changed { result.0 ≡ self.changed }
        ensures gone { result.1 ≡ self.gone }
        ensures here { result.2 ≡ self.here }
        ensures room { result.3 ≡ self.room }
    {
        let TableDelta {
            changed,
            gone,
            here,
            room,
        } = self;
        (changed, gone, here, room)
    }
}
