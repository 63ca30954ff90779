//! A copy of a record, which serves wherever the record does.
ghost use Rattle.std.specs.Prelude.{◌≡◌, IfOk};
ghost use Rattle.ssa_model.specs.definitions.PathMap.{PathSet};
ghost use Rattle.std.specs.List.{AllZip};
ghost use Rattle.ssa_turn_set.specs.Copies.{ChildServes, RoomServes, SpareServes};
ghost use Rattle.ssa_turn_set.specs.Turn.{HasRoom, set_steps};

use crate::kept_paths::KeptPaths;
use crate::room::Room;
use crate::spare::Spare;
use crate::turn::{SetDelta, SetRoom};
use std::alloc::{AllocError, Global};

// The same room for an element, with new memory.
fn copy_spare(alloc: Global, spare: &Spare) -> Result<Spare, AllocError>
    ensures { IfOk result (λ s. SpareServes spare.now s) }
{
    match spare {
        Spare::Nothing => Ok(Spare::Nothing),
        Spare::Kept(element) => {
            let copied = element.copy(alloc)?;
            Ok(Spare::Kept(copied))
        }
    }
}

// The same rooms for the children of a place, with new memory.
#[cycle(copy)]
fn copy_each(alloc: Global, rooms: &[(Spare, Room)]) -> Result<Vec<(Spare, Room)>, AllocError>
    ensures { IfOk result (λ v. AllZip ChildServes rooms.now v.items) }
{
    let mut below = Vec::with_capacity(alloc, rooms.len())?;
    for child in rooms {
        let spare = copy_spare(alloc, &child.0)?;
        let place = copy_room(alloc, &child.1)?;
        below.push((spare, place))?;
    }
    Ok(below)
}

// The same room for a place and those below it, with new memory.
#[cycle(copy)]
fn copy_room(alloc: Global, room: &Room) -> Result<Room, AllocError>
    ensures { IfOk result (λ r. RoomServes room.now r) }
{
    match room {
        Room::Nothing => Ok(Room::Nothing),
        Room::Lone {
            above,
            near,
            children,
            spare,
        } => {
            let spare = copy_spare(alloc, spare)?;
            let children = Vec::with_capacity(alloc, children.capacity())?;
            Ok(Room::Lone {
                above: *above,
                near: *near,
                children,
                spare,
            })
        }
        Room::Each { children, below } => {
            let below = copy_each(alloc, below)?;
            let children = Vec::with_capacity(alloc, children.capacity())?;
            Ok(Room::Each { children, below })
        }
    }
}

impl SetDelta {
    /// The same record, its room as well, with new memory.
    pub fn copy(&self, alloc: Global) -> Result<SetDelta, AllocError>
        ensures steps { IfOk result (λ d. set_steps d ≡ set_steps self.now) }
        ensures room { IfOk result (λ d. (s : PathSet) → HasRoom self.now s → HasRoom d s) }
    {
        let gain = self.gain.as_trie().copy(alloc)?;
        let lose = self.lose.as_trie().copy(alloc)?;
        let gain_room = copy_room(alloc, &self.room.gain)?;
        let lose_room = copy_room(alloc, &self.room.lose)?;
        Ok(SetDelta {
            gain: KeptPaths::of_trie(gain),
            lose: KeptPaths::of_trie(lose),
            room: SetRoom {
                gain: gain_room,
                lose: lose_room,
            },
        })
    }
}
