//! A copy of a record of tables, which serves wherever the record does.
ghost use Rattle.std.specs.Prelude.{◌≡◌, [], vec_capacity, vec_len, IfOk};
ghost use Rattle.std.specs.List.{AllZip};
ghost use Rattle.ssa_model.specs.definitions.Table.{Table};
ghost use Rattle.ssa_turn_table.specs.Copies.{ChangeIsCopied, HereIsCopied, KeyIsCopied};
ghost use Rattle.ssa_turn_table.specs.Turning.{HasTableRoom, table_steps};

use crate::delta::{EntryChange, Here, TableDelta, TableRoom};
use ssa_merge::manager::ManagerKey;
use std::alloc::{AllocError, Global};

// The same change, its room as well, copied.
fn copy_change(alloc: Global, change: &EntryChange) -> Result<EntryChange, AllocError>
    ensures { IfOk result (λ c. ChangeIsCopied change.now c) }
{
    let key = change.key.copy(alloc)?;
    let set = change.set.copy(alloc)?;
    Ok(EntryChange {
        key,
        set,
        at: change.at,
    })
}

// The same changes, copied.
fn copy_changed(alloc: Global, changed: &Vec<EntryChange>) -> Result<Vec<EntryChange>, AllocError>
    ensures { IfOk result (λ v. AllZip ChangeIsCopied changed.now.items v.items) }
{
    let mut copies = Vec::with_capacity(alloc, changed.len())?;
    for change in changed {
        let copied = copy_change(alloc, change)?;
        copies.push(copied)?;
    }
    Ok(copies)
}

// The same managers, with new memory.
fn copy_gone(alloc: Global, gone: &Vec<ManagerKey>) -> Result<Vec<ManagerKey>, AllocError>
    ensures { IfOk result (λ v. AllZip KeyIsCopied gone.now.items v.items) }
{
    let mut copies = Vec::with_capacity(alloc, gone.len())?;
    for key in gone {
        let copied = key.copy(alloc)?;
        copies.push(copied)?;
    }
    Ok(copies)
}

// The same entry at the same place, copied.
fn copy_one_here(alloc: Global, here: &Here) -> Result<Here, AllocError>
    ensures { IfOk result (λ h. HereIsCopied here.now h) }
{
    let entry = here.entry.copy(alloc)?;
    let key = here.key.copy(alloc)?;
    Ok(Here {
        place: here.place,
        entry,
        key,
    })
}

// The same entries, copied.
fn copy_here(alloc: Global, here: &Vec<Here>) -> Result<Vec<Here>, AllocError>
    ensures { IfOk result (λ v. AllZip HereIsCopied here.now.items v.items) }
{
    let mut copies = Vec::with_capacity(alloc, here.len())?;
    for one in here {
        let copied = copy_one_here(alloc, one)?;
        copies.push(copied)?;
    }
    Ok(copies)
}

// Two empty lists with as much room.
fn copy_table_room(alloc: Global, room: &TableRoom) -> Result<TableRoom, AllocError>
    ensures gone_empty { IfOk result (λ r. r.gone.items ≡ []) }
    ensures gone_room { IfOk result (λ r. vec_capacity r.gone ≡ vec_capacity room.now.gone) }
    ensures here_empty { IfOk result (λ r. r.here.items ≡ []) }
    ensures here_room { IfOk result (λ r. vec_capacity r.here ≡ vec_capacity room.now.here) }
{
    let gone = Vec::with_capacity(alloc, room.gone.capacity())?;
    let here = Vec::with_capacity(alloc, room.here.capacity())?;
    Ok(TableRoom { gone, here })
}

impl TableDelta {
    /// The same record, its room as well, copied.
    pub fn copy(&self, alloc: Global) -> Result<TableDelta, AllocError>
        ensures steps { IfOk result (λ d. table_steps d ≡ table_steps self.now) }
        ensures room { IfOk result (λ d. (t : Table) → HasTableRoom self.now t → HasTableRoom d t) }
    {
        let changed = copy_changed(alloc, &self.changed)?;
        let gone = copy_gone(alloc, &self.gone)?;
        let here = copy_here(alloc, &self.here)?;
        let room = copy_table_room(alloc, &self.room)?;
        Ok(TableDelta {
            changed,
            gone,
            here,
            room,
        })
    }
}
