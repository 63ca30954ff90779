//! The record of what a change makes of a table, in which no set that stays is copied or compared.
ghost use Rattle.std.specs.List.{cons_option};
ghost use Rattle.std.specs.Prelude.{◌≡◌, ◌≤◌, ◌&&◌, ◌++◌, [], not, true, length, map, option_map, IfOk, IfSome, OnOk};
ghost use Rattle.ssa_model.specs.definitions.Json.{same_text};
ghost use Rattle.ssa_model.specs.definitions.PathMap.{PathSet, minus};
ghost use Rattle.ssa_model.specs.definitions.Record.{change_of, changes, gone_from, table_record};
ghost use Rattle.ssa_model.specs.definitions.Table.{Table};
ghost use Rattle.ssa_model.specs.definitions.Valid.{has_distinct_keys, KeepsOrder};
ghost use Rattle.ssa_merge.specs.Managers.{entry_view, key_view, table_view};
ghost use Rattle.ssa_merge.specs.TableChanges.{changed_entries, changed_entry, leaves, lone, LeadsTo};
ghost use Rattle.ssa_path.specs.Trie.{has_some, is_trie, paths};
ghost use Rattle.ssa_turn_set.specs.Turn.{HasRoom, IsBetween};
ghost use Rattle.ssa_turn_table.specs.Changing.{AllHaveRoom, IsPutBehind, change_in, owning};
ghost use Rattle.ssa_turn_table.specs.Going.{AllKeysAgree};
ghost use Rattle.ssa_turn_table.specs.Tables.{change_view, changes_view, heres_view, keys_view};
ghost use Rattle.ssa_turn_table.specs.Turning.{HasTableRoom, table_steps};

use crate::between::{change_to, is_same_moment, make_table_room, new_moment};
use crate::delta::{EntryChange, Here, TableDelta};
use ssa_json::moment::Moment;
use ssa_members::push_closely;
use ssa_merge::manager::ManagerKey;
use ssa_merge::managers::Entry;
use ssa_merge::table_change::{self, TableChange, count_kept};
use ssa_path::field_set::FieldSet;
use ssa_path::shared_set::SharedSet;
use ssa_path::trie::Trie;
use ssa_turn_set::kept_paths::KeptPaths;
use ssa_turn_set::room::Room;
use ssa_turn_set::turn::{SetDelta, SetRoom};
use std::alloc::{AllocError, Global};

// The record of a set that stays, which needs no room. Takes no memory.
fn set_stays(alloc: Global) -> SetDelta
    ensures { (s : PathSet) → IsBetween s s result }
{
    SetDelta {
        gain: KeptPaths::of_trie(Trie {
            here: false,
            below: Vec::new(alloc),
        }),
        lose: KeptPaths::of_trie(Trie {
            here: false,
            below: Vec::new(alloc),
        }),
        room: SetRoom {
            gain: Room::Nothing,
            lose: Room::Nothing,
        },
    }
}

// The change of an entry whose set stays.
fn renewed(alloc: Global, entry: &Entry, at: Moment) -> Result<Option<EntryChange>, AllocError>
    ensures change { IfOk result (λ c. option_map change_view c ≡ change_of (entry_view entry.now) (Some (owning (entry_view entry.now) entry.now.set at))) }
    ensures room { IfOk result (λ c. IfSome c (λ d. HasRoom d.set entry.now.set)) }
{
    if is_same_moment(entry.at, at) {
        return Ok(None);
    }
    let key = entry.key.copy(alloc)?;
    Ok(Some(EntryChange {
        key,
        set: set_stays(alloc),
        at: Some(at),
    }))
}

// Whether a record of a set loses nothing of an entry's, and its moment stays.
fn is_kept(entry: &Entry, delta: &SetDelta, at: Moment) -> bool
    requires { is_trie delta.now.lose ≡ true }
    ensures { result ≡ (not (has_some (paths delta.now.lose)) && same_text entry.now.at at) }
{
    !delta.lose.as_trie().has_paths() && is_same_moment(entry.at, at)
}

// Puts the change of an entry whose manager loses these paths, and then has this moment, behind others, where there is one. A path
// is looked for first at `near`, where the entry before had one.
//
// It is made where it stands, since it is large.
fn push_losing(
    alloc: Global,
    entry: &Entry,
    lost: SharedSet,
    at: Moment,
    near: &mut usize,
    changed: &mut Vec<EntryChange>,
) -> Result<(), AllocError>
    ensures { OnOk result (IsPutBehind entry.now.set (change_of (entry_view entry.now) (Some (owning (entry_view entry.now) (minus entry.now.set lost) at))) changed.old.items changed.new.items) }
{
    let delta = SetDelta::of_loss(alloc, &entry.set, lost, near)?;
    if is_kept(entry, &delta, at) {
        return Ok(());
    }
    let key = entry.key.copy(alloc)?;
    changed.push(EntryChange {
        key,
        set: delta,
        at: new_moment(entry.at, at),
    })?;
    Ok(())
}

// Puts a change behind others, where there is one.
fn push_made(made: Option<EntryChange>, changed: &mut Vec<EntryChange>) -> Result<(), AllocError>
    ensures { OnOk result (changed.new.items ≡ changed.old.items ++ cons_option made []) }
{
    if let Some(made) = made {
        changed.push(made)?;
    }
    Ok(())
}

// Puts the change of an entry whose set stays behind others, where there is one. It is rare beside losses, and apart from them: what
// it holds on the stack is cleared wherever it is inlined.
#[inline(never)]
fn push_renewed(
    alloc: Global,
    entry: &Entry,
    at: Moment,
    changed: &mut Vec<EntryChange>,
) -> Result<(), AllocError>
    ensures { OnOk result (IsPutBehind entry.now.set (change_of (entry_view entry.now) (Some (owning (entry_view entry.now) entry.now.set at))) changed.old.items changed.new.items) }
{
    let made = renewed(alloc, entry, at)?;
    push_made(made, changed)
}

// Puts the change of an entry whose manager owns these paths then behind others, where there is one, apart as well.
#[inline(never)]
fn push_owning(
    alloc: Global,
    entry: &Entry,
    set: &FieldSet,
    at: Moment,
    changed: &mut Vec<EntryChange>,
) -> Result<(), AllocError>
    ensures { OnOk result (IsPutBehind entry.now.set (change_of (entry_view entry.now) (Some (owning (entry_view entry.now) set.now at))) changed.old.items changed.new.items) }
{
    let made = change_to(alloc, entry, set, at)?;
    push_made(made, changed)
}

// Puts the change of an entry by what becomes of it behind others, where there is one.
fn push_change_by(
    alloc: Global,
    entry: &Entry,
    change: &table_change::EntryChange,
    near: &mut usize,
    changed: &mut Vec<EntryChange>,
) -> Result<(), AllocError>
    ensures { OnOk result (IsPutBehind entry.now.set (change_in (changed_entry change.now (entry_view entry.now)) (entry_view entry.now)) changed.old.items changed.new.items) }
{
    match change {
        table_change::EntryChange::Stays => Ok(()),
        table_change::EntryChange::Leaves => Ok(()),
        table_change::EntryChange::Renewed(at) => push_renewed(alloc, entry, *at, changed),
        table_change::EntryChange::Loses(lost, at) => {
            push_losing(alloc, entry, lost.share()?, *at, near, changed)
        }
        table_change::EntryChange::Owns(set, at) => push_owning(alloc, entry, set, *at, changed),
    }
}

// For how many entries a change is told by which their managers stay: no more changes are recorded.
fn count_changing(told: &[table_change::EntryChange]) -> usize
    ensures { result ≤ length told.now }
{
    let mut count = 0;
    for change in told {
        if !matches!(
            change,
            table_change::EntryChange::Stays | table_change::EntryChange::Leaves
        ) {
            count += 1;
        }
    }
    count
}

// The changes of the managers that stay.
fn changes_by(
    alloc: Global,
    entries: &[Entry],
    told: &[table_change::EntryChange],
) -> Result<Vec<EntryChange>, AllocError>
    requires each { length told.now ≡ length entries.now }
    requires distinct { has_distinct_keys (table_view entries.now) ≡ true }
    ensures changes { IfOk result (λ cs. changes_view cs.items ≡ changes (table_view entries.now) (changed_entries told.now (table_view entries.now))) }
    ensures room { IfOk result (λ cs. AllHaveRoom (table_view entries.now) cs.items) }
{
    let mut changed = Vec::with_capacity(alloc, count_changing(told))?;
    let mut near = 0;
    for (place, entry) in entries.iter().enumerate() {
        push_change_by(alloc, entry, &told[place], &mut near, &mut changed)?;
    }
    Ok(changed)
}

// Whether the manager leaves.
fn leaves(change: &table_change::EntryChange) -> bool
    ensures { result ≡ leaves change.now }
{
    matches!(change, table_change::EntryChange::Leaves)
}

// The managers that leave.
fn gone_by(
    alloc: Global,
    entries: &[Entry],
    told: &[table_change::EntryChange],
) -> Result<Vec<ManagerKey>, AllocError>
    requires each { length told.now ≡ length entries.now }
    requires distinct { has_distinct_keys (table_view entries.now) ≡ true }
    ensures { IfOk result (λ ks. keys_view ks.items ≡ gone_from (table_view entries.now) (changed_entries told.now (table_view entries.now))) }
{
    let mut gone = Vec::new(alloc);
    for (place, entry) in entries.iter().enumerate() {
        if leaves(&told[place]) {
            gone.push(entry.key.copy(alloc)?)?;
        }
    }
    Ok(gone)
}

// The manager that comes, behind those that stay: they are counted where one comes. A record keeps it for long, with no more
// room than for one.
fn here_by(
    alloc: Global,
    told: &[table_change::EntryChange],
    newcomer: Option<Entry>,
) -> Result<Vec<Here>, AllocError>
    ensures here { IfOk result (λ hs. (t : Table) → length told.now ≡ length t → heres_view hs.items ≡ map (λ e. (length (changed_entries told.now t), e)) (lone newcomer)) }
    ensures keys { IfOk result (λ hs. AllKeysAgree hs.items) }
{
    let mut here = Vec::new(alloc);
    if let Some(entry) = newcomer {
        let key = entry.key.copy(alloc)?;
        let place = count_kept(told);
        push_closely(&mut here, Here { place, entry, key })?;
    }
    Ok(here)
}

/// The record that leads from a table to the one that a change makes of it, with room for every
/// turn of it.
///
/// All memory that its turns want is taken here; `Err` comes where it is refused. Of the sets only
/// those that the change brings are compared with those that they take the place of; of a set that
/// loses some of its paths, what it keeps is neither copied nor compared.
pub fn table_delta(
    alloc: Global,
    entries: &[Entry],
    change: TableChange,
) -> Result<TableDelta, AllocError>
    requires distinct { has_distinct_keys (table_view entries.now) ≡ true }
    requires leads { (u : Table) × LeadsTo (table_view entries.now) change u × KeepsOrder (table_view entries.now) u }
    ensures record { IfOk result (λ d. (u : Table) → LeadsTo (table_view entries.now) change u → table_steps d ≡ table_record (table_view entries.now) u) }
    ensures room { IfOk result (λ d. HasTableRoom d (table_view entries.now)) }
{
    let TableChange {
        entries: changes,
        newcomer,
    } = change;
    let gone = gone_by(alloc, entries, &changes)?;
    let here = here_by(alloc, &changes, newcomer)?;
    let changed = changes_by(alloc, entries, &changes)?;
    let room = make_table_room(alloc, gone.len(), here.len())?;
    Ok(TableDelta {
        changed,
        gone,
        here,
        room,
    })
}
