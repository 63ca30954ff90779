//! The record of two tables, made with the room for its turns.
ghost use Rattle.std.specs.Prelude.{◌≡◌, ◌≤◌, ◌∷◌, [], true, length, option_map, vec_capacity, IfOk, IfSome};
ghost use Rattle.ssa_model.specs.definitions.Json.{same_text};
ghost use Rattle.ssa_model.specs.definitions.Limits.{most_managers};
ghost use Rattle.ssa_model.specs.definitions.Record.{change_of, changes, gone_from, is_unchanged, new_in, new_moment, table_record};
ghost use Rattle.ssa_model.specs.definitions.Table.{entry_of};
ghost use Rattle.ssa_model.specs.definitions.Valid.{has_distinct_keys, KeepsOrder};
ghost use Rattle.ssa_merge.specs.Managers.{entry_view, key_view, table_view};
ghost use Rattle.ssa_turn_set.specs.Turn.{HasRoom};
ghost use Rattle.ssa_turn_table.specs.Changing.{AllHaveRoom, change_in, owning};
ghost use Rattle.ssa_turn_table.specs.Going.{AllKeysAgree};
ghost use Rattle.ssa_turn_table.specs.Tables.{change_view, changes_view, heres_view, keys_view};
ghost use Rattle.ssa_turn_table.specs.Turning.{HasTableRoom, table_steps};

use crate::delta::{EntryChange, Here, TableDelta, TableRoom};
use ssa_json::moment::Moment;
use ssa_merge::manager::ManagerKey;
use ssa_merge::managers::Entry;
use ssa_merge::seat::is_in_table;
use ssa_path::field_set::FieldSet;
use ssa_turn_set::making::between;
use std::alloc::{AllocError, Global};

/// The manager's entry.
pub fn find_entry<'a>(table: &'a [Entry], key: &ManagerKey) -> Option<&'a Entry>
    ensures { option_map (λ e. entry_view e.now) result ≡ entry_of (table_view table.now) (key_view key.now) }
{
    for entry in table {
        if entry.key.is_same(key) {
            return Some(entry);
        }
    }
    None
}

// Whether both are one moment.
pub(crate) fn is_same_moment(before: Moment, after: Moment) -> bool
    ensures { result ≡ same_text before after }
{
    before == after
}

// The moment afterwards, where it is another. (Inlined, a moment that may be there is moved byte by byte.)
#[inline(never)]
pub(crate) fn new_moment(before: Moment, after: Moment) -> Option<Moment>
    ensures { result ≡ new_moment before after }
{
    if is_same_moment(before, after) {
        return None;
    }
    Some(after)
}

// Whether the entry has these paths and this moment. The moment, which is mostly another, is looked at first: no set is
// walked then.
fn is_unchanged(entry: &Entry, set: &FieldSet, at: Moment) -> bool
    ensures { result ≡ is_unchanged (entry_view entry.now) (owning (entry_view entry.now) set.now at) }
{
    is_same_moment(entry.at, at) && entry.set.is_same(set)
}

// The change of an entry whose manager owns these paths then, with this moment.
pub(crate) fn change_to(
    alloc: Global,
    entry: &Entry,
    set: &FieldSet,
    at: Moment,
) -> Result<Option<EntryChange>, AllocError>
    ensures change { IfOk result (λ c. option_map change_view c ≡ change_of (entry_view entry.now) (Some (owning (entry_view entry.now) set.now at))) }
    ensures room { IfOk result (λ c. IfSome c (λ d. HasRoom d.set entry.now.set)) }
{
    if is_unchanged(entry, set, at) {
        return Ok(None);
    }
    let key = entry.key.copy(alloc)?;
    let delta = between(alloc, &entry.set, set)?;
    Ok(Some(EntryChange {
        key,
        set: delta,
        at: new_moment(entry.at, at),
    }))
}

// The change of an entry to the one of its manager in a table.
fn change_in(
    alloc: Global,
    entry: &Entry,
    table: &[Entry],
) -> Result<Option<EntryChange>, AllocError>
    ensures change { IfOk result (λ c. option_map change_view c ≡ change_in (table_view table.now) (entry_view entry.now)) }
    ensures room { IfOk result (λ c. IfSome c (λ d. HasRoom d.set entry.now.set)) }
{
    match find_entry(table, &entry.key) {
        Some(other) => change_to(alloc, entry, &other.set, other.at),
        None => Ok(None),
    }
}

// The changes of the managers that both tables have.
fn changes_between(
    alloc: Global,
    from: &[Entry],
    to: &[Entry],
) -> Result<Vec<EntryChange>, AllocError>
    requires { has_distinct_keys (table_view from.now) ≡ true }
    ensures changes { IfOk result (λ cs. changes_view cs.items ≡ changes (table_view from.now) (table_view to.now)) }
    ensures room { IfOk result (λ cs. AllHaveRoom (table_view from.now) cs.items) }
{
    let mut changed = Vec::new(alloc);
    for entry in from {
        if let Some(change) = change_in(alloc, entry, to)? {
            changed.push(change)?;
        }
    }
    Ok(changed)
}

// The managers of the first table that the second has not.
fn gone_between(alloc: Global, from: &[Entry], to: &[Entry]) -> Result<Vec<ManagerKey>, AllocError>
    ensures { IfOk result (λ ks. keys_view ks.items ≡ gone_from (table_view from.now) (table_view to.now)) }
{
    let mut gone = Vec::new(alloc);
    for entry in from {
        if !is_in_table(to, &entry.key) {
            gone.push(entry.key.copy(alloc)?)?;
        }
    }
    Ok(gone)
}

// An entry that comes, at its place.
fn here_at(alloc: Global, place: usize, entry: &Entry) -> Result<Here, AllocError>
    ensures here { IfOk result (λ h. heres_view (h ∷ []) ≡ (place, entry_view entry.now) ∷ []) }
    ensures keys { IfOk result (λ h. AllKeysAgree (h ∷ [])) }
{
    let copied = entry.copy(alloc)?;
    let key = entry.key.copy(alloc)?;
    Ok(Here {
        place,
        entry: copied,
        key,
    })
}

// The entries of the second table whose managers the first has not.
fn here_between(alloc: Global, from: &[Entry], to: &[Entry]) -> Result<Vec<Here>, AllocError>
    ensures here { IfOk result (λ hs. heres_view hs.items ≡ new_in (table_view from.now) (table_view to.now)) }
    ensures keys { IfOk result (λ hs. AllKeysAgree hs.items) }
{
    let mut here = Vec::new(alloc);
    for (place, entry) in to.iter().enumerate() {
        if !is_in_table(from, &entry.key) {
            here.push(here_at(alloc, place, entry)?)?;
        }
    }
    Ok(here)
}

/// Room for the lists of the way back, where so many are gone and so many here.
pub fn make_table_room(alloc: Global, gone: usize, here: usize) -> Result<TableRoom, AllocError>
    ensures gone_empty { IfOk result (λ r. r.gone.items ≡ []) }
    ensures here_empty { IfOk result (λ r. r.here.items ≡ []) }
    ensures gone_room { IfOk result (λ r. here ≤ vec_capacity r.gone) }
    ensures here_room { IfOk result (λ r. gone ≤ vec_capacity r.here) }
{
    let gone_back = Vec::with_capacity(alloc, here)?;
    let here_back = Vec::with_capacity(alloc, gone)?;
    Ok(TableRoom {
        gone: gone_back,
        here: here_back,
    })
}

/// The record that leads from one table to another, with room for every turn of it.
///
/// All memory that its turns want is taken here; `Err` comes where it is refused. The sets of a
/// manager of both tables are compared, and those that differ get a record of their own.
pub fn table_between(alloc: Global, from: &[Entry], to: &[Entry]) -> Result<TableDelta, AllocError>
    requires from { has_distinct_keys (table_view from.now) ≡ true }
    requires to { has_distinct_keys (table_view to.now) ≡ true }
    requires order { KeepsOrder (table_view from.now) (table_view to.now) }
    requires few { length to.now ≤ most_managers }
    ensures record { IfOk result (λ d. table_steps d ≡ table_record (table_view from.now) (table_view to.now)) }
    ensures room { IfOk result (λ d. HasTableRoom d (table_view from.now)) }
{
    let changed = changes_between(alloc, from, to)?;
    let gone = gone_between(alloc, from, to)?;
    let here = here_between(alloc, from, to)?;
    let room = make_table_room(alloc, gone.len(), here.len())?;
    Ok(TableDelta {
        changed,
        gone,
        here,
        room,
    })
}
