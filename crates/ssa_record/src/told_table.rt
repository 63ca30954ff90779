//! What a record tells of a table, tested against the table and made ready to be turned.
ghost use Rattle.std.specs.Prelude.{◌≡◌, ◌≤◌, ◌∷◌, [], None, true, false, is_some, length, map, Decides, IfOk, IfSome};
ghost use Rattle.ssa_model.specs.definitions.Carry.{carry_table};
ghost use Rattle.ssa_model.specs.definitions.Limits.{most_managers};
ghost use Rattle.ssa_model.specs.definitions.Path.{Path};
ghost use Rattle.ssa_model.specs.definitions.PathMap.{has, has_at_or_above};
ghost use Rattle.ssa_model.specs.definitions.Table.{Table, owned_by};
ghost use Rattle.ssa_model.specs.definitions.Takes.{TableTakes};
ghost use Rattle.ssa_model.specs.definitions.Valid.{has_distinct_keys, IsTable};
ghost use Rattle.ssa_model.specs.laws.FittingRecords.{TableFits};
ghost use Rattle.ssa_merge.specs.Managers.{key_view, table_view};
ghost use Rattle.ssa_told.specs.Told.{told_change, told_here, told_table};
ghost use Rattle.ssa_turn_set.specs.Turn.{HasRoom, set_steps};
ghost use Rattle.ssa_turn_table.specs.Changing.{AllHaveRoom};
ghost use Rattle.ssa_turn_table.specs.Going.{AllKeysAgree};
ghost use Rattle.ssa_turn_table.specs.Tables.{change_view, changes_view, here_view, heres_view};
ghost use Rattle.ssa_turn_table.specs.Turning.{HasTableRoom, table_steps};

use crate::fitting_changes::do_entries_fit;
use crate::fitting_here::do_heres_fit;
use crate::fitting_lists::do_lists_fit;
use ssa_merge::manager::ManagerKey;
use ssa_merge::managers::Entry;
use ssa_path::field_set::FieldSet;
use ssa_told::told::{ToldChange, ToldHere, ToldTable};
use ssa_turn_set::kept_paths::KeptPaths;
use ssa_turn_set::loss::make_loss_room;
use ssa_turn_set::making::make_gain_room;
use ssa_turn_set::turn::{SetDelta, SetRoom};
use ssa_turn_table::between::{find_entry, make_table_room};
use ssa_turn_table::delta::{EntryChange, Here, TableDelta};
use ssa_typed::body::Body;
use std::alloc::{AllocError, Global};

// Whether the record fits the table, where this is the body after it and these paths are cut.
fn does_table_fit(
    alloc: Global,
    entries: &[Entry],
    after: &Body,
    cut: &FieldSet,
    told: &ToldTable,
) -> Result<bool, AllocError>
    requires table { has_distinct_keys (table_view entries.now) ≡ true }
    requires few { length entries.now ≤ most_managers }
    ensures { IfOk result (λ b. Decides b (TableFits (told_table told.now) (table_view entries.now) after.now cut.now)) }
{
    if !do_lists_fit(entries, told) {
        return Ok(false);
    }
    if !do_entries_fit(alloc, after, cut, entries, told)? {
        return Ok(false);
    }
    do_heres_fit(alloc, after, &told.here)
}

// The record of a set that gains and loses these paths, with the room for its turns.
fn set_delta(
    alloc: Global,
    set: &FieldSet,
    mut gain: FieldSet,
    mut lose: FieldSet,
) -> Result<SetDelta, AllocError>
    ensures steps { IfOk result (λ d. set_steps d ≡ record { gain = gain; lose = lose }) }
    ensures room { IfOk result (λ d. HasRoom d set.now) }
{
    let gained = gain.take_root();
    let lost = lose.take_root();
    let own = set.root();
    let gain_room = make_gain_room(alloc, &gained, own, &lost)?;
    let loss = make_loss_room(alloc, &lost, own)?;
    Ok(SetDelta {
        gain: KeptPaths::of_trie(gained),
        lose: KeptPaths::of_trie(lost),
        room: SetRoom {
            gain: gain_room,
            lose: loss.room,
        },
    })
}

// The record of the manager's set; one that is not in the table has the empty set.
fn told_delta(
    alloc: Global,
    entries: &[Entry],
    key: &ManagerKey,
    gain: FieldSet,
    lose: FieldSet,
) -> Result<SetDelta, AllocError>
    ensures steps { IfOk result (λ d. set_steps d ≡ record { gain = gain; lose = lose }) }
    ensures room { IfOk result (λ d. HasRoom d (owned_by (table_view entries.now) (key_view key.now))) }
{
    match find_entry(entries, key) {
        Some(entry) => set_delta(alloc, &entry.set, gain, lose),
        None => set_delta(alloc, &FieldSet::new(alloc), gain, lose),
    }
}

// The change that is told, with the room for its turns.
fn change_of_told(
    alloc: Global,
    entries: &[Entry],
    told: ToldChange,
) -> Result<EntryChange, AllocError>
    ensures change { IfOk result (λ c. change_view c ≡ told_change told) }
    ensures room { IfOk result (λ c. AllHaveRoom (table_view entries.now) (c ∷ [])) }
{
    let ToldChange {
        key,
        gain,
        lose,
        at,
    } = told;
    let set = told_delta(alloc, entries, &key, gain, lose)?;
    Ok(EntryChange { key, set, at })
}

// The changes that are told, each with the room for its turns.
fn changes_of_told(
    alloc: Global,
    entries: &[Entry],
    told: Vec<ToldChange>,
) -> Result<Vec<EntryChange>, AllocError>
    ensures changes { IfOk result (λ cs. changes_view cs.items ≡ map told_change told.items) }
    ensures room { IfOk result (λ cs. AllHaveRoom (table_view entries.now) cs.items) }
{
    let mut changed = Vec::with_capacity(alloc, told.len())?;
    for change in told {
        changed.push(change_of_told(alloc, entries, change)?)?;
    }
    Ok(changed)
}

// The entry that is here, with its manager once more.
fn here_of_told(alloc: Global, told: ToldHere) -> Result<Here, AllocError>
    ensures here { IfOk result (λ h. here_view h ≡ told_here told) }
    ensures keys { IfOk result (λ h. AllKeysAgree (h ∷ [])) }
{
    let ToldHere { place, entry } = told;
    let key = entry.key.copy(alloc)?;
    Ok(Here { place, entry, key })
}

// The entries that are here, each with its manager once more.
fn heres_of_told(alloc: Global, told: Vec<ToldHere>) -> Result<Vec<Here>, AllocError>
    ensures here { IfOk result (λ hs. heres_view hs.items ≡ map told_here told.items) }
    ensures keys { IfOk result (λ hs. AllKeysAgree hs.items) }
{
    let mut here = Vec::with_capacity(alloc, told.len())?;
    for one in told {
        here.push(here_of_told(alloc, one)?)?;
    }
    Ok(here)
}

// The record that is told, with the room for every turn of it.
fn delta_of_told(
    alloc: Global,
    entries: &[Entry],
    told: ToldTable,
) -> Result<TableDelta, AllocError>
    requires { length (carry_table (told_table told) (table_view entries.now)) ≤ most_managers }
    ensures steps { IfOk result (λ d. table_steps d ≡ told_table told) }
    ensures room { IfOk result (λ d. HasTableRoom d (table_view entries.now)) }
{
    let ToldTable {
        changed: changes,
        gone,
        here: heres,
    } = told;
    let changed = changes_of_told(alloc, entries, changes)?;
    let here = heres_of_told(alloc, heres)?;
    let room = make_table_room(alloc, gone.len(), here.len())?;
    Ok(TableDelta {
        changed,
        gone,
        here,
        room,
    })
}

/// The record that is told of a table, with room for every turn of it, where it fits the table.
///
/// `after` is the body after the record, and `cut` the set of the paths that it cuts. All memory
/// that the turns want is taken here; `Err` comes where it is refused.
pub fn table_told(
    alloc: Global,
    entries: &[Entry],
    after: &Body,
    cut: &FieldSet,
    told: ToldTable,
) -> Result<Option<TableDelta>, AllocError>
    requires table { has_distinct_keys (table_view entries.now) ≡ true }
    requires few { length entries.now ≤ most_managers }
    ensures steps { IfOk result (λ t. IfSome t (λ d. table_steps d ≡ told_table told)) }
    ensures fits { IfOk result (λ t. IfSome t (λ d. TableFits (told_table told) (table_view entries.now) after.now cut.now)) }
    ensures room { IfOk result (λ t. IfSome t (λ d. HasTableRoom d (table_view entries.now))) }
    ensures taken { IfOk result (λ t. (u : Table) → TableTakes (told_table told) (table_view entries.now) u → IsTable after.now u
        → ((p : Path) → has after.now p ≡ true → has_at_or_above cut.now p ≡ false) → is_some t ≡ true) }
    ensures refused { IfOk result (λ t. t ≡ None → TableFits (told_table told) (table_view entries.now) after.now cut.now → ⊥) }
{
    if !does_table_fit(alloc, entries, after, cut, &told)? {
        return Ok(None);
    }
    Ok(Some(delta_of_told(alloc, entries, told)?))
}
