//! Whether the changes of a table's record fit the entries, and the entries give up what is cut.
ghost use Rattle.std.specs.Prelude.{◌≡◌, Some, true, false, not, map, Decides, IfOk};
ghost use Rattle.ssa_model.specs.definitions.Json.{Text, same_text};
ghost use Rattle.ssa_model.specs.definitions.Path.{Path};
ghost use Rattle.ssa_model.specs.definitions.PathMap.{has, is_empty, minus, union};
ghost use Rattle.ssa_model.specs.definitions.Valid.{AllEntries, OwnedOwnable};
ghost use Rattle.ssa_model.specs.laws.FittingRecords.{tells_something, ChangeFits, EntryFits};
ghost use Rattle.ssa_merge.specs.Managers.{entry_view, table_view};
ghost use Rattle.ssa_told.specs.Told.{told_change, told_table};
ghost use Rattle.ssa_record.specs.EntryTests.{GivesUp, IsApart, SetChanges, ToldFits};

use crate::fitting_lists::{find_change, is_key_among};
use ssa_json::moment::Moment;
use ssa_merge::managers::Entry;
use ssa_merge::ownable::first_not_ownable;
use ssa_path::field_set::FieldSet;
use ssa_told::told::{ToldChange, ToldTable};
use ssa_typed::body::Body;
use std::alloc::{AllocError, Global};

// Whether each path of the set can be owned in the body.
pub(crate) fn is_ownable(alloc: Global, body: &Body, set: &FieldSet) -> Result<bool, AllocError>
    ensures { IfOk result (λ b. Decides b (OwnedOwnable body.now set.now)) }
{
    match first_not_ownable(alloc, body, set)? {
        Some(_path) => Ok(false),
        None => Ok(true),
    }
}

// Whether no path of the first set is in the second.
fn lacks(alloc: Global, set: &FieldSet, other: &FieldSet) -> Result<bool, AllocError>
    ensures { IfOk result (λ b. Decides b ((p : Path) → has set.now p ≡ true → has other.now p ≡ false)) }
{
    let both = set.meet(alloc, other)?;
    Ok(both.is_empty())
}

// Whether each path of the first set is in the second.
fn lies_in(alloc: Global, set: &FieldSet, other: &FieldSet) -> Result<bool, AllocError>
    ensures { IfOk result (λ b. Decides b ((p : Path) → has set.now p ≡ true → has other.now p ≡ true)) }
{
    let more = set.minus(alloc, other)?;
    Ok(more.is_empty())
}

// Whether the change leaves the set some path.
fn leaves_some(alloc: Global, set: &FieldSet, change: &ToldChange) -> Result<bool, AllocError>
    ensures { IfOk result (λ b. b ≡ not (is_empty (union (minus set.now change.now.lose) change.now.gain))) }
{
    if !change.gain.is_empty() {
        return Ok(true);
    }
    let left = set.minus(alloc, &change.lose)?;
    Ok(!left.is_empty())
}

// Whether the change loses paths of the set's and gains others, and leaves it some.
fn does_set_fit(alloc: Global, set: &FieldSet, change: &ToldChange) -> Result<bool, AllocError>
    ensures { IfOk result (λ b. Decides b (SetChanges (told_change change.now) set.now)) }
{
    if !lies_in(alloc, &change.lose, set)? {
        return Ok(false);
    }
    if !lacks(alloc, &change.gain, set)? {
        return Ok(false);
    }
    leaves_some(alloc, set, change)
}

// Whether the change tells no moment, or another one than this.
fn does_moment_fit(at: Moment, change: &ToldChange) -> bool
    ensures { Decides result ((m : Text) → change.now.at ≡ Some m → same_text at m ≡ false) }
{
    match change.at {
        Some(told) => at != told,
        None => true,
    }
}

// Whether the change tells of paths or a moment.
fn tells_something(change: &ToldChange) -> bool
    ensures { result ≡ tells_something (told_change change.now) }
{
    !(change.gain.is_empty() && (change.lose.is_empty() && change.at.is_none()))
}

// Whether the change fits the entry.
fn does_change_fit(
    alloc: Global,
    after: &Body,
    entry: &Entry,
    change: &ToldChange,
) -> Result<bool, AllocError>
    ensures { IfOk result (λ b. Decides b (ChangeFits after.now (told_change change.now) (entry_view entry.now))) }
{
    if !tells_something(change) {
        return Ok(false);
    }
    if !does_moment_fit(entry.at, change) {
        return Ok(false);
    }
    if !does_set_fit(alloc, &entry.set, change)? {
        return Ok(false);
    }
    is_ownable(alloc, after, &change.gain)
}

// Whether the change that is told of the entry fits it, where one is.
fn does_told_fit(
    alloc: Global,
    after: &Body,
    entry: &Entry,
    changed: &[ToldChange],
) -> Result<bool, AllocError>
    ensures { IfOk result (λ b. Decides b (ToldFits (map told_change changed.now) after.now (entry_view entry.now))) }
{
    match find_change(changed, &entry.key) {
        Some(change) => does_change_fit(alloc, after, entry, change),
        None => Ok(true),
    }
}

// Whether no path of the set is at or below one that is cut.
fn is_apart(alloc: Global, set: &FieldSet, cut: &FieldSet) -> Result<bool, AllocError>
    ensures { IfOk result (λ b. Decides b (IsApart set.now cut.now)) }
{
    let bare = cut.without_over(alloc, set)?;
    Ok(bare.is_same(cut))
}

// Whether the entry gives up what it owns of what is cut: its manager is gone, or a change loses it.
fn gives_up(
    alloc: Global,
    cut: &FieldSet,
    entry: &Entry,
    told: &ToldTable,
) -> Result<bool, AllocError>
    ensures { IfOk result (λ b. Decides b (GivesUp (told_table told.now) cut.now (entry_view entry.now))) }
{
    if is_key_among(&told.gone, &entry.key) {
        return Ok(true);
    }
    match find_change(&told.changed, &entry.key) {
        Some(change) => {
            let left = entry.set.minus(alloc, &change.lose)?;
            is_apart(alloc, &left, cut)
        }
        None => is_apart(alloc, &entry.set, cut),
    }
}

// Whether the record fits the entry.
fn does_entry_fit(
    alloc: Global,
    after: &Body,
    cut: &FieldSet,
    entry: &Entry,
    told: &ToldTable,
) -> Result<bool, AllocError>
    ensures { IfOk result (λ b. Decides b (EntryFits (told_table told.now) after.now cut.now (entry_view entry.now))) }
{
    if !does_told_fit(alloc, after, entry, &told.changed)? {
        return Ok(false);
    }
    gives_up(alloc, cut, entry, told)
}

// Whether the record fits each entry, where this is the body after it and these paths are cut.
pub(crate) fn do_entries_fit(
    alloc: Global,
    after: &Body,
    cut: &FieldSet,
    entries: &[Entry],
    told: &ToldTable,
) -> Result<bool, AllocError>
    ensures { IfOk result (λ b. Decides b (AllEntries (EntryFits (told_table told.now) after.now cut.now) (table_view entries.now))) }
{
    let [entry, others @ ..] = entries else {
        return Ok(true);
    };
    if !does_entry_fit(alloc, after, cut, entry, told)? {
        return Ok(false);
    }
    do_entries_fit(alloc, after, cut, others, told)
}
