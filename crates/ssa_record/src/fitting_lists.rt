//! Whether the lists of a table's record fit the table: those gone and changed stand in table order,
//! and those here at their places.
ghost use Rattle.std.specs.Prelude.{◌≡◌, ◌≤◌, ◌<◌, ◌+◌, ◌^◌, ◌&&◌, length, map, filter, option_map, true, not, Decides};
ghost use Rattle.ssa_model.specs.definitions.Carry.{change_for, is_key_among};
ghost use Rattle.ssa_model.specs.definitions.Limits.{most_managers};
ghost use Rattle.ssa_model.specs.definitions.Table.{is_in_table};
ghost use Rattle.ssa_model.specs.definitions.Valid.{has_distinct_keys};
ghost use Rattle.ssa_merge.specs.Managers.{key_view, table_view};
ghost use Rattle.ssa_told.specs.Told.{told_change, told_here, told_table};
ghost use Rattle.ssa_record.specs.TableTests.{are_newcomers, are_places, changed_keys, has_change, managers, same_keys, staying_count, HereStands, ListsFit};
ghost use Rattle.ssa_turn_table.specs.Tables.{keys_view};

use ssa_merge::manager::ManagerKey;
use ssa_merge::managers::{Entry, MOST_MANAGERS};
use ssa_merge::seat::is_in_table;
use ssa_told::told::{ToldChange, ToldHere, ToldTable};

// Whether the manager is one of these.
pub(crate) fn is_key_among(keys: &[ManagerKey], key: &ManagerKey) -> bool
    ensures { result ≡ is_key_among (keys_view keys.now) (key_view key.now) }
{
    for one in keys {
        if one.is_same(key) {
            return true;
        }
    }
    false
}

// The first change that is told of the manager.
pub(crate) fn find_change<'a>(changed: &'a [ToldChange], key: &ManagerKey) -> Option<&'a ToldChange>
    ensures { option_map (λ c. told_change c.now) result ≡ change_for (map told_change changed.now) (key_view key.now) }
{
    for change in changed {
        if change.key.is_same(key) {
            return Some(change);
        }
    }
    None
}

// Whether a change of the manager is told.
fn has_change(changed: &[ToldChange], key: &ManagerKey) -> bool
    ensures { result ≡ has_change (map told_change changed.now) (key_view key.now) }
{
    match find_change(changed, key) {
        Some(_change) => true,
        None => false,
    }
}

// Whether the keys are those of the entries whose managers are among those gone, in table order.
fn are_gone(keys: &[ManagerKey], gone: &[ManagerKey], entries: &[Entry]) -> bool
    ensures { result ≡ same_keys (keys_view keys.now) (filter (is_key_among (keys_view gone.now)) (managers (table_view entries.now))) }
{
    let [entry, others @ ..] = entries else {
        return keys.is_empty();
    };
    if !is_key_among(gone, &entry.key) {
        return are_gone(keys, gone, others);
    }
    match keys {
        [] => false,
        [first, rest @ ..] => first.is_same(&entry.key) && are_gone(rest, gone, others),
    }
}

// Whether the manager stays, and a change of it is told.
fn is_changed(told: &ToldTable, key: &ManagerKey) -> bool
    ensures { result ≡ (not (is_key_among (told_table told.now).gone (key_view key.now)) && has_change (told_table told.now).changed (key_view key.now)) }
{
    !is_key_among(&told.gone, key) && has_change(&told.changed, key)
}

// Whether the changes are those told of the entries whose managers stay, in table order.
fn are_changed(changes: &[ToldChange], told: &ToldTable, entries: &[Entry]) -> bool
    ensures { result ≡ same_keys (changed_keys (map told_change changes.now))
        (filter (λ k. not (is_key_among (told_table told.now).gone k) && has_change (told_table told.now).changed k) (managers (table_view entries.now))) }
{
    let [entry, others @ ..] = entries else {
        return changes.is_empty();
    };
    if !is_changed(told, &entry.key) {
        return are_changed(changes, told, others);
    }
    match changes {
        [] => false,
        [first, rest @ ..] => first.key.is_same(&entry.key) && are_changed(rest, told, others),
    }
}

// How many stay.
fn count_staying(gone: &[ManagerKey], entries: &[Entry]) -> usize
    ensures count { result ≡ staying_count (keys_view gone.now) (table_view entries.now) }
    ensures most { result ≤ length entries.now }
{
    match entries {
        [] => 0,
        [first, rest @ ..] => {
            let others = count_staying(gone, rest);
            if is_key_among(gone, &first.key) {
                others
            } else {
                others + 1
            }
        }
    }
}

// Whether each comes to its place, where so many stay and this is the first place that is free.
fn are_places(here: &[ToldHere], place: usize, staying: usize) -> bool
    requires { place + staying + length here.now < 2 ^ 32 }
    ensures { result ≡ are_places place staying (map (λ h. h.place) here.now) }
{
    let [first, rest @ ..] = here else {
        return true;
    };
    if first.place < place {
        return false;
    }
    let passed = first.place - place;
    if passed > staying {
        return false;
    }
    are_places(rest, first.place + 1, staying - passed)
}

// Whether the manager is here.
fn is_here(here: &[ToldHere], key: &ManagerKey) -> bool
    ensures { result ≡ is_in_table (map (λ e. e.1) (map told_here here.now)) (key_view key.now) }
{
    match here {
        [] => false,
        [first, rest @ ..] => first.entry.key.is_same(key) || is_here(rest, key),
    }
}

// Whether none of those here is in the table, and none comes twice.
fn are_newcomers(entries: &[Entry], here: &[ToldHere]) -> bool
    ensures { result ≡ are_newcomers (table_view entries.now) (map (λ e. e.1) (map told_here here.now)) }
{
    match here {
        [] => true,
        [first, rest @ ..] => {
            !is_in_table(entries, &first.entry.key)
                && (!is_here(rest, &first.entry.key) && are_newcomers(entries, rest))
        }
    }
}

// Whether those here stand in the table after it where they are told, and there are places for all.
fn do_heres_stand(entries: &[Entry], told: &ToldTable) -> bool
    requires distinct { has_distinct_keys (table_view entries.now) ≡ true }
    requires few { length entries.now ≤ most_managers }
    ensures { Decides result (HereStands (told_table told.now) (table_view entries.now)) }
{
    let staying = count_staying(&told.gone, entries);
    if told.here.len() > MOST_MANAGERS - staying {
        return false;
    }
    are_places(&told.here, 0, staying) && are_newcomers(entries, &told.here)
}

// Whether the lists fit the table, whatever the sets are.
pub(crate) fn do_lists_fit(entries: &[Entry], told: &ToldTable) -> bool
    requires distinct { has_distinct_keys (table_view entries.now) ≡ true }
    requires few { length entries.now ≤ most_managers }
    ensures { Decides result (ListsFit (told_table told.now) (table_view entries.now)) }
{
    are_gone(&told.gone, &told.gone, entries)
        && (are_changed(&told.changed, told, entries) && do_heres_stand(entries, told))
}
