//! The entries that stay, changed in place.
ghost use Rattle.std.specs.Prelude.{◌≡◌, map};
ghost use Rattle.ssa_model.specs.definitions.Carry.{changed_entry};
ghost use Rattle.ssa_model.specs.definitions.Table.{Table};
ghost use Rattle.ssa_merge.specs.Managers.{key_view, entry_view, table_view};
ghost use Rattle.ssa_turn_set.specs.Turn.{HasRoom, IsLed, set_steps, set_target};
ghost use Rattle.ssa_turn_table.specs.Tables.{change_view, changes_view};
ghost use Rattle.ssa_turn_table.specs.Changing.{AllHaveRoom, AreChanges, changed_back, changes_back, is_first, led_to};

use crate::delta::EntryChange;
use ssa_merge::manager::ManagerKey;
use ssa_merge::managers::Entry;
use ssa_turn_set::live_set::turn_field_set;

// Changes one entry, and leaves the change that leads back.
fn turn_entry(entry: &mut Entry, change: &mut EntryChange)
    requires fits { IsLed (set_steps change.old.set) entry.old.set (set_target (set_steps change.old.set) entry.old.set) }
    requires room { HasRoom change.old.set entry.old.set }
    ensures entry { entry_view entry.new ≡ changed_entry (Some (change_view change.old)) (entry_view entry.old) }
    ensures change { change_view change.new ≡ changed_back entry.old.at (change_view change.old) }
    ensures room { HasRoom change.new.set entry.new.set }
{
    turn_field_set(&mut entry.set, &mut change.set);
    match change.at {
        Some(at) => {
            change.at = Some(entry.at);
            entry.at = at;
        }
        None => {}
    }
}

// Whether the first of the changes is the manager's.
fn is_first(changed: &[EntryChange], key: &ManagerKey) -> bool
    ensures { result ≡ is_first (changes_view changed.now) (key_view key.now) }
{
    match changed {
        [] => false,
        [first, ..] => first.key.is_same(key),
    }
}

/// Changes the entries as the record's changes say, which stand in the same order, and leaves the
/// changes that lead back. Takes no memory.
pub fn change_entries(entries: &mut [Entry], changed: &mut [EntryChange])
    requires { (t : Table) × ((u : Table) × AreChanges t u (table_view entries.old) changed.old) }
    ensures entries { (t u : Table) → AreChanges t u (table_view entries.old) changed.old → table_view entries.new ≡ map (led_to u) (table_view entries.old) }
    ensures changed { (t u : Table) → AreChanges t u (table_view entries.old) changed.old → changes_view changed.new ≡ changes_back u (table_view entries.old) }
    ensures room { (t u : Table) → AreChanges t u (table_view entries.old) changed.old → AllHaveRoom u changed.new }
{
    let Some((entry, rest)) = entries.split_first_mut() else {
        return;
    };
    if is_first(changed, &entry.key) {
        let Some((change, others)) = changed.split_first_mut() else {
            unreachable!()
        };
        turn_entry(entry, change);
        change_entries(rest, others);
    } else {
        change_entries(rest, changed);
    }
}
