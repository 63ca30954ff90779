//! Tables of managers, changed in place by a record that becomes the record of the way back.
ghost use Rattle.std.specs.Prelude.{◌≡◌, ◌≤◌, length, map};
ghost use Rattle.ssa_model.specs.definitions.Limits.{most_managers};
ghost use Rattle.ssa_model.specs.definitions.Table.{Table};
ghost use Rattle.ssa_model.specs.definitions.Carry.{carry_table};
ghost use Rattle.ssa_model.specs.definitions.Takes.{TableTakes};
ghost use Rattle.ssa_merge.specs.Managers.{table_view};
ghost use Rattle.ssa_turn_table.specs.Changing.{AllHaveRoom, AreChanges, changes_back, led_to};
ghost use Rattle.ssa_turn_table.specs.Tables.{changes_view};
ghost use Rattle.ssa_turn_table.specs.Turning.{HasTableRoom, IsTableTaken, table_steps};

use crate::changing::change_entries;
use crate::coming::insert_here;
use crate::delta::{EntryChange, TableDelta};
use crate::going::take_gone;
use arrayvec::ArrayVec;
use ssa_merge::managers::{Entry, MOST_MANAGERS, Managers, TurnsEntries};
use std::alloc::Global;
use std::mem;

// Changes the entries of those who stay.
fn change_table(
    entries: &mut ArrayVec<Entry, MOST_MANAGERS, Global>,
    changed: &mut Vec<EntryChange>,
)
    requires { (t : Table) × ((u : Table) × AreChanges t u (table_view entries.old.items) changed.old.items) }
    ensures entries { (t u : Table) → AreChanges t u (table_view entries.old.items) changed.old.items → table_view entries.new.items ≡ map (led_to u) (table_view entries.old.items) }
    ensures changed { (t u : Table) → AreChanges t u (table_view entries.old.items) changed.old.items → changes_view changed.new.items ≡ changes_back u (table_view entries.old.items) }
    ensures room { (t u : Table) → AreChanges t u (table_view entries.old.items) changed.old.items → AllHaveRoom u changed.new.items }
{
    change_entries(entries, changed);
}

// A table has no more entries than it has places.
fn are_few(entries: &ArrayVec<Entry, MOST_MANAGERS, Global>)
    ensures { length entries.now.items ≤ most_managers }
{
    let _ = entries.len();
}

// Changes the entries of a table as the record says, and leaves the record that leads back.
//
// Those who are gone are taken out, those who stay are changed, and those who are here are put in
// at their places.
fn turn_table(entries: &mut ArrayVec<Entry, MOST_MANAGERS, Global>, delta: &mut TableDelta)
    requires fits { TableTakes (table_steps delta.old) (table_view entries.old.items) (carry_table (table_steps delta.old) (table_view entries.old.items)) }
    requires room { HasTableRoom delta.old (table_view entries.old.items) }
    ensures value { table_view entries.new.items ≡ carry_table (table_steps delta.old) (table_view entries.old.items) }
    ensures back { TableTakes (table_steps delta.new) (table_view entries.new.items) (table_view entries.old.items) }
    ensures room { HasTableRoom delta.new (table_view entries.new.items) }
{
    are_few(entries);
    take_gone(entries, &mut delta.gone, &mut delta.room.here);
    change_table(entries, &mut delta.changed);
    insert_here(entries, &mut delta.here, &mut delta.room.gone);
    mem::swap(&mut delta.gone, &mut delta.room.gone);
    mem::swap(&mut delta.here, &mut delta.room.here);
}

impl TurnsEntries for TableDelta {
    ghost fits = { λ d t. TableTakes (table_steps d) t (carry_table (table_steps d) t) × HasTableRoom d t };

    ghost target = { λ d t. carry_table (table_steps d) t };

    ghost left = { λ d u t. TableTakes (table_steps d) u t × HasTableRoom d u };

    fn turn_entries(&mut self, entries: &mut ArrayVec<Entry, MOST_MANAGERS, Global>) {
        turn_table(entries, self);
    }
}

/// Changes the table as the record says, and leaves the record that leads back. Takes no memory.
pub fn turn_managers(managers: &mut Managers, delta: &mut TableDelta)
    requires fits { IsTableTaken (table_steps delta.old) managers.old (carry_table (table_steps delta.old) managers.old) }
    requires room { HasTableRoom delta.old managers.old }
    ensures value { managers.new ≡ carry_table (table_steps delta.old) managers.old }
    ensures back { IsTableTaken (table_steps delta.new) managers.new managers.old }
    ensures room { HasTableRoom delta.new managers.new }
{
    managers.turn(delta);
}
