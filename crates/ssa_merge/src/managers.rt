//! The table of managers: who owns which paths, and since when.
ghost use Rattle.std.specs.Prelude.{◌≡◌, ◌≤◌, [], length, option_map, not, IfOk};
ghost use Rattle.std.specs.Slice.Iter.{iter_rest};
ghost use Rattle.ssa_model.specs.definitions.Limits.{most_managers};
ghost use Rattle.ssa_model.specs.definitions.PathMap.{union};
ghost use Rattle.ssa_model.specs.definitions.Table.{Table, entry_of, is_in_table, owned_by, owned_by_others};
ghost use Rattle.ssa_model.specs.definitions.Operations.{clashes};
ghost use Rattle.ssa_model.specs.definitions.Valid.{IsManagers};
ghost use Rattle.ssa_merge.specs.Managers.{key_view, entry_view, table_view, clashes_view};

use crate::manager::{ManagerKey, Operation};
use arrayvec::ArrayVec;
use ssa_json::moment::Moment;
use ssa_members::Name;
use ssa_path::field_set::FieldSet;
use ssa_path::part::Part;
use std::alloc::{AllocError, Global};
use std::default::MadeWith;
use std::marker::Model;
use std::slice;

/// The most managers of a table.
pub const MOST_MANAGERS: usize = 64;

/// A manager, the paths that it owns, and when they last changed by a command of its own.
///
/// The set is the entry's own, so that it can be changed in place.
#[derive(Drop)]
pub struct Entry {
    pub key: ManagerKey,
    pub set: FieldSet,
    pub at: Moment,
}

impl MadeWith<Global> for Entry {
    fn made_with(alloc: Global) -> Entry {
        Entry {
            key: ManagerKey {
                name: Name::new(),
                operation: Operation::Apply,
                part: Part::Main,
            },
            set: FieldSet::new(alloc),
            at: Moment::first(),
        }
    }
}

impl Entry {
    /// The same entry, with a set of its own.
    pub fn copy(&self, alloc: Global) -> Result<Entry, AllocError>
        ensures { IfOk result (λ e. entry_view e ≡ entry_view self.now) }
    {
        let key = self.key.copy(alloc)?;
        let set = self.set.copy(alloc)?;
        Ok(Entry {
            key,
            set,
            at: self.at,
        })
    }
}

/// A change of the entries of a table, made where they stand: a table is some kilobytes, which are not moved for it.
pub trait TurnsEntries {
    /// The change can be made of this table.
    ghost fits: { Self → Table → Type 0 };

    /// The table that the change makes of this one.
    ghost target: { Self → Table → Table };

    /// The change that is left, of the table that it made of another.
    ghost left: { Self → Table → Table → Type 0 };

    /// Changes the entries.
    fn turn_entries(&mut self, entries: &mut ArrayVec<Entry, MOST_MANAGERS, Global>)
        requires { fits self.old (table_view entries.old.items) }
        ensures value { table_view entries.new.items ≡ target self.old (table_view entries.old.items) }
        ensures left { left self.new (table_view entries.new.items) (table_view entries.old.items) };
}

/// The managers of an object, in the order in which they came: at most 64, no one of them twice,
/// each with a manager's name and some path.
#[derive(Drop)]
pub struct Managers {
    entries: ArrayVec<Entry, MOST_MANAGERS, Global>,
}

impl Model for Managers {
    ghost use Rattle.ssa_model.specs.definitions.Table.{Table};
    ghost use Rattle.ssa_model.specs.codes.Codes.{coded_entry};
    ghost use Rattle.std.specs.Coded.{coded_list};

    ghost Value = { Table };

    ghost coded = { coded_list coded_entry };

    ghost use Rattle.ssa_model.specs.definitions.Valid.{IsManagers};
    ghost use Rattle.ssa_merge.specs.Managers.{table_view};

    ghost view = { λ m. table_view m.entries.items };

    ghost invariant = { λ m. IsManagers (table_view m.entries.items) };
}

impl Managers {
    /// The empty table. Takes no memory.
    pub fn new(alloc: Global) -> Managers
        ensures { result ≡ [] }
    {
        Managers {
            entries: ArrayVec::new_in(alloc),
        }
    }

    /// The table of these entries.
    pub fn of_entries(entries: ArrayVec<Entry, MOST_MANAGERS, Global>) -> Managers
        requires { IsManagers (table_view entries.items) }
        ensures { result ≡ table_view entries.items }
    {
        Managers { entries }
    }

    /// The entries, in table order.
    pub fn entries(&self) -> &[Entry]
        ensures same { table_view result.now ≡ self.now }
        ensures held { IsManagers self.now }
        ensures few { length result.now ≤ most_managers }
    {
        self.entries.as_slice()
    }

    /// The entries, one after the other, in table order.
    pub fn iter(&self) -> slice::Iter<'_, Entry>
        ensures { table_view (iter_rest result) ≡ self.now }
    {
        self.entries.iter()
    }

    /// Makes a change of the entries where they stand. Takes no memory but what the change takes.
    pub fn turn<C: TurnsEntries>(&mut self, change: &mut C)
        requires fits { C.fits change.old self.old }
        requires managers { IsManagers (C.target change.old self.old) }
        ensures value { self.new ≡ C.target change.old self.old }
        ensures left { C.left change.new self.new self.old }
    {
        change.turn_entries(&mut self.entries);
    }

    /// The manager's entry, none where the table has not the manager. Takes no memory.
    pub fn get(&self, key: &ManagerKey) -> Option<&Entry>
        ensures { option_map (λ e. entry_view e.now) result ≡ entry_of self.now (key_view key.now) }
    {
        find_entry(self.entries(), key)
    }

    /// How many managers there are.
    pub fn len(&self) -> usize
        ensures { result ≡ length self.now }
    {
        self.entries.len()
    }

    /// The same table, with sets of its own.
    pub fn copy(&self, alloc: Global) -> Result<Managers, AllocError>
        ensures { IfOk result (λ m. m ≡ self.now) }
    {
        let entries = copy_entries(alloc, self.entries())?;
        Ok(Managers { entries })
    }
}

// The same entries, with sets of their own.
fn copy_entries(
    alloc: Global,
    entries: &[Entry],
) -> Result<ArrayVec<Entry, MOST_MANAGERS, Global>, AllocError>
    requires { length entries.now ≤ most_managers }
    ensures { IfOk result (λ copied. table_view copied.items ≡ table_view entries.now) }
{
    let mut copied = ArrayVec::new_in(alloc);
    for entry in entries {
        copied.push(entry.copy(alloc)?);
    }
    Ok(copied)
}

// The manager's entry.
fn find_entry<'a>(entries: &'a [Entry], key: &ManagerKey) -> Option<&'a Entry>
    ensures { option_map (λ e. entry_view e.now) result ≡ entry_of (table_view entries.now) (key_view key.now) }
{
    for entry in entries {
        if entry.key.is_same(key) {
            return Some(entry);
        }
    }
    None
}
