//! What a command changes of a table of managers, so that nothing of it is copied that stays.
ghost use Rattle.std.specs.Prelude.{◌≡◌, ◌≤◌, length, IfOk};
ghost use Rattle.ssa_model.specs.definitions.Limits.{most_managers};
ghost use Rattle.ssa_model.specs.definitions.Table.{Table};
ghost use Rattle.ssa_merge.specs.Managers.{entry_view, table_view};
ghost use Rattle.ssa_merge.specs.TableChanges.{changed_entries, changed_entry, changed_table, leaves, lone, LeadsTo};

use crate::managers::{Entry, MOST_MANAGERS, Managers};
use arrayvec::ArrayVec;
use ssa_json::moment::Moment;
use ssa_path::field_set::FieldSet;
use ssa_path::shared_set::SharedSet;
use std::alloc::{AllocError, Global};

/// What becomes of an entry.
#[derive(Drop)]
pub enum EntryChange {
    /// The entry stays as it is.
    Stays,
    /// The manager owns nothing any more, and leaves.
    Leaves,
    /// The manager owns what it owned, and has another moment.
    Renewed(Moment),
    /// The manager loses these paths, not all that it owned, and has this moment.
    Loses(SharedSet, Moment),
    /// The manager owns other paths, and has this moment.
    Owns(FieldSet, Moment),
}

/// What becomes of a table.
#[derive(Drop)]
pub struct TableChange {
    /// What becomes of each entry, in table order.
    pub entries: Vec<EntryChange>,
    /// The manager that comes, as the last.
    pub newcomer: Option<Entry>,
}

impl EntryChange {
    // Whether the manager leaves.
    fn leaves(&self) -> bool
        ensures { result ≡ leaves self.now }
    {
        match self {
            EntryChange::Leaves => true,
            EntryChange::Stays => false,
            EntryChange::Renewed(_) => false,
            EntryChange::Loses(_, _) => false,
            EntryChange::Owns(_, _) => false,
        }
    }
}

/// How many of the managers stay.
pub fn count_kept(changes: &[EntryChange]) -> usize
    ensures count { (t : Table) → length changes.now ≡ length t → result ≡ length (changed_entries changes.now t) }
    ensures most { result ≤ length changes.now }
{
    let mut kept = 0;
    for change in changes {
        if !change.leaves() {
            kept += 1;
        }
    }
    kept
}

// The entry after a change, with a set of its own.
fn changed_entry(
    alloc: Global,
    entry: &Entry,
    change: EntryChange,
) -> Result<Option<Entry>, AllocError>
    ensures { IfOk result (λ e. lone e ≡ changed_entry change (entry_view entry.now)) }
{
    let (set, at) = match change {
        EntryChange::Leaves => return Ok(None),
        EntryChange::Stays => (entry.set.copy(alloc)?, entry.at),
        EntryChange::Renewed(at) => (entry.set.copy(alloc)?, at),
        EntryChange::Loses(lost, at) => (lost.left_of(alloc, &entry.set)?, at),
        EntryChange::Owns(set, at) => (set, at),
    };
    let key = entry.key.copy(alloc)?;
    Ok(Some(Entry { key, set, at }))
}

// The entries after their changes.
fn changed_entries(
    alloc: Global,
    table: &[Entry],
    changes: Vec<EntryChange>,
) -> Result<ArrayVec<Entry, MOST_MANAGERS, Global>, AllocError>
    requires each { length changes.items ≡ length table.now }
    requires few { length table.now ≤ most_managers }
    ensures { IfOk result (λ made. table_view made.items ≡ changed_entries changes.items (table_view table.now)) }
{
    let mut made = ArrayVec::new_in(alloc);
    let mut place = 0;
    for change in changes {
        if let Some(entry) = changed_entry(alloc, &table[place], change)? {
            made.push(entry);
        }
        place += 1;
    }
    Ok(made)
}

impl TableChange {
    /// The table after the change, with sets of its own.
    pub fn completed(self, alloc: Global, managers: &Managers) -> Result<Managers, AllocError>
        requires { (t : Table) × LeadsTo managers.now self t }
        ensures { IfOk result (λ m. m ≡ changed_table self managers.now) }
    {
        let TableChange { entries, newcomer } = self;
        let mut made = changed_entries(alloc, managers.entries(), entries)?;
        if let Some(entry) = newcomer {
            made.push(entry);
        }
        Ok(Managers::of_entries(made))
    }

    /// How many managers the table has after the change.
    pub fn managers(&self) -> usize
        requires few { length self.now.entries.items ≤ most_managers }
        ensures { (t u : Table) → LeadsTo t self.now u → result ≡ length u }
    {
        let kept = count_kept(&self.entries);
        match &self.newcomer {
            Some(_) => kept + 1,
            None => kept,
        }
    }
}
