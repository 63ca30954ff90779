//! Tables of managers read back from the entries that they are written as.
ghost use Rattle.ssa_model.specs.definitions.BenchFile.{IsReadBack};
ghost use Rattle.ssa_model.specs.definitions.RecordReading.{HasReadSet};
ghost use Rattle.ssa_model.specs.definitions.Table as model;
ghost use Rattle.ssa_model.specs.definitions.Table.{Table};
ghost use Rattle.ssa_model.specs.definitions.Valid.{AllEntries};
ghost use Rattle.ssa_json.specs.Readings.{readings};
ghost use Rattle.ssa_merge.specs.EntriesBack.{IsTableBack};
ghost use Rattle.ssa_merge.specs.Managers.{entry_view, table_view};
ghost use Rattle.ssa_merge.specs.TableChanges.{changed_entries, changed_entry, lone, LeadsTo};

use crate::managers::{Entry, Managers};
use crate::table_change::{EntryChange, TableChange};

impl Entry {
    /// The set of the entry is read from what it is written as, and the moment is one.
    ///
    /// Looks at the numbers of the set, and changes nothing. Takes no memory.
    pub fn own_set_is_read(&self)
        ensures { IsReadBack readings (entry_view self.now) }
    {
        self.set.own_fields_are_read();
        let _moment = self.at.write();
    }
}

// Each entry is read from what it is written as.
fn entries_are_read(entries: &[Entry])
    ensures { AllEntries (IsReadBack readings) (table_view entries.now) }
{
    for entry in entries {
        entry.own_set_is_read();
    }
}

impl Managers {
    /// `Managers::from_entries` reads the table from the entries that `Managers::to_entries` writes,
    /// for a body whose table it is.
    ///
    /// Looks at the numbers of the sets, and changes nothing. Takes no memory.
    pub fn own_entries_are_read(&self)
        ensures sets { AllEntries (IsReadBack readings) self.now }
        ensures table { IsTableBack self.now }
    {
        entries_are_read(self.entries());
    }
}

impl EntryChange {
    // An entry that is read back, and whose paths are read, is read back after the change.
    fn new_set_is_read(&self)
        ensures { (e : model.Entry) → IsReadBack readings e → HasReadSet readings e.owned → AllEntries (IsReadBack readings) (changed_entry self.now e) }
    {
        match self {
            EntryChange::Stays | EntryChange::Leaves => {}
            EntryChange::Renewed(at) => {
                let _moment = at.write();
            }
            EntryChange::Loses(_, at) => {
                let _moment = at.write();
            }
            EntryChange::Owns(set, at) => {
                set.own_fields_are_read();
                let _moment = at.write();
            }
        }
    }
}

// Entries that are read back, and whose paths are read, are read back after their changes.
fn changed_entries_are_read(changes: &[EntryChange])
    ensures { (t : Table) → AllEntries (IsReadBack readings) t → AllEntries (λ e. HasReadSet readings e.owned) t → AllEntries (IsReadBack readings) (changed_entries changes.now t) }
{
    match changes {
        [] => {}
        [first, rest @ ..] => {
            first.new_set_is_read();
            changed_entries_are_read(rest);
        }
    }
}

// The newcomer is read back.
fn newcomer_is_read(newcomer: &Option<Entry>)
    ensures { AllEntries (IsReadBack readings) (lone newcomer.now) }
{
    if let Some(entry) = newcomer {
        entry.own_set_is_read();
    }
}

impl TableChange {
    /// The table after the change is read back where the one before is, and its sets' paths are read.
    ///
    /// Looks at the numbers of the sets that the change makes, and changes nothing. Takes no memory.
    pub fn new_sets_are_read(&self)
        ensures { (t u : Table) → LeadsTo t self.now u → AllEntries (IsReadBack readings) t → AllEntries (λ e. HasReadSet readings e.owned) t → AllEntries (IsReadBack readings) u }
    {
        changed_entries_are_read(&self.entries);
        newcomer_is_read(&self.newcomer);
    }
}
