//! How much a record of a table holds.
ghost use Rattle.std.specs.Prelude.{◌≡◌, ◌+◌, ◌-◌, ◌^◌, min};
ghost use Rattle.std.specs.List.{sum_by};
ghost use Rattle.ssa_model.specs.definitions.Facts.{change_size, table_size};
ghost use Rattle.ssa_model.specs.definitions.PathMap.{PathSet, size};
ghost use Rattle.ssa_model.specs.definitions.Table.{Table};
ghost use Rattle.ssa_turn_set.specs.Turn.{HasRoom};
ghost use Rattle.ssa_turn_table.specs.Changing.{AllHaveRoom};
ghost use Rattle.ssa_turn_table.specs.Tables.{change_view, changes_view, heres_view};
ghost use Rattle.ssa_turn_table.specs.Turning.{table_steps};

use crate::delta::{EntryChange, Here, TableDelta};
use ssa_path::listing::count_paths;

// The paths that are gained and lost, and 1 for a new moment.
fn change_size(change: &EntryChange) -> usize
    requires { (s : PathSet) × HasRoom change.now.set s }
    ensures { result ≡ min (change_size (change_view change.now)) (2 ^ 64 - 1) }
{
    let gained = count_paths(change.set.gain.as_trie());
    let lost = count_paths(change.set.lose.as_trie());
    let paths = gained.saturating_add(lost);
    match change.at {
        Some(_) => paths.saturating_add(1),
        None => paths,
    }
}

// What the changes hold.
fn changes_size(changed: &[EntryChange]) -> usize
    requires { (t : Table) × AllHaveRoom t changed.now }
    ensures { result ≡ min (sum_by change_size (changes_view changed.now)) (2 ^ 64 - 1) }
{
    match changed {
        [] => 0,
        [first, rest @ ..] => change_size(first).saturating_add(changes_size(rest)),
    }
}

// For each entry that comes 1 and the size of its set.
fn here_size(here: &[Here]) -> usize
    ensures { result ≡ min (sum_by (λ e. 1 + size e.1.owned) (heres_view here.now)) (2 ^ 64 - 1) }
{
    match here {
        [] => 0,
        [first, rest @ ..] => first
            .entry
            .set
            .len()
            .saturating_add(1)
            .saturating_add(here_size(rest)),
    }
}

impl TableDelta {
    /// How much the record holds, or `usize::MAX` where it is more: 1 for each manager gone, 1 and
    /// the size of its set for each manager here, each path gained or lost, and 1 for each new
    /// moment.
    pub fn size(&self) -> usize
        requires { (t : Table) × AllHaveRoom t self.now.changed.items }
        ensures { result ≡ min (table_size (table_steps self.now)) (2 ^ 64 - 1) }
    {
        let changed = changes_size(&self.changed);
        let here = here_size(&self.here);
        self.gone.len().saturating_add(here).saturating_add(changed)
    }
}
