//! The entries that come, put into the table.
ghost use Rattle.std.specs.Prelude.{◌≡◌, ◌≤◌, [], length, map, vec_len, vec_capacity};
ghost use Rattle.ssa_model.specs.definitions.Limits.{most_managers};
ghost use Rattle.ssa_model.specs.definitions.Table.{Table};
ghost use Rattle.ssa_merge.specs.Managers.{table_view};
ghost use Rattle.ssa_turn_table.specs.Coming.{AreComing};
ghost use Rattle.ssa_turn_table.specs.Going.{AllKeysAgree};
ghost use Rattle.ssa_turn_table.specs.Tables.{keys_view, heres_view};

use crate::delta::Here;
use arrayvec::ArrayVec;
use ssa_merge::manager::ManagerKey;
use ssa_merge::managers::{Entry, MOST_MANAGERS};
use ssa_reverse::room::push_within;
use std::alloc::Global;

/// Puts those who are here into the table, each at its place, and lists their managers, who are
/// gone on the way back. Takes no memory.
///
/// The list of those who are here is left empty.
pub fn insert_here(
    entries: &mut ArrayVec<Entry, MOST_MANAGERS, Global>,
    here: &mut Vec<Here>,
    out: &mut Vec<ManagerKey>,
)
    requires told { (u : Table) × AreComing u (table_view entries.old.items) (heres_view here.old.items) × (length u ≤ most_managers) }
    requires keys { AllKeysAgree here.old.items }
    requires empty { out.old.items ≡ [] }
    requires room { vec_len here.old ≤ vec_capacity out.old }
    ensures entries { (u : Table) → AreComing u (table_view entries.old.items) (heres_view here.old.items) → table_view entries.new.items ≡ u }
    ensures out { keys_view out.new.items ≡ map (λ h. h.1.manager) (heres_view here.old.items) }
    ensures empty { here.new.items ≡ [] }
    ensures room { vec_capacity here.new ≡ vec_capacity here.old }
{
    while !here.is_empty() {
        let Here { place, entry, key } = here.remove(0);
        entries.insert(place, entry);
        push_within(out, key);
    }
}
