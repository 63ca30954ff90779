//! The entries that go, taken out of the table.
ghost use Rattle.std.specs.Prelude.{◌≡◌, ◌+◌, ◌≤◌, [], filter, vec_len, vec_capacity};
ghost use Rattle.ssa_model.specs.definitions.Record.{gone_from, new_in};
ghost use Rattle.ssa_model.specs.definitions.Table.{Table};
ghost use Rattle.ssa_merge.specs.Managers.{key_view, table_view};
ghost use Rattle.ssa_turn_table.specs.Going.{AllKeysAgree, is_first_key, is_in};
ghost use Rattle.ssa_turn_table.specs.Tables.{keys_view, heres_view};

use crate::delta::Here;
use arrayvec::ArrayVec;
use ssa_merge::manager::ManagerKey;
use ssa_merge::managers::{Entry, MOST_MANAGERS};
use ssa_reverse::room::push_within;
use std::alloc::Global;

// Whether the first of those gone is the manager.
fn is_first_gone(gone: &[ManagerKey], key: &ManagerKey) -> bool
    ensures { result ≡ is_first_key (keys_view gone.now) (key_view key.now) }
{
    match gone {
        [] => false,
        [first, ..] => first.is_same(key),
    }
}

/// Takes the entries of those gone out of the table, and puts them where those stand who are here
/// on the way back, each with the place that it had. Takes no memory.
///
/// The managers of the list stand in table order. It is left empty.
pub fn take_gone(
    entries: &mut ArrayVec<Entry, MOST_MANAGERS, Global>,
    gone: &mut Vec<ManagerKey>,
    out: &mut Vec<Here>,
)
    requires told { (u : Table) × (keys_view gone.old.items ≡ gone_from (table_view entries.old.items) u) }
    requires empty { out.old.items ≡ [] }
    requires room { vec_len gone.old ≤ vec_capacity out.old }
    ensures entries { (u : Table) → keys_view gone.old.items ≡ gone_from (table_view entries.old.items) u
        → table_view entries.new.items ≡ filter (is_in u) (table_view entries.old.items) }
    ensures out { (u : Table) → keys_view gone.old.items ≡ gone_from (table_view entries.old.items) u
        → heres_view out.new.items ≡ new_in u (table_view entries.old.items) }
    ensures keys { AllKeysAgree out.new.items }
    ensures empty { gone.new.items ≡ [] }
    ensures room { vec_capacity gone.new ≡ vec_capacity gone.old }
{
    let mut i = 0;
    while i < entries.len() {
        if is_first_gone(gone, &entries[i].key) {
            let place = i + out.len();
            let entry = entries.remove(i);
            let key = gone.remove(0);
            push_within(out, Here { place, entry, key });
        } else {
            i += 1;
        }
    }
}
