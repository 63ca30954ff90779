//! Whether the managers that two tables share stand in one order.
ghost use Rattle.std.specs.Prelude.{◌≡◌, ◌≤◌, true, length};
ghost use Rattle.std.specs.Cmp.Lexicographic.{pointwise};
ghost use Rattle.ssa_model.specs.definitions.Table.{same_manager};
ghost use Rattle.ssa_model.specs.definitions.Valid.{shared_managers};
ghost use Rattle.ssa_model.specs.definitions.BenchOfStates.{keeps_order};
ghost use Rattle.ssa_merge.specs.Managers.{table_view};
ghost use Rattle.ssa_merge.specs.Tables.{starts_shared};

use crate::managers::{Entry, Managers};
use crate::seat::is_in_table;

// The entries from the first on whose manager the other table has too.
fn from_shared<'a>(entries: &'a [Entry], other: &[Entry]) -> &'a [Entry]
    ensures same { shared_managers (table_view result.now) (table_view other.now) ≡ shared_managers (table_view entries.now) (table_view other.now) }
    ensures first { starts_shared (table_view result.now) (table_view other.now) ≡ true }
    ensures no_more { length result.now ≤ length entries.now }
{
    match entries {
        [] => entries,
        [first, rest @ ..] => {
            if is_in_table(other, &first.key) {
                entries
            } else {
                from_shared(rest, other)
            }
        }
    }
}

// Whether the managers of the one part that the second table has are, one by one, those of the
// other part that the first table has.
fn are_in_step(own: &[Entry], second: &[Entry], others: &[Entry], first: &[Entry]) -> bool
    ensures { result ≡ pointwise same_manager (shared_managers (table_view own.now) (table_view second.now)) (shared_managers (table_view others.now) (table_view first.now)) }
{
    let own = from_shared(own, second);
    let others = from_shared(others, first);
    match (own, others) {
        ([], []) => true,
        ([], [_, ..]) => false,
        ([_, ..], []) => false,
        ([entry, own @ ..], [other, others @ ..]) => {
            entry.key.is_same(&other.key) && are_in_step(own, second, others, first)
        }
    }
}

impl Managers {
    /// Whether the managers that both tables have stand in one order in them. Takes no memory.
    pub fn same_order(&self, other: &Managers) -> bool
        ensures { result ≡ keeps_order self.now other.now }
    {
        let own = self.entries();
        let others = other.entries();
        are_in_step(own, others, others, own)
    }
}
