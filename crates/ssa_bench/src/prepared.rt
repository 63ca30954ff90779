//! What a command changes, before and after it is carried out.
ghost use Rattle.std.specs.Prelude.{◌≡◌, IfOk};
ghost use Rattle.ssa_model.specs.definitions.Kind.{Kind};
ghost use Rattle.ssa_model.specs.definitions.Record.{record_of};
ghost use Rattle.ssa_model.specs.definitions.RecordReading.{HasReadPaths};
ghost use Rattle.ssa_model.specs.definitions.Valid.{IsValidState, KeepsOrder};
ghost use Rattle.ssa_json.specs.Readings.{readings};
ghost use Rattle.ssa_merge.specs.Plans.{changed_state, CanStand};
ghost use Rattle.ssa_merge.specs.States.{state_view};
ghost use Rattle.ssa_merge.specs.TableChanges.{changed_table, LeadsTo};
ghost use Rattle.ssa_turn.specs.TablesBack.{HasTableBack};
ghost use Rattle.ssa_turn_state.specs.States.{HasStateRoom, state_steps};
ghost use Rattle.ssa_bench.specs.Benches.{changed_view, changed_by};

use ssa_merge::change::Change;
use ssa_merge::state::State;
use ssa_path::field_set::FieldSet;
use ssa_turn::label::Label;
use ssa_turn_state::live_state::StateDelta;
use std::alloc::{AllocError, Global};

/// What an accepted command changed.
#[derive(Drop)]
pub struct Changed {
    /// The leaves, items, entries and empty branches at whose paths nothing stood before.
    pub added: FieldSet,
    /// The leaves that have another value than before.
    pub modified: FieldSet,
    /// All paths at which nothing stands any more.
    pub removed: FieldSet,
    /// How many managers the table has afterwards.
    pub managers: usize,
}

/// A command that was accepted and is not carried out yet.
#[derive(Drop)]
pub struct Prepared {
    pub changed: Changed,
    /// The record that leads from the state before the command to the one that it makes, and the command's label, in the box
    /// in which the history keeps them.
    pub step: Box<(StateDelta, Label)>,
}

/// How many commands can be undone, and how many redone.
#[derive(Clone, Copy, Debug, PartialEq, Eq)]
pub struct Counts {
    pub past: usize,
    pub future: usize,
}

impl Prepared {
    /// What the command changes.
    pub fn changed(&self) -> &Changed
        ensures { result.now ≡ self.now.changed }
    {
        &self.changed
    }
}

// What is prepared of a change of a state, under the label of the command.
pub(crate) fn accepted(
    alloc: Global,
    state: &State,
    label: Label,
    change: Change,
) -> Result<Prepared, AllocError>
    requires valid { (kind : Kind) × IsValidState kind (state_view state.now) × IsValidState kind (changed_state (state_view state.now) change.body change.comparison.removed change.table) }
    requires stands { CanStand change.body change.comparison.removed state.now.body }
    requires read { HasReadPaths readings (state_view state.now).body }
    requires leads { LeadsTo (state_view state.now).table change.table (changed_table change.table (state_view state.now).table) }
    requires order { KeepsOrder (state_view state.now).table (changed_table change.table (state_view state.now).table) }
    ensures label { IfOk result (λ p. p.step.value.1 ≡ label) }
    ensures record { IfOk result (λ p. state_steps p.step.value.0 ≡ record_of (state_view state.now) (changed_state (state_view state.now) change.body change.comparison.removed change.table)) }
    ensures room { IfOk result (λ p. HasStateRoom p.step.value.0 (state_view state.now)) }
    ensures back { HasTableBack (state_view state.now) → HasTableBack (changed_state (state_view state.now) change.body change.comparison.removed change.table) }
    ensures changed { IfOk result (λ p. changed_view p.changed ≡ changed_by (state_view state.now) change) }
{
    let Change {
        body,
        table,
        comparison,
    } = change;
    table.new_sets_are_read();
    let managers = table.managers();
    let delta = StateDelta::of_change(alloc, state, body, &comparison.removed, table)?;
    let changed = Changed {
        added: comparison.added,
        modified: comparison.modified,
        removed: comparison.removed,
        managers,
    };
    let step = Box::new(alloc, (delta, label))?;
    Ok(Prepared { changed, step })
}
