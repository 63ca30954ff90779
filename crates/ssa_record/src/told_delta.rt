//! The record of a state that a value tells, made ready for its turns.
ghost use Rattle.std.specs.Prelude.{◌≡◌, IfOk, IfSome, OnOk};
ghost use Rattle.ssa_model.specs.definitions.Operations as model;
ghost use Rattle.ssa_model.specs.definitions.Record.{body_record, table_record, record_of};
ghost use Rattle.ssa_model.specs.definitions.Takes.{Takes};
ghost use Rattle.ssa_model.specs.definitions.Valid.{IsValidState, KeepsOrder};
ghost use Rattle.ssa_merge.specs.States.{state_view};
ghost use Rattle.ssa_path.specs.View.{element_view, path_view};
ghost use Rattle.ssa_turn_body.specs.Records.{at_place, body_told, cuts_in};
ghost use Rattle.ssa_turn_state.specs.States.{HasStateRoom, state_steps};
ghost use Rattle.ssa_told.specs.Told.{told_body, told_of, told_table};
ghost use Rattle.ssa_record.specs.LedStates.{path_after, paths_after, IsSaidState};
ghost use Rattle.ssa_record.specs.Places.{told_paths};
ghost use Rattle.ssa_record.specs.ToldEntries.{AddsPaths};

use crate::told_steps::told_steps;
use crate::told_table::table_told;
use ssa_merge::state::State;
use ssa_path::element::Elem;
use ssa_path::field_set::FieldSet;
use ssa_path::path::{Path, copy_elements};
use ssa_schema::schema::Schema;
use ssa_told::told::ToldRecord;
use ssa_turn_body::change::PlaceChange;
use ssa_turn_body::live_body::turn_recorded;
use ssa_turn_body::steps::BodySteps;
use ssa_turn_state::live_state::StateDelta;
use std::alloc::{AllocError, Global};

// The path of the child of an element.
fn child_path(alloc: Global, place: &[Elem], element: &Elem) -> Result<Path, AllocError>
    ensures { IfOk result (λ p. p ≡ path_after (path_view place.now) (element_view element.now)) }
{
    let mut elements = copy_elements(alloc, place)?;
    elements.push(element.copy(alloc)?)?;
    Ok(Path::new(elements))
}

// Adds the paths of children that go to a set.
fn add_gone(
    alloc: Global,
    place: &[Elem],
    gone: &[Elem],
    cut: &mut FieldSet,
) -> Result<(), AllocError>
    ensures { OnOk result (AddsPaths (paths_after (path_view place.now) (path_view gone.now)) cut.old cut.new) }
{
    for element in gone {
        let path = child_path(alloc, place, element)?;
        cut.insert(alloc, &path)?;
    }
    Ok(())
}

// Adds the paths that a change cuts to a set.
fn add_cut(
    alloc: Global,
    place: &[Elem],
    change: &PlaceChange,
    cut: &mut FieldSet,
) -> Result<(), AllocError>
    ensures { OnOk result (AddsPaths (told_paths (at_place (path_view place.now) (cuts_in change.now))) cut.old cut.new) }
{
    match change {
        PlaceChange::Leaf(_) => Ok(()),
        PlaceChange::Children(edit) => add_gone(alloc, place, &edit.gone.elements, cut),
    }
}

// The paths that the changes of a body cut.
fn cut_set(alloc: Global, changes: &BodySteps) -> Result<FieldSet, AllocError>
    ensures { IfOk result (λ s. s ≡ (body_told changes.now).cut) }
{
    let mut cut = FieldSet::new(alloc);
    for step in &changes.steps {
        add_cut(alloc, &step.path, &step.change, &mut cut)?;
    }
    Ok(cut)
}

/// The record of a state that is told, with room for every turn of it, or none where what is told is
/// not the record of the state and another valid one.
///
/// What is made is the record of the state and of a valid one; whether it is the one that was told is
/// left to who compares its value with the told one. The body is turned to where the record leads,
/// so that the table is tested there, and back.
pub fn told_delta(
    alloc: Global,
    schema: &Schema,
    state: &mut State,
    told: ToldRecord,
) -> Result<Option<StateDelta>, AllocError>
    requires { IsValidState schema.now.kind (state_view state.old) }
    ensures same { state_view state.new ≡ state_view state.old }
    ensures taken { IfOk result (λ o. IfSome o (λ d. (w : model.State) × Takes schema.now.kind (state_steps d) (state_view state.old) w)) }
    ensures room { IfOk result (λ o. IfSome o (λ d. HasStateRoom d (state_view state.old))) }
    ensures whole { IfOk result (λ o. (w : model.State) → IsValidState schema.now.kind w → KeepsOrder (state_view state.old).table w.table
        → told_body told.body ≡ told_of schema.now.kind (body_record (state_view state.old).body w.body)
        → told_table told.table ≡ table_record (state_view state.old).table w.table → IsSaidState o (record_of (state_view state.old) w)) }
{
    let ToldRecord { body, table } = told;
    let Some(mut changes) = told_steps(alloc, schema, &state.body, &body)? else {
        return Ok(None);
    };
    let cut = cut_set(alloc, &changes)?;
    turn_recorded(&mut state.body, &mut changes);
    let made = table_told(alloc, state.managers.entries(), &state.body, &cut, table);
    turn_recorded(&mut state.body, &mut changes);
    match made? {
        Some(table) => Ok(Some(StateDelta {
            body: changes,
            table,
        })),
        None => Ok(None),
    }
}
