//! The record of two states, made with the room for its turns.
ghost use Rattle.std.specs.Prelude.{◌≡◌, ◌≤◌, IfOk};
ghost use Rattle.ssa_model.specs.definitions.Carry.{carry};
ghost use Rattle.ssa_model.specs.definitions.Facts.{facts, record_size};
ghost use Rattle.ssa_model.specs.definitions.Fitting.{IsBodyOf};
ghost use Rattle.ssa_model.specs.definitions.Kind.{Kind};
ghost use Rattle.ssa_model.specs.definitions.Record.{body_record, record_of};
ghost use Rattle.ssa_model.specs.definitions.Valid.{IsValidState, KeepsOrder};
ghost use Rattle.ssa_merge.specs.Plans.{body_after, changed_state, CanStand};
ghost use Rattle.ssa_merge.specs.States.{state_view};
ghost use Rattle.ssa_merge.specs.TableChanges.{changed_table, LeadsTo};
ghost use Rattle.ssa_turn_body.specs.Records.{body_told};
ghost use Rattle.ssa_turn_body.specs.Rooms.{HasBodyRoom};
ghost use Rattle.ssa_turn_state.specs.States.{HasStateRoom, state_steps};

use crate::live_state::StateDelta;
use ssa_merge::change::NewBody;
use ssa_merge::plan::Plan;
use ssa_merge::state::State;
use ssa_merge::table_change::TableChange;
use ssa_model::records::{record_leads, size_bound};
use ssa_path::field_set::FieldSet;
use ssa_turn_body::between::steps_between;
use ssa_turn_body::over_steps::steps_over;
use ssa_turn_body::steps::BodySteps;
use ssa_turn_table::between::table_between;
use ssa_turn_table::table_delta::table_delta;
use ssa_typed::body::Body;
use std::alloc::{AllocError, Global};

// The changes that lead from a body to another one.
fn whole_steps(alloc: Global, from: &Body, to: Body) -> Result<BodySteps, AllocError>
    requires { (kind : Kind) × IsBodyOf kind from.now × IsBodyOf kind to }
    ensures told { IfOk result (λ s. body_told s ≡ body_record from.now to) }
    ensures room { IfOk result (λ s. HasBodyRoom s from.now) }
{
    steps_between(alloc, from, to)
}

// The changes of a body that lead to the one after a command by which these places go.
fn body_steps(
    alloc: Global,
    from: &Body,
    to: NewBody,
    gone: &FieldSet,
) -> Result<BodySteps, AllocError>
    requires fit { (kind : Kind) × IsBodyOf kind from.now × IsBodyOf kind (body_after to gone.now from.now) }
    requires stands { CanStand to gone.now from.now }
    ensures told { IfOk result (λ s. body_told s ≡ body_record from.now (body_after to gone.now from.now)) }
    ensures room { IfOk result (λ s. HasBodyRoom s from.now) }
{
    match to {
        NewBody::Same => Ok(BodySteps::none(alloc)),
        NewBody::Whole(body) => whole_steps(alloc, from, body),
        NewBody::Over(config) => steps_over(alloc, from, config, gone),
    }
}

impl StateDelta {
    /// The record of a change of a state by which these places of its body go, with room for every turn of it. Nothing that
    /// stays is copied.
    ///
    /// All memory that its turns want is taken here; `Err` comes where it is refused.
    pub fn of_change(
        alloc: Global,
        state: &State,
        body: NewBody,
        gone: &FieldSet,
        table: TableChange,
    ) -> Result<StateDelta, AllocError>
        requires stands { CanStand body gone.now state.now.body }
        requires valid { (kind : Kind) × IsValidState kind (state_view state.now) × IsValidState kind (changed_state (state_view state.now) body gone.now table) }
        requires leads { LeadsTo (state_view state.now).table table (changed_table table (state_view state.now).table) }
        requires order { KeepsOrder (state_view state.now).table (changed_table table (state_view state.now).table) }
        ensures record { IfOk result (λ d. state_steps d ≡ record_of (state_view state.now) (changed_state (state_view state.now) body gone.now table)) }
        ensures leads { IfOk result (λ d. carry (state_steps d) (state_view state.now) ≡ changed_state (state_view state.now) body gone.now table) }
        ensures bound { IfOk result (λ d. record_size (state_steps d) ≤ facts (state_view state.now) (changed_state (state_view state.now) body gone.now table)) }
        ensures room { IfOk result (λ d. HasStateRoom d (state_view state.now)) }
    {
        record_leads();
        size_bound();
        StateDelta::of_parts(alloc, state, body, gone, table)
    }

    // The same, without what the laws say of it.
    fn of_parts(
        alloc: Global,
        state: &State,
        body: NewBody,
        gone: &FieldSet,
        table: TableChange,
    ) -> Result<StateDelta, AllocError>
        requires stands { CanStand body gone.now state.now.body }
        requires valid { (kind : Kind) × IsValidState kind (state_view state.now) × IsValidState kind (changed_state (state_view state.now) body gone.now table) }
        requires leads { LeadsTo (state_view state.now).table table (changed_table table (state_view state.now).table) }
        requires order { KeepsOrder (state_view state.now).table (changed_table table (state_view state.now).table) }
        ensures record { IfOk result (λ d. state_steps d ≡ record_of (state_view state.now) (changed_state (state_view state.now) body gone.now table)) }
        ensures room { IfOk result (λ d. HasStateRoom d (state_view state.now)) }
    {
        let body = body_steps(alloc, &state.body, body, gone)?;
        let table = table_delta(alloc, state.managers.entries(), table)?;
        Ok(StateDelta { body, table })
    }

    /// The record that leads from one state to another, with room for every turn of it. It holds no more than the facts in
    /// which the two differ.
    ///
    /// All memory that its turns want is taken here; `Err` comes where it is refused. The sets of a
    /// manager of both states are compared.
    pub fn leading(alloc: Global, from: &State, to: State) -> Result<StateDelta, AllocError>
        requires valid { (kind : Kind) × IsValidState kind (state_view from.now) × IsValidState kind (state_view to) }
        requires order { KeepsOrder (state_view from.now).table (state_view to).table }
        ensures record { IfOk result (λ d. state_steps d ≡ record_of (state_view from.now) (state_view to)) }
        ensures leads { IfOk result (λ d. carry (state_steps d) (state_view from.now) ≡ state_view to) }
        ensures bound { IfOk result (λ d. record_size (state_steps d) ≤ facts (state_view from.now) (state_view to)) }
        ensures room { IfOk result (λ d. HasStateRoom d (state_view from.now)) }
    {
        record_leads();
        size_bound();
        StateDelta::of_states(alloc, from, to)
    }

    // The same, without what the laws say of it.
    fn of_states(alloc: Global, from: &State, to: State) -> Result<StateDelta, AllocError>
        requires valid { (kind : Kind) × IsValidState kind (state_view from.now) × IsValidState kind (state_view to) }
        requires order { KeepsOrder (state_view from.now).table (state_view to).table }
        ensures record { IfOk result (λ d. state_steps d ≡ record_of (state_view from.now) (state_view to)) }
        ensures room { IfOk result (λ d. HasStateRoom d (state_view from.now)) }
    {
        let State { body, managers } = to;
        let body = whole_steps(alloc, &from.body, body)?;
        let table = table_between(alloc, from.managers.entries(), managers.entries())?;
        Ok(StateDelta { body, table })
    }

    /// The record that leads from a state to a plan's target, with room for every turn of it.
    ///
    /// All memory that its turns want is taken here; `Err` comes where it is refused. The sets of a
    /// manager of both states are compared.
    pub fn between(alloc: Global, state: &State, plan: Plan) -> Result<StateDelta, AllocError>
        requires valid { (kind : Kind) × IsValidState kind (state_view state.now) × IsValidState kind (state_view plan.target) }
        requires order { KeepsOrder (state_view state.now).table (state_view plan.target).table }
        ensures record { IfOk result (λ d. state_steps d ≡ record_of (state_view state.now) (state_view plan.target)) }
        ensures leads { IfOk result (λ d. carry (state_steps d) (state_view state.now) ≡ state_view plan.target) }
        ensures bound { IfOk result (λ d. record_size (state_steps d) ≤ facts (state_view state.now) (state_view plan.target)) }
        ensures room { IfOk result (λ d. HasStateRoom d (state_view state.now)) }
    {
        StateDelta::leading(alloc, state, plan.target)
    }
}
