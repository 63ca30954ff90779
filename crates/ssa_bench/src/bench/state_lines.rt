//! The lines of a bench file of whole states: each is compared with what is written of what it says.
ghost use Rattle.std.specs.Prelude.{◌≡◌, ◌&&◌, ◌<◌, IfOk};
ghost use Rattle.ssa_model.specs.definitions.Answers.{lone_state};
ghost use Rattle.ssa_model.specs.definitions.BenchText.{first_json, step_json};
ghost use Rattle.ssa_model.specs.definitions.Formats.{is_main_state};
ghost use Rattle.ssa_model.specs.definitions.History.{past_len, present};
ghost use Rattle.ssa_model.specs.definitions.Json.{compact, same_text};
ghost use Rattle.ssa_model.specs.definitions.Limits.{most_past};
ghost use Rattle.ssa_model.specs.definitions.Valid.{IsValidState};
ghost use Rattle.ssa_model.specs.definitions.BenchOfStates.{keeps_order, lone_in};
ghost use Rattle.ssa_json.specs.Readings.{readings};
ghost use Rattle.ssa_json.specs.View.{view};
ghost use Rattle.ssa_merge.specs.States.{state_view};
ghost use Rattle.ssa_bench.specs.Taking.{GoesOn, IsTaken, TakesStep, taken_view};

use super::Bench;
use crate::state_taking::{TakenStep, label_in, object_in, state_in};
use crate::taking::{Step, are_main_managers, load_fault};
use ssa_file::state_line::is_line_of;
use ssa_json::value::Json;
use ssa_lines::loading::{FileLine, LoadFault};
use ssa_members::Members;
use ssa_object::object::object_of_state;
use ssa_schema::schema::Schema;
use ssa_turn_state::live_state::StateDelta;
use std::alloc::{AllocError, Global};

impl Bench {
    // Whether no manager of the present state acts through a subresource.
    pub(crate) fn has_main_managers(&self) -> bool
        ensures { result ≡ is_main_state (present self.now.timeline) }
    {
        are_main_managers(&self.timeline.present().managers)
    }

    // Whether the text is that of the line of the only state.
    fn is_first_line(&self, alloc: Global, text: &[u8]) -> Result<bool, AllocError>
        requires { self.now.timeline ≡ lone_state self.now.timeline.first }
        ensures { IfOk result (λ same. same ≡ same_text (compact (first_json self.now)) text.now) }
    {
        let object = self.show(alloc, true)?;
        let command = Json::Object(Members::new(alloc));
        is_line_of(alloc, command, object, text)
    }

    // The bench of the first state that a line tells.
    pub(crate) fn of_first_line(
        alloc: Global,
        schema: Schema,
        line: FileLine,
    ) -> Result<Bench, LoadFault>
        requires { line.text.items ≡ compact (view line.value) }
        ensures taken { IsTaken result (lone_in readings schema (view line.value)) }
        ensures depth { IfOk result (λ b. b.depth ≡ most_past) }
        ensures lone { IfOk result (λ b. b.timeline ≡ lone_state b.timeline.first) }
    {
        let FileLine { value, text } = line;
        match Bench::new(alloc, schema, object_in(alloc, value)) {
            Ok(bench) => {
                if !bench.has_main_managers() {
                    return Err(LoadFault::BenchText);
                }
                if bench.is_first_line(alloc, &text)? {
                    Ok(bench)
                } else {
                    Err(LoadFault::BenchText)
                }
            }
            Err(fault) => Err(load_fault(fault)),
        }
    }

    // Whether the step is told by the text, and keeps the order of the present state's managers.
    fn is_next_line(&self, alloc: Global, step: &TakenStep, text: &[u8]) -> Result<bool, AllocError>
        requires { IsValidState self.now.schema.kind (state_view step.now.state) }
        ensures { IfOk result (λ is. is ≡ (same_text (compact (step_json self.now (taken_view step.now))) text.now && keeps_order (present self.now.timeline).table (state_view step.now.state).table)) }
    {
        let object = object_of_state(alloc, &self.identity, &self.schema, true, &step.state)?;
        let command = step.label.to_json(alloc)?;
        if !is_line_of(alloc, command, object, text)? {
            return Ok(false);
        }
        let before = self.timeline.present();
        Ok(before.managers.same_order(&step.state.managers))
    }

    // The step that a line tells, behind the present state.
    fn step_of_line(&self, alloc: Global, line: FileLine) -> Result<TakenStep, LoadFault>
        requires { line.text.items ≡ compact (view line.value) }
        ensures taken { TakesStep self.now result (view line.value) }
        ensures valid { IfOk result (λ s. IsValidState self.now.schema.kind (state_view s.state)) }
    {
        let Some(label) = label_in(alloc, &line.value)? else {
            return Err(LoadFault::BenchText);
        };
        let FileLine { value, text } = line;
        match state_in(alloc, &self.schema, object_in(alloc, value)) {
            Ok(state) => {
                let step = TakenStep { label, state };
                if !step.is_main() {
                    return Err(LoadFault::BenchText);
                }
                if self.is_next_line(alloc, &step, &text)? {
                    Ok(step)
                } else {
                    Err(LoadFault::BenchText)
                }
            }
            Err(fault) => Err(load_fault(fault)),
        }
    }

    // Goes on by the step that a line tells, and makes the record of its way back, with all room for its turns.
    pub(crate) fn take_line(&mut self, alloc: Global, line: FileLine) -> Result<(), LoadFault>
        requires spelled { line.text.items ≡ compact (view line.value) }
        requires few { past_len self.old.timeline < self.old.depth }
        ensures goes { GoesOn self.old self.new result (view line.value) }
        ensures depth { self.new.depth ≡ self.old.depth }
    {
        self.timeline.place_is_within();
        let taken = self.step_of_line(alloc, line)?;
        let TakenStep { label, state } = taken;
        state.managers.own_entries_are_read();
        let delta = StateDelta::leading(alloc, self.timeline.present(), state)?;
        let step = Step { label, delta };
        self.timeline.append(step.boxed(alloc)?)?;
        Ok(())
    }
}
