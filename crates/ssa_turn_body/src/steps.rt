//! Changes at many places of a tree, which become those that lead back.
ghost use Rattle.std.specs.Prelude.{◌≡◌, true};
ghost use Rattle.ssa_model.specs.definitions.Body.{Body};
ghost use Rattle.ssa_model.specs.definitions.Record.{body_record};
ghost use Rattle.ssa_typed.specs.Rows.{is_tree};
ghost use Rattle.ssa_turn_body.specs.Records.{body_told};
ghost use Rattle.ssa_turn_body.specs.Rooms.{HasBodyRoom};
ghost use Rattle.ssa_turn_body.specs.Steps.{StepFits, StepLeads, StepsFit, StepsLead};

use crate::change::PlaceChange;
use crate::descent::change_at;
use ssa_path::element::Elem;
use ssa_typed::node::Node;
use std::alloc::Global;

/// A change of the place at a path.
#[derive(Drop)]
pub struct Step {
    pub path: Vec<Elem>,
    pub change: PlaceChange,
}

impl Step {
    /// The path and the change: nothing else is kept. Takes no memory.
    pub fn into_parts(self) -> (Vec<Elem>, PlaceChange)
        ensures path { result.0 ≡ self.path }
        ensures change { result.1 ≡ self.change }
    {
        let Step { path, change } = self;
        (path, change)
    }

    /// Makes the change, which becomes the one that leads back. Takes no memory.
    pub fn turn(&mut self, node: &mut Node)
        requires tree { is_tree node.old ≡ true }
        requires fits { StepFits self.old node.old }
        ensures { StepLeads self.old node.old self.new node.new }
    {
        let path = self.path.as_slice();
        change_at(node, path, &mut self.change);
    }

    /// Makes the changes of a list, one after the other. Each becomes the one that leads back.
    pub fn turn_all(steps: &mut Vec<Step>, node: &mut Node)
        requires tree { is_tree node.old ≡ true }
        requires fits { StepsFit steps.old.items node.old }
        ensures { StepsLead steps.old.items node.old steps.new.items node.new }
    {
        for i in 0..steps.len() {
            let step = &mut steps[i];
            step.turn(node);
        }
    }
}

/// Changes of places of one tree, in the order in which they are made.
#[derive(Drop)]
pub struct BodySteps {
    pub steps: Vec<Step>,
}

impl BodySteps {
    ghost use Rattle.ssa_turn_body.specs.Turns.{IsTurned};

    /// The changes: nothing else is kept. Takes no memory.
    pub fn into_parts(self) -> Vec<Step>
        ensures { result ≡ self.steps }
    {
        let BodySteps { steps } = self;
        steps
    }

    /// The changes that change nothing. Takes no memory.
    pub fn none(alloc: Global) -> BodySteps
        ensures told { (b : Body) → body_told result ≡ body_record b b }
        ensures room { (b : Body) → HasBodyRoom result b }
    {
        BodySteps {
            steps: Vec::new(alloc),
        }
    }

    /// Makes the changes, and then holds those that lead back, the last first. Takes no memory.
    pub fn turn(&mut self, node: &mut Node)
        requires tree { is_tree node.old ≡ true }
        requires fits { StepsFit self.old.steps.items node.old }
        ensures leads { IsTurned self.old node.old self.new node.new }
        ensures tree { is_tree node.new ≡ true }
        ensures back { StepsFit self.new.steps.items node.new }
    {
        Step::turn_all(&mut self.steps, node);
        self.steps.reverse();
    }
}
