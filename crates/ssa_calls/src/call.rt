//! The calls, by their names.
ghost use Rattle.ssa_calls.specs.Samples.{IsSample};

use crate::clones::{body_clone, record_clone, state_clone};
use crate::plans::{apply, strip, update};
use crate::records::{between_back, between_there, leading_back, leading_there};
use crate::sample::{CONTRARY, FORCED, LESS, OWN, Sample};
use crate::shown::state_text;
use crate::stop::Stop;
use std::alloc::Global;

/// What is called.
#[derive(Clone, Copy)]
pub enum Call {
    State,
    Apply,
    ApplyConflict,
    ApplyForced,
    ApplyLess,
    Update,
    Strip,
    LeadingThere,
    LeadingBack,
    BetweenThere,
    BetweenBack,
    BodyClone,
    StateClone,
    RecordClone,
}

/// All calls, in the order in which they are made.
pub const CALLS: [Call; 14] = [
    Call::State,
    Call::Apply,
    Call::ApplyConflict,
    Call::ApplyForced,
    Call::ApplyLess,
    Call::Update,
    Call::Strip,
    Call::LeadingThere,
    Call::LeadingBack,
    Call::BetweenThere,
    Call::BetweenBack,
    Call::BodyClone,
    Call::StateClone,
    Call::RecordClone,
];

impl Call {
    /// Its name.
    pub fn name(self) -> &'static str {
        match self {
            Call::State => "state",
            Call::Apply => "plan_apply",
            Call::ApplyConflict => "plan_apply of what others own",
            Call::ApplyForced => "plan_apply forced",
            Call::ApplyLess => "plan_apply of less",
            Call::Update => "plan_update",
            Call::Strip => "plan_strip",
            Call::LeadingThere => "StateDelta::leading there",
            Call::LeadingBack => "StateDelta::leading back",
            Call::BetweenThere => "StateDelta::between there",
            Call::BetweenBack => "StateDelta::between back",
            Call::BodyClone => "Body::clone",
            Call::StateClone => "State::clone",
            Call::RecordClone => "StateDelta::clone",
        }
    }

    /// What it gives, as a text.
    pub fn answer(self, alloc: Global, sample: &Sample) -> Result<String, Stop>
        requires { IsSample sample.now }
    {
        match self {
            Call::State => Ok(state_text(alloc, &sample.state)?),
            Call::Apply => apply(alloc, sample, &OWN),
            Call::ApplyConflict => apply(alloc, sample, &CONTRARY),
            Call::ApplyForced => apply(alloc, sample, &FORCED),
            Call::ApplyLess => apply(alloc, sample, &LESS),
            Call::Update => update(alloc, sample),
            Call::Strip => strip(alloc, sample),
            Call::LeadingThere => leading_there(alloc, sample),
            Call::LeadingBack => leading_back(alloc, sample),
            Call::BetweenThere => between_there(alloc, sample),
            Call::BetweenBack => between_back(alloc, sample),
            Call::BodyClone => body_clone(alloc, sample),
            Call::StateClone => state_clone(alloc, sample),
            Call::RecordClone => record_clone(alloc, sample),
        }
    }
}
