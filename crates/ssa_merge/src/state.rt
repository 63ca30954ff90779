//! A state of an object: its body and its managers.
ghost use Rattle.std.specs.Prelude.{◌≡◌, IfOk};
ghost use Rattle.ssa_merge.specs.States.{state_view};

use crate::managers::Managers;
use ssa_typed::body::Body;
use std::alloc::{AllocError, Global};

/// A body, and who owns which of its paths.
#[derive(Drop)]
pub struct State {
    pub body: Body,
    pub managers: Managers,
}

impl State {
    /// The same state, with a body and sets of its own.
    pub fn clone(&self, alloc: Global) -> Result<State, AllocError>
        ensures { IfOk result (λ s. state_view s ≡ state_view self.now) }
    {
        let body = self.body.clone(alloc)?;
        let managers = self.managers.copy(alloc)?;
        Ok(State { body, managers })
    }
}
