//! What is read of the live state of a history, where it stands.
ghost use Rattle.std.specs.Prelude.{◌≡◌, IfOk};
ghost use Rattle.ssa_model.specs.definitions.Operations as model;
ghost use Rattle.ssa_merge.specs.States.{state_view};

use ssa_merge::state::State;
use std::alloc::AllocError;

/// A reading of a state, which may lead it elsewhere on the way and leads it back.
pub trait ReadsState {
    /// What is read.
    type Answer;

    // The state can be read.
    ghost can_read: { Self → model.State → Type 0 };

    // This is what is read of it.
    ghost reads: { Self → model.State → Self.Answer → Type 0 };

    /// Reads the state, and leaves it as it was. Want of memory may end the reading.
    fn read(self, state: &mut State) -> Result<Self::Answer, AllocError>
        requires { can_read self (state_view state.old) }
        ensures same { state_view state.new ≡ state_view state.old }
        ensures answer { IfOk result (λ a. reads self (state_view state.old) a) };
}
