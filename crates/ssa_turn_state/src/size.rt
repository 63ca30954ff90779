//! How much a record of two states holds.
ghost use Rattle.std.specs.Prelude.{◌≡◌, ◌-◌, ◌^◌, min};
ghost use Rattle.ssa_model.specs.definitions.Facts.{record_size};
ghost use Rattle.ssa_model.specs.definitions.Operations.{State};
ghost use Rattle.ssa_turn_state.specs.States.{HasStateRoom, state_steps};

use crate::live_state::StateDelta;

impl StateDelta {
    /// How much the record holds, or `usize::MAX` where it is more: what the record of the bodies
    /// holds and what that of the tables does. Takes no memory.
    pub fn size(&self) -> usize
        requires { (v : State) × HasStateRoom self.now v }
        ensures { result ≡ min (record_size (state_steps self.now)) (2 ^ 64 - 1) }
    {
        self.body.size().saturating_add(self.table.size())
    }
}
