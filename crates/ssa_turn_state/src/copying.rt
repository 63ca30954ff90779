//! A copy of a record of states, which serves wherever the record does.
ghost use Rattle.std.specs.Prelude.{◌≡◌, IfOk};
ghost use Rattle.ssa_model.specs.definitions.Operations.{State};
ghost use Rattle.ssa_turn_state.specs.States.{HasStateRoom, state_steps};

use crate::live_state::StateDelta;
use std::alloc::{AllocError, Global};

impl StateDelta {
    /// The same record, its room as well, copied.
    pub fn clone(&self, alloc: Global) -> Result<StateDelta, AllocError>
        ensures steps { IfOk result (λ d. state_steps d ≡ state_steps self.now) }
        ensures room { IfOk result (λ d. (v : State) → HasStateRoom self.now v → HasStateRoom d v) }
    {
        let body = self.body.copy(alloc)?;
        let table = self.table.copy(alloc)?;
        Ok(StateDelta { body, table })
    }
}
