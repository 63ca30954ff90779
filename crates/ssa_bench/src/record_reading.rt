//! The record that a value is, read of the live state of a bench's history.
ghost use Rattle.ssa_model.specs.definitions.Valid.{IsValidState};
ghost use Rattle.ssa_json.specs.View.{view};
ghost use Rattle.ssa_record.specs.RecordAnswers.{IsAnswer};

use ssa_json::value::Json;
use ssa_merge::state::State;
use ssa_record::read_record::{RecordAnswer, read_record};
use ssa_schema::schema::Schema;
use ssa_turn::reads_state::ReadsState;
use std::alloc::{AllocError, Global};

// The value of a record, to be read of the state from which it leads. Its entries are of this version.
#[derive(Drop)]
pub(crate) struct RecordReading<'a> {
    pub(crate) alloc: Global,
    pub(crate) schema: &'a Schema,
    pub(crate) version: &'a str,
    pub(crate) value: &'a Json,
}

impl ReadsState for RecordReading<'_> {
    type Answer = RecordAnswer;

    ghost can_read = { λ r s. IsValidState r.schema.now.kind s };

    ghost reads = { λ r s a. IsAnswer r.schema.now.kind r.version.now s (view r.value.now) a };

    fn read(self, state: &mut State) -> Result<RecordAnswer, AllocError> {
        read_record(self.alloc, self.schema, self.version, state, self.value)
    }
}
