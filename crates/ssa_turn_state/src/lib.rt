//! States changed in place by a record that becomes the record of the way back, with no memory taken,
//! and the making of such a record with all the memory that it will want.
//!
//! A [`StateDelta`] is what a command of the history keeps.
#![tactic(auto)]

mod copying;
pub mod live_state;
mod making;
pub mod own_paths;
mod size;
mod to_json;

pub use live_state::{LiveState, StateDelta, turn_state};
