//! Copies, compared with what they are copies of.
ghost use Rattle.ssa_calls.specs.Samples.{IsSample};

use crate::plans::applied;
use crate::records::record_text;
use crate::sample::{FORCED, Sample};
use crate::shown::{body_text, state_text};
use crate::stop::Stop;
use ssa_turn_state::live_state::StateDelta;
use std::alloc::{AllocError, Global};

// Whether both texts are one.
fn compared(alloc: Global, text: &str, copied: &str) -> Result<String, AllocError> {
    let told = if text == copied { "same" } else { "other" };
    String::from_str(alloc, told)
}

/// A copy of the sample's body.
pub fn body_clone(alloc: Global, sample: &Sample) -> Result<String, Stop> {
    let copied = sample.state.body.clone(alloc)?;
    let text = body_text(alloc, &sample.state.body)?;
    let copied = body_text(alloc, &copied)?;
    Ok(compared(alloc, text.as_str(), copied.as_str())?)
}

/// A copy of the sample's state.
pub fn state_clone(alloc: Global, sample: &Sample) -> Result<String, Stop> {
    let copied = sample.state.clone(alloc)?;
    let text = state_text(alloc, &sample.state)?;
    let copied = state_text(alloc, &copied)?;
    Ok(compared(alloc, text.as_str(), copied.as_str())?)
}

/// A copy of a record.
pub fn record_clone(alloc: Global, sample: &Sample) -> Result<String, Stop>
    requires { IsSample sample.now }
{
    let plan = applied(alloc, &sample.schema, &sample.state, &FORCED)?;
    let delta = StateDelta::between(alloc, &sample.state, plan)?;
    let copied = delta.clone(alloc)?;
    let text = record_text(alloc, &delta)?;
    let copied = record_text(alloc, &copied)?;
    Ok(compared(alloc, text.as_str(), copied.as_str())?)
}
