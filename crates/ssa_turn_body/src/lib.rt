//! Bodies changed in place by steps that become those that lead back, with no memory taken.
//!
//! [`steps_between`] tells what two bodies differ in, with the room for every later turn, and [`steps_over`] tells what a
//! configuration changes that is put over a body, of which some places go; [`turn_recorded`] takes a body there and back.
//!
//! ```
//! let (before, after) = bodies(
//!     rt.alloc(),
//!     r#"{"spec":{"replicas":3}}"#,
//!     r#"{"spec":{"replicas":5}}"#,
//! )?;
//! let steps = steps_between(rt.alloc(), &before, after)?;
//! let leaves = steps.leaves_to_json(rt.alloc())?.to_string(rt.alloc())?;
//! assert_eq!(rt; leaves.as_str(), r#"[[["f:spec","f:replicas"],5]]"#);
//! ```
#![tactic(auto)]

pub mod between;
pub mod between_at;
mod body;
pub mod change;
mod children;
mod copying;
mod descent;
mod exchanges;
mod found;
mod going;
pub mod live_body;
pub mod over_steps;
mod over_walk;
mod record_texts;
mod record_values;
mod reorder;
mod side_by_side;
mod size;
pub mod steps;
mod told;
mod told_paths;
mod told_texts;
mod told_values;
mod turnover;
mod walk;
mod weave;
mod writing;
mod writing_parts;

pub use between::steps_between;
pub use between_at::steps_at;
pub use live_body::{LiveBody, turn_recorded};
pub use over_steps::steps_over;
pub use steps::BodySteps;
