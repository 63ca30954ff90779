//! Records of states, read from their JSON values and made ready for their turns.
//!
//! [`read_record`](read_record::read_record) takes a record from a line of a bench file where it is
//! the record from the state at hand to a valid one.
//!
//! ```
//! let text =
//!     r#"{"changed":[],"cut":[],"gone":[],"here":[],"leaves":[[["f:spec","f:replicas"],5]],"order":[],"put":[]}"#;
//! let record = json(rt.alloc(), text)?;
//! let schema = schema(rt.alloc())?;
//! let mut state = state(rt.alloc(), &schema, r#"{"spec":{"replicas":3}}"#)?;
//! let answer = read_record(rt.alloc(), &schema, "v1", &mut state, &record);
//! assert!(rt; matches!(answer, Ok(RecordAnswer::Fits(_))));
//! ```
#![tactic(auto)]

mod by_path;
mod field_spot;
mod fitting_changes;
mod fitting_here;
mod fitting_lists;
mod item_spot;
mod led_value;
mod order_after;
mod places;
pub mod read_record;
mod spot;
mod standing;
mod steps_there;
mod told_delta;
mod told_places;
mod told_spot;
mod told_steps;
mod told_table;

pub use read_record::RecordAnswer;
