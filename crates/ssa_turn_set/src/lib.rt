//! Sets of paths that are changed in place by a record, without memory.
//!
//! What two sets differ in is a [`SetDelta`], made by [`between`] with the room for every later turn.
//!
//! ```
//! let path = Path::new(Vec::from_array(rt.alloc(), [Elem::read(rt.alloc(), "f:spec")?])?);
//! let mut set = FieldSet::new(rt.alloc());
//! let mut wanted = FieldSet::new(rt.alloc());
//! wanted.insert(rt.alloc(), &path)?;
//! let mut delta = between(rt.alloc(), &set, &wanted)?;
//! turn_field_set(&mut set, &mut delta);
//! assert!(rt; set.has(&path));
//! turn_field_set(&mut set, &mut delta);
//! assert!(rt; set.is_empty());
//! ```
#![tactic(auto)]

mod copying;
pub(crate) mod filling;
mod gain;
pub mod kept_paths;
pub mod live_set;
mod lose;
pub mod loss;
pub mod making;
pub(crate) mod opening;
pub mod room;
pub(crate) mod siblings;
mod spare;
pub mod turn;
pub(crate) mod weaving;

pub use live_set::turn_field_set;
pub use making::between;
pub use turn::SetDelta;
