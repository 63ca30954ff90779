//! The bench: an object, its managers, and the history of commands on it.
//!
//! A [`Bench`] carries out each [`Command`] or tells the [`Fault`], goes back and forth, shows the
//! object, tells owners, and is saved and loaded.
//!
//! ```
//! let who = String::from_str(rt.alloc(), "kubectl")?;
//! let at = moment()?;
//! let with_image = json(rt.alloc(), web(rt.alloc(), "", IMAGE)?.as_str())?;
//! let object = json(rt.alloc(), web(rt.alloc(), "", "")?.as_str())?;
//! let mut bench = Bench::new(rt.alloc(), schema(rt.alloc())?, object)?;
//! let command = Command::Apply {
//!     who,
//!     part: Part::Main,
//!     force: false,
//!     at,
//!     object: with_image,
//! };
//! let added = bench.execute(rt.alloc(), command).map(|it| it.added.len());
//! assert_eq!(rt; added.ok(), Some(1));
//! assert!(rt; bench.undo().is_ok());
//! assert!(rt; bench.undo().is_err());
//! ```
#![tactic(auto)]

pub mod bench;
mod load;
pub mod prepared;
mod record_reading;
mod state_taking;
mod taking;

pub use bench::Bench;
pub use prepared::{Changed, Counts, Prepared};
pub use ssa_answers::change::Command;
pub use ssa_answers::fault::Fault;
pub use ssa_reverse::depth::Depth;
