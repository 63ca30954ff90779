//! Values under names, in the order of the names' bytes.
//!
//! What a JSON object has is held so, as [`Members`]: one vector, in which a name is found by halving, and
//! among few by a look at each. An object of one member takes a few dozen bytes so, and members that come
//! in order stay as they come.
//!
//! ```
//! let mut members = Members::new(rt.alloc());
//! for (name, count) in [("b", 1), ("a", 2), ("b", 3)] {
//!     members.insert(Name::from_str(rt.alloc(), name)?, count)?;
//! }
//! assert_eq!(rt; members.len(), 2);
//! assert_eq!(rt; members.get("b"), Some(&3));
//! assert_eq!(rt; members.entries()[0].0.as_str(), "a");
//! assert_eq!(rt; members.remove("a"), Some(2));
//! ```
#![tactic(auto)]

pub mod members;
pub mod name;
pub mod room;
mod short_text;
pub mod small_text;
pub mod words;

pub use members::Members;
pub use name::Name;
pub use room::push_closely;
pub use small_text::SmallText;
