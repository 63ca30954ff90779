//! Where a refusal is, told for people: places in JSON, in a schema and in an object, and values in
//! conflict.
//!
//! Places are told as `jq` would take them. Nothing rests on these texts: a fault's number and path are
//! told beside them.
//!
//! ```
//! let mut text = Vec::new(rt.alloc());
//! push_members(&mut text, &["spec", "a key"])?;
//! assert_eq!(rt; text.as_slice(), br#".spec["a key"]"#.as_slice());
//! ```
#![tactic(auto)]

mod atomic;
pub mod body;
pub mod conflict;
pub mod entry;
pub mod identity;
mod items;
pub mod json;
mod near;
mod part;
pub mod path;
pub mod way;
mod wrong;

pub use body::push_body_fault;
pub use conflict::push_conflict;
pub use entry::push_refused_entry;
pub use identity::{push_missing_part, push_other_part};
pub use json::push_unread;
pub use path::push_refused_element;
pub use way::{push_element, push_member, push_members, push_name, push_place, push_value};
