//! What an object is beside its body: its identity, the body's value in it, and the object that is
//! shown of a state.
//!
//! ```
//! let object = json(rt.alloc(), web(rt.alloc(), "", IMAGE)?.as_str())?;
//! assert!(rt; has_identity(&object));
//! let body = body_value(object).to_string(rt.alloc())?;
//! assert_eq!(rt; body.as_str(), r#"{"metadata":{},"spec":{"image":"a"}}"#);
//! ```
#![tactic(auto)]

pub mod body_value;
pub mod identity;
pub mod object;

pub use body_value::file_parts;
pub use identity::{Identity, gives_managed_fields, has_identity};
pub use object::object_of_state;
