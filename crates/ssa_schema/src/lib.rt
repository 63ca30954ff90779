//! Structural schemas: their reading, their kinds, and the faults of values under them.
//!
//! A [`Schema`] is the `openAPIV3Schema` of a resource. It says the [`Kind`] of each place of an
//! object: a scalar, an atomic value, a record, a map, a set, or a list of items with keys.
//!
//! ```
//! let text = r#"{"properties":{"n":{"type":"integer"}},"type":"object"}"#;
//! let schema = Schema::read(rt.alloc(), value(rt.alloc(), text)?)?;
//! let body = value(rt.alloc(), r#"{"n":"one"}"#)?;
//! let fault = schema.first_fault(rt.alloc(), &body)?;
//! assert!(rt; matches!(fault, Some(BodyFault::WrongType(_))));
//! ```
#![tactic(auto)]

pub mod body_fault;
pub mod fault;
mod fit;
pub mod fitting;
pub mod key_fields;
pub mod kind;
mod read;
pub mod schema;

pub use body_fault::BodyFault;
pub use fault::SchemaFault;
pub use fit::faults::value_fault;
pub use fit::found::{Found, Misfit};
pub use fit::item_keys::keys_misfit;
pub use fit::leading::repeated_item;
pub use fit::names::field_name;
pub use fit::repeated::is_other;
pub use fit::shape_misfit::scalar_misfit;
pub use fitting::fits;
pub use kind::{Kind, ScalarKind, Shape};
pub use schema::Schema;
