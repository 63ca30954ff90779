//! Elements of paths, paths of fields, and sets of them.
//!
//! An [`Elem`] is a step of a path as FieldsV1 of the Kubernetes API writes it, a [`Path`] the steps
//! from an object's root, and a [`FieldSet`] the paths that a manager owns, kept as a [`Trie`].
//!
//! ```
//! let elements = [
//!     Elem::read(rt.alloc(), "f:ports")?,
//!     Elem::read(rt.alloc(), r#"k:{"name":"web"}"#)?,
//! ];
//! let path = Path::new(Vec::from_array(rt.alloc(), elements)?);
//! let mut set = FieldSet::new(rt.alloc());
//! set.insert(rt.alloc(), &path)?;
//! assert!(rt; set.has(&path));
//! let fields = set.to_fields_v1(rt.alloc())?.to_string(rt.alloc())?;
//! assert_eq!(rt;
//!     fields.as_str(),
//!     r#"{"f:ports":{"k:{\"name\":\"web\"}":{}}}"#
//! );
//! ```
#![tactic(auto)]

pub mod children;
pub mod combine;
pub mod element;
pub mod element_fault;
mod element_read;
pub mod element_text;
pub mod field_set;
pub mod fields_back;
mod fields_read;
mod fields_text;
mod fields_v1;
mod key_fields;
pub mod keys;
mod leading_text;
pub mod listing;
mod nested_text;
pub mod order;
pub mod part;
pub mod part_members;
pub mod parting;
pub mod path;
pub mod path_text;
mod same;
pub mod shared_set;
pub mod sort_key;
mod taking_out;
pub mod top_path;
pub mod trie;
pub mod within;

pub use element::Elem;
pub use element_fault::ElemFault;
pub use field_set::FieldSet;
pub use keys::{Keys, SharedKeys};
pub use part::Part;
pub use path::Path;
pub use shared_set::SharedSet;
pub use top_path::{LentPath, path_value};
pub use trie::Trie;
