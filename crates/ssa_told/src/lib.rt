//! What the JSON value of a record tells, list by list, before it is known to fit a state; and texts,
//! lists and paths among JSON values.
//!
//! [`told_record`] reads a value that has the shape of a record. [`line_values`](line_values::line_values)
//! looks up the two values of a record's line.
//!
//! ```
//! let line = json(rt.alloc(), r#"{"command":{"do":"strip"},"record":{}}"#)?;
//! let command = line_values(&line).map(|values| values.command);
//! assert_eq!(rt;
//!     command
//!         .and_then(|value| value.member("do"))
//!         .and_then(|word| word.as_text()),
//!     Some("strip")
//! );
//! ```
#![tactic(auto)]

mod body_lists;
mod body_reading;
mod key_reading;
pub mod line_values;
mod member_names;
pub mod path_texts;
pub mod reading_said;
pub mod subresources;
mod table_reading;
pub mod told;
mod told_parts;
pub mod told_reading;
pub mod value_shape;

pub use line_values::LineValues;
pub use reading_said::record_texts_say;
pub use subresources::tells_subresource;
pub use told::{
    ToldBody, ToldChange, ToldHere, ToldLeaf, ToldOrder, ToldPut, ToldRecord, ToldTable,
};
pub use told_reading::told_record;
