//! The history of an object: its states in a row, each with the command that made it, and a place among
//! them.
//!
//! A [`Timeline`] holds the present state and records alone; a [`Label`] says which command made a
//! state.
//!
//! ```
//! let value = json(
//!     rt.alloc(),
//!     r#"{"at":"2024-05-01T10:00:01Z","do":"update","manager":"u"}"#,
//! )?;
//! let label = Label::from_json(rt.alloc(), &value)?;
//! assert!(rt; matches!(label, Some(Label::Update { .. })));
//! ```
#![tactic(auto)]

pub mod label;
mod label_read;
pub mod reads_state;
pub mod timeline;

pub use label::Label;
pub use reads_state::ReadsState;
pub use timeline::{Log, Timeline};
