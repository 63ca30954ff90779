//! From the JSON of a schema to its kind, or to its first fault.

pub mod build;
pub mod key_names;
pub mod keys;
pub mod members;
pub mod metadata;
pub mod place;
pub mod refusal;
pub mod rules;
pub mod shapes;
pub mod standing;
pub mod walk;
