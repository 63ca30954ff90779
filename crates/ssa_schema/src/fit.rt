//! The first fault of a value under a kind.

pub mod distinct_tags;
pub mod faults;
pub mod found;
pub mod item_key;
pub mod item_keys;
pub mod leading;
pub mod names;
pub mod repeated;
pub mod shape_misfit;
pub mod tag;
pub mod tagged_key;
