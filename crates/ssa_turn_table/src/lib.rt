//! The table of managers, changed in place by a record, without memory.
//!
//! A [`TableDelta`] says who goes, who comes and whose entry changes; [`turn_managers`] takes a table
//! there and back.
#![tactic(auto)]

pub mod between;
mod changing;
mod coming;
mod copying;
pub mod delta;
mod going;
pub mod live_table;
mod push_changed;
mod size;
pub mod table;
pub mod table_delta;
mod to_json;

pub use delta::TableDelta;
pub use live_table::LiveTable;
pub use table::turn_managers;
