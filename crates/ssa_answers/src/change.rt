//! Commands that change an object.

use ssa_json::moment::Moment;
use ssa_json::value::Json;
use ssa_path::part::Part;

/// A command that makes a new state of an object.
#[derive(Drop)]
pub enum Command {
    /// A manager applies a configuration.
    Apply {
        who: String,
        /// The part of the object that is applied.
        part: Part,
        /// Whether fields of other managers are taken from them where they are in conflict.
        force: bool,
        at: Moment,
        object: Json,
    },
    /// A manager replaces the object.
    Update {
        who: String,
        /// The part of the object that is replaced.
        part: Part,
        at: Moment,
        object: Json,
    },
    /// All managers are forgotten.
    Strip,
}
