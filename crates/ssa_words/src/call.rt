//! What the words of the program ask for.
use ssa_reverse::depth::Depth;

/// A word of the program, with what stands behind it.
#[derive(Clone, Copy, Debug, Drop, PartialEq, Eq)]
pub enum Call<'a> {
    /// Make a bench of a schema and an object.
    Init {
        schema: &'a str,
        object: &'a str,
        bench: &'a str,
        /// How many commands it keeps to be undone.
        depth: Depth,
    },
    /// Apply the object of a file.
    Apply {
        bench: &'a str,
        file: &'a str,
        at: &'a str,
        manager: &'a str,
        /// Whether it acts through the subresource `status`.
        status: bool,
        force: bool,
    },
    /// Update the object to that of a file.
    Update {
        bench: &'a str,
        file: &'a str,
        at: &'a str,
        manager: &'a str,
        /// Whether it acts through the subresource `status`.
        status: bool,
    },
    /// Strip the object of its managers.
    Strip {
        bench: &'a str,
    },
    /// Take the last command back.
    Undo {
        bench: &'a str,
    },
    /// Carry out again what was taken back.
    Redo {
        bench: &'a str,
    },
    /// Show the object, and its managed fields where `managed` is true.
    Show {
        bench: &'a str,
        managed: bool,
    },
    /// Tell the owners of a path, which is a JSON list of element texts.
    Owners {
        bench: &'a str,
        path: &'a str,
    },
    /// Tell the commands of the history.
    Log {
        bench: &'a str,
    },
    /// Hold a session over standard input and output.
    Session {
        bench: &'a str,
    },
}
