//! What a line asks of a bench: a change, a move or a look.
ghost use Rattle.std.specs.Prelude.{◌≡◌};

use crate::change;
use ssa_path::path::Path;

/// What a line asks a bench for.
#[derive(Drop)]
pub enum Command {
    /// A new state of the object.
    Change(change::Command),
    Undo,
    Redo,
    /// The object, with the managers' entries where that is said.
    Show(bool),
    /// Who owns a path.
    Owners(Path),
    /// The commands of the history.
    Log,
}

impl Command {
    ghost use Rattle.ssa_model.specs.definitions.Subcommands.{is_change};
    ghost use Rattle.ssa_answers.specs.Commands.{command_view};

    /// Whether the command changes the bench where it is accepted, and does not only look at it.
    pub fn is_change(&self) -> bool
        ensures { result ≡ is_change (command_view self.now) }
    {
        match self {
            Command::Change(_) | Command::Undo | Command::Redo => true,
            Command::Show(_) | Command::Owners(_) | Command::Log => false,
        }
    }
}
