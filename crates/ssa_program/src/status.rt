//! The statuses by which the program ends.
ghost use Rattle.std.specs.Prelude.{◌≡◌};
ghost use Rattle.ssa_program.specs.Status.{status_code, status_of};

use ssa_session::files::Ending;

/// How a call of the program ends.
#[derive(Clone, Copy, Debug, PartialEq, Eq)]
pub enum Status {
    /// It is done; in a session, whatever that refused.
    Done,
    /// A file or a command was refused, and the line that says why is written.
    Refused,
    /// The words are not the program's.
    Usage,
    /// A file cannot be read or written, memory ran out, or the session broke off.
    Broken,
}

impl Status {
    /// The exit status.
    pub fn code(self) -> u8
        ensures { result ≡ status_code self }
    {
        match self {
            Status::Done => 0,
            Status::Refused => 1,
            Status::Usage => 2,
            Status::Broken => 3,
        }
    }
}

impl From<Ending> for Status {
    ghost from_gives = { λ ending status. status ≡ status_of ending };

    fn from(ending: Ending) -> Status {
        match ending {
            Ending::Refused => Status::Refused,
            Ending::OutOfMemory => Status::Broken,
        }
    }
}
