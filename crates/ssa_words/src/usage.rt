//! Why the words are no call.
ghost use Rattle.std.specs.Prelude.{◌≡◌};
ghost use Rattle.clap.specs.Words.{kind_of};
ghost use Rattle.ssa_words.specs.Calls.{IsUsageOf};
ghost use Rattle.ssa_words.specs.declared.usage.Usage.TheVariants.{OutOfMemory};

use clap::Error as Fault;
use clap::error::ErrorKind;
use std::alloc::{AllocError, Global};
use thiserror::Error;

/// Why the words are no call, with the text that `clap` prints for it.
#[derive(Debug, Drop, Error)]
pub enum Usage {
    /// They ask for help or for the version: the text goes to standard output, with status 0.
    #[error("{text}")]
    Asked { text: String },
    /// They are other words than those of the table: the text goes to standard error.
    #[error("{text}")]
    Refused { text: String },
    /// A growth was refused.
    #[error("out of memory")]
    OutOfMemory,
}

impl From<AllocError> for Usage {
    ghost from_gives = { λ _ e. e ≡ OutOfMemory };

    fn from(_refused: AllocError) -> Usage {
        Usage::OutOfMemory
    }
}

impl Usage {
    /// The fault of a parse, with its text.
    pub(crate) fn of(alloc: Global, fault: Fault) -> Usage
        ensures { IsUsageOf (kind_of fault) result }
    {
        let Ok(text) = format!(in alloc; "{fault}") else {
            return Usage::OutOfMemory;
        };
        match fault.kind() {
            ErrorKind::DisplayHelp | ErrorKind::DisplayVersion => Usage::Asked { text },
            ErrorKind::OutOfMemory => Usage::OutOfMemory,
            _ => Usage::Refused { text },
        }
    }
}
