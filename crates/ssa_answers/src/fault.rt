//! Why a command or an object is refused.
ghost use Rattle.std.specs.Prelude.{◌≡◌};
ghost use Rattle.ssa_json.specs.FaultCodes.{code_view};
ghost use Rattle.ssa_answers.specs.Faults.{bench_code};
ghost use Rattle.ssa_answers.specs.Refusals.{refusal_fault, entry_fault};
ghost use Rattle.ssa_answers.specs.declared.fault.Fault.TheVariants.{OutOfMemory};

use ssa_json::fault_code::FaultCode;
use ssa_merge::entry_fault::EntryFault;
use ssa_merge::manager::ManagerKey;
use ssa_merge::plan::Refusal;
use ssa_path::field_set::FieldSet;
use ssa_schema::body_fault::BodyFault;
use std::alloc::AllocError;
use thiserror::Error;

/// Why a command or an object is refused.
#[derive(Debug, Drop, Error)]
pub enum Fault {
    /// The object does not fit the schema: its first fault.
    #[error("an object that does not fit the schema")]
    Body(BodyFault),
    /// The body would have more than 20,000 paths beside the root.
    #[error("more than 20,000 paths")]
    TooManyPaths,
    /// The object has no identity, or another than the bench's.
    #[error("no identity, or another than the bench's")]
    Identity,
    /// The object gives `metadata.managedFields`, which are not a command's to give.
    #[error("metadata.managedFields given by a command")]
    ManagedFieldsGiven,
    /// The `metadata.managedFields` of an object file are no table of managers: their first fault.
    #[error("managedFields that are no table of managers")]
    Entry(EntryFault),
    /// A manager's name is not of 1 to 128 printable ASCII characters.
    #[error("no name of a manager")]
    ManagerName,
    /// The schema has no such subresource.
    #[error("no such subresource")]
    NoSubresource,
    #[error("nothing to undo")]
    NothingToUndo,
    #[error("nothing to redo")]
    NothingToRedo,
    /// The managers whose fields the command would change, in table order, each with these fields.
    #[error("a conflict with other managers")]
    Conflict(Vec<(ManagerKey, FieldSet)>),
    /// The table would have more than 64 managers.
    #[error("more than 64 managers")]
    TooManyManagers,
    /// A growth of memory was refused.
    #[error("out of memory")]
    OutOfMemory,
}

impl Fault {
    /// The fault as it is told.
    pub fn code(&self) -> FaultCode
        ensures { code_view result ≡ bench_code self.now }
    {
        match self {
            Fault::Body(fault) => fault.code(),
            Fault::TooManyPaths => FaultCode::TooManyPaths,
            Fault::Identity => FaultCode::Identity,
            Fault::ManagedFieldsGiven => FaultCode::ManagedFieldsGiven,
            Fault::Entry(fault) => fault.code(),
            Fault::ManagerName => FaultCode::ManagerName,
            Fault::NoSubresource => FaultCode::NoSubresource,
            Fault::NothingToUndo => FaultCode::NothingToUndo,
            Fault::NothingToRedo => FaultCode::NothingToRedo,
            Fault::Conflict(_) => FaultCode::Conflict,
            Fault::TooManyManagers => FaultCode::TooManyManagers,
            Fault::OutOfMemory => FaultCode::OutOfMemory,
        }
    }
}

impl From<AllocError> for Fault {
    ghost from_gives = { λ _ e. e ≡ OutOfMemory };

    fn from(_refused: AllocError) -> Fault {
        Fault::OutOfMemory
    }
}

impl From<EntryFault> for Fault {
    ghost from_gives = { λ f e. e ≡ entry_fault f };

    fn from(fault: EntryFault) -> Fault {
        match fault {
            EntryFault::OutOfMemory => Fault::OutOfMemory,
            _ => Fault::Entry(fault),
        }
    }
}

impl From<Refusal> for Fault {
    ghost from_gives = { λ r e. e ≡ refusal_fault r };

    fn from(refusal: Refusal) -> Fault {
        match refusal {
            Refusal::Conflict(clashes) => Fault::Conflict(clashes),
            Refusal::TooManyPaths => Fault::TooManyPaths,
            Refusal::TooManyManagers => Fault::TooManyManagers,
            Refusal::OutOfMemory => Fault::OutOfMemory,
        }
    }
}
