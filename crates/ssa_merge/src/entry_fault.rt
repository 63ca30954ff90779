//! Why a value is no table of managers.
ghost use Rattle.std.specs.Prelude.{◌≡◌};
ghost use Rattle.ssa_json.specs.FaultCodes.{code_view};
ghost use Rattle.ssa_merge.specs.EntryReading.{fault_of_fields};
ghost use Rattle.ssa_merge.specs.GivenEntries.{entry_code};
ghost use Rattle.ssa_merge.specs.declared.entry_fault.EntryFault.TheVariants.{OutOfMemory};

use ssa_json::fault_code::FaultCode;
use ssa_path::element_fault::ElemFault;
use ssa_path::path::Path;
use std::alloc::AllocError;
use thiserror::Error;

/// Why `Managers::from_entries` gives no table: the first fault of the first entry that has one.
#[derive(Debug, Drop, Error)]
pub enum EntryFault {
    /// The table would have more than 64 managers.
    #[error("more than 64 managers")]
    TooManyManagers,
    /// The value is no list, or an entry is no object of exactly the members `apiVersion`,
    /// `fieldsType`, `fieldsV1`, `manager`, `operation` and `time`, texts but for `fieldsV1`, with the
    /// fields type `FieldsV1` and the operation `Apply` or `Update`.
    #[error("no entry of managedFields")]
    BadEntry,
    /// A manager's name is not of 1 to 128 printable ASCII characters.
    #[error("no name of a manager")]
    ManagerName,
    /// An entry is of another `apiVersion` than the object.
    #[error("an entry of another apiVersion")]
    OtherVersion,
    /// The time of an entry is no moment.
    #[error("a time that is no moment")]
    BadMoment,
    /// `fieldsV1` is no object, or has a member that is no element.
    #[error("a member of fieldsV1 that is no element")]
    BadElement,
    /// `fieldsV1` has an item of a list by its place.
    #[error("an item of a list by its place")]
    IndexElement,
    /// `fieldsV1` is not the one writing of its set.
    #[error("another spelling of a set of fields")]
    NotCanonical,
    /// An entry owns nothing.
    #[error("an entry that owns nothing")]
    EmptyEntry,
    /// The first path, in path order, that an entry owns and that the object's body does not have, or
    /// that nobody can own: the root and `metadata`.
    #[error("an owned path that the object does not have")]
    AbsentPath(Path),
    /// An earlier entry has the same manager and operation.
    #[error("a manager that has an entry already")]
    DuplicateManager,
    /// A growth of memory was refused.
    #[error("out of memory")]
    OutOfMemory,
}

impl EntryFault {
    /// The fault as it is told.
    pub fn code(&self) -> FaultCode
        ensures { code_view result ≡ entry_code self.now }
    {
        match self {
            EntryFault::TooManyManagers => FaultCode::TooManyManagers,
            EntryFault::BadEntry => FaultCode::BadEntry,
            EntryFault::ManagerName => FaultCode::ManagerName,
            EntryFault::OtherVersion => FaultCode::OtherVersion,
            EntryFault::BadMoment => FaultCode::BadMoment,
            EntryFault::BadElement => FaultCode::BadElement,
            EntryFault::IndexElement => FaultCode::IndexElement,
            EntryFault::NotCanonical => FaultCode::NotCanonical,
            EntryFault::EmptyEntry => FaultCode::EmptyEntry,
            EntryFault::AbsentPath(_) => FaultCode::AbsentPath,
            EntryFault::DuplicateManager => FaultCode::DuplicateManager,
            EntryFault::OutOfMemory => FaultCode::OutOfMemory,
        }
    }
}

impl From<AllocError> for EntryFault {
    ghost from_gives = { λ _ e. e ≡ OutOfMemory };

    fn from(_refused: AllocError) -> EntryFault {
        EntryFault::OutOfMemory
    }
}

impl From<ElemFault> for EntryFault {
    ghost from_gives = { λ f e. e ≡ fault_of_fields f };

    fn from(fault: ElemFault) -> EntryFault {
        match fault {
            ElemFault::BadElement => EntryFault::BadElement,
            ElemFault::IndexElement => EntryFault::IndexElement,
            ElemFault::NotCanonical => EntryFault::NotCanonical,
            ElemFault::OutOfMemory => EntryFault::OutOfMemory,
        }
    }
}
