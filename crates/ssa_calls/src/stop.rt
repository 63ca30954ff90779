//! Why a call gives nothing.
use ssa_json::fault::JsonFault;
use ssa_json::moment::BadMoment;
use ssa_merge::entry_fault::EntryFault;
use ssa_merge::plan::Refusal;
use ssa_schema::fault::SchemaFault;
use ssa_typed::fault::TypedFault;
use std::alloc::AllocError;

/// Why a call gives nothing.
#[derive(Drop)]
pub enum Stop {
    /// A growth of memory was refused.
    NoMemory,
    /// The command is refused, not for want of memory.
    Refused(Refusal),
    /// A text of the sample is not what it is meant to be.
    NotAsMeant,
}

impl From<AllocError> for Stop {
    fn from(_refused: AllocError) -> Stop {
        Stop::NoMemory
    }
}

impl From<Refusal> for Stop {
    fn from(refusal: Refusal) -> Stop {
        match refusal {
            Refusal::OutOfMemory => Stop::NoMemory,
            other => Stop::Refused(other),
        }
    }
}

impl From<JsonFault> for Stop {
    fn from(fault: JsonFault) -> Stop {
        match fault {
            JsonFault::OutOfMemory => Stop::NoMemory,
            _ => Stop::NotAsMeant,
        }
    }
}

impl From<SchemaFault> for Stop {
    fn from(fault: SchemaFault) -> Stop {
        match fault {
            SchemaFault::OutOfMemory => Stop::NoMemory,
            _ => Stop::NotAsMeant,
        }
    }
}

impl From<TypedFault> for Stop {
    fn from(fault: TypedFault) -> Stop {
        match fault {
            TypedFault::OutOfMemory => Stop::NoMemory,
            _ => Stop::NotAsMeant,
        }
    }
}

impl From<EntryFault> for Stop {
    fn from(fault: EntryFault) -> Stop {
        match fault {
            EntryFault::OutOfMemory => Stop::NoMemory,
            _ => Stop::NotAsMeant,
        }
    }
}

impl From<BadMoment> for Stop {
    fn from(_bad: BadMoment) -> Stop {
        Stop::NotAsMeant
    }
}
