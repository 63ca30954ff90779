//! Why a schema is refused.
ghost use Rattle.std.specs.Prelude.{◌≡◌};
ghost use Rattle.ssa_json.specs.FaultCodes.{code_view};
ghost use Rattle.ssa_schema.specs.FaultCodes.{schema_code};
ghost use Rattle.ssa_schema.specs.declared.fault.SchemaFault.TheVariants.{OutOfMemory};

use ssa_json::fault_code::FaultCode;
use std::alloc::{AllocError, AllocFailed};
use thiserror::Error;

/// Why `Schema::read` gives no schema.
#[derive(Debug, Drop, Error)]
pub enum SchemaFault {
    /// A schema has a keyword that is not read here: `default`, `enum` and `format` among others.
    #[error("a keyword that is not read")]
    SchemaKeyword,
    /// A schema is no object, has no type that is read here, or has parts that do not go together.
    #[error("a schema of another shape")]
    SchemaShape,
    /// The keys of a map list are missing, misplaced, empty or repeated, or name no scalar field of
    /// the items.
    #[error("wrong list map keys")]
    SchemaKeys,
    /// Schemas nest more than 32 deep. The root has depth 1.
    #[error("a schema nested too deep")]
    SchemaDepth,
    /// A growth was refused.
    #[error("out of memory")]
    OutOfMemory,
}

impl SchemaFault {
    /// The fault as it is told.
    pub fn code(&self) -> FaultCode
        ensures { code_view result ≡ schema_code self.now }
    {
        match self {
            SchemaFault::SchemaKeyword => FaultCode::SchemaKeyword,
            SchemaFault::SchemaShape => FaultCode::SchemaShape,
            SchemaFault::SchemaKeys => FaultCode::SchemaKeys,
            SchemaFault::SchemaDepth => FaultCode::SchemaDepth,
            SchemaFault::OutOfMemory => FaultCode::OutOfMemory,
        }
    }
}

impl From<AllocError> for SchemaFault {
    ghost from_gives = { λ _ e. e ≡ OutOfMemory };

    fn from(_refused: AllocError) -> SchemaFault {
        SchemaFault::OutOfMemory
    }
}

impl<T: Drop> From<AllocFailed<T>> for SchemaFault {
    ghost from_gives = { λ _ e. e ≡ OutOfMemory };

    fn from(_refused: AllocFailed<T>) -> SchemaFault {
        SchemaFault::OutOfMemory
    }
}
