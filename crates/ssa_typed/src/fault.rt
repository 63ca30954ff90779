//! Why a value has no body.
ghost use Rattle.std.specs.Prelude.{◌≡◌};
ghost use Rattle.ssa_typed.specs.declared.fault.TypedFault.TheVariants.{OutOfMemory};

use ssa_schema::body_fault::BodyFault;
use std::alloc::AllocError;
use thiserror::Error;

/// Why a value has no body under a schema.
#[derive(Debug, Drop, Error)]
pub enum TypedFault {
    /// The value does not fit the schema: its first fault, with the path.
    #[error("{0}")]
    Body(BodyFault),
    /// The value has more than 20,000 places beside the root.
    #[error("more than 20,000 paths")]
    TooManyPaths,
    /// A growth of memory was refused.
    #[error("out of memory")]
    OutOfMemory,
}

impl From<AllocError> for TypedFault {
    ghost from_gives = { λ _ e. e ≡ OutOfMemory };

    fn from(_refused: AllocError) -> TypedFault {
        TypedFault::OutOfMemory
    }
}
