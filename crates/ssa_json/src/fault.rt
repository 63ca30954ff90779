//! Why JSON text is refused.
ghost use Rattle.std.specs.Prelude.{◌≡◌};
ghost use Rattle.ssa_json.specs.FaultCodes.{code_view, json_fault_code};
ghost use Rattle.ssa_json.specs.declared.fault.JsonFault.TheVariants.{OutOfMemory};

use crate::fault_code::FaultCode;
use std::alloc::{AllocError, AllocFailed};
use thiserror::Error;

/// Why `Json::read` gives no value.
#[derive(Debug, Drop, Error)]
pub enum JsonFault {
    /// The bytes are no UTF-8, or no JSON text as RFC 8259 has it, or nest more than 127 deep, or
    /// hold a number beyond what a float of 64 bits reaches.
    #[error("not JSON")]
    NotJson,
    /// The first part that is left out here is a null.
    #[error("a null value")]
    NullValue,
    /// The first part that is left out here is a number that is not a whole number of 64 bits with
    /// sign, or is spelled as another: `1.0`, `1e2` and `-0` too.
    #[error("a number that is not a whole number of 64 bits")]
    NumberOutside,
    /// There are more bytes than the caller takes.
    #[error("too long")]
    TooLong,
    /// A growth was refused.
    #[error("out of memory")]
    OutOfMemory,
}

impl JsonFault {
    /// The fault as it is told.
    pub fn code(&self) -> FaultCode
        ensures { code_view result ≡ json_fault_code self.now }
    {
        match self {
            JsonFault::NotJson => FaultCode::NotJson,
            JsonFault::NullValue => FaultCode::NullValue,
            JsonFault::NumberOutside => FaultCode::NumberOutside,
            JsonFault::TooLong => FaultCode::TooLong,
            JsonFault::OutOfMemory => FaultCode::OutOfMemory,
        }
    }
}

impl From<AllocError> for JsonFault {
    ghost from_gives = { λ _ e. e ≡ OutOfMemory };

    fn from(_refused: AllocError) -> JsonFault {
        JsonFault::OutOfMemory
    }
}

impl<T: Drop> From<AllocFailed<T>> for JsonFault {
    ghost from_gives = { λ _ e. e ≡ OutOfMemory };

    fn from(_refused: AllocFailed<T>) -> JsonFault {
        JsonFault::OutOfMemory
    }
}
