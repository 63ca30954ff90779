//! Why a text names no element, and a value no set of paths.
ghost use Rattle.std.specs.Prelude.{◌≡◌};
ghost use Rattle.ssa_json.specs.FaultCodes.{code_view};
ghost use Rattle.ssa_path.specs.FaultCodes.{elem_fault_code};
ghost use Rattle.ssa_path.specs.declared.element_fault.ElemFault.TheVariants.{OutOfMemory};

use ssa_json::fault_code::FaultCode;
use std::alloc::AllocError;
use thiserror::Error;

/// Why `Elem::read` gives no element, or `FieldSet::from_fields_v1` no set.
#[derive(Debug, Drop, Error)]
pub enum ElemFault {
    /// The text begins with none of `f:`, `k:` and `v:`, or what follows is not JSON, or after `v:`
    /// no scalar, or after `k:` no object of scalars with a member at least. Of a set, the text of a
    /// member is such a one, the value or one in it is no object, or `.` has something inside.
    #[error("not an element")]
    BadElement,
    /// The text, or that of a member, begins with `i:`, which names an item of a list by its place.
    #[error("an element by index")]
    IndexElement,
    /// The text, or that of a member, spells an element in another way than the element's own text
    /// does, or a set has a place alone written as `{".":{}}`.
    #[error("not the one writing of an element or a set")]
    NotCanonical,
    /// A growth was refused.
    #[error("out of memory")]
    OutOfMemory,
}

impl ElemFault {
    /// The fault as it is told.
    pub fn code(&self) -> FaultCode
        ensures { code_view result ≡ elem_fault_code self.now }
    {
        match self {
            ElemFault::BadElement => FaultCode::BadElement,
            ElemFault::IndexElement => FaultCode::IndexElement,
            ElemFault::NotCanonical => FaultCode::NotCanonical,
            ElemFault::OutOfMemory => FaultCode::OutOfMemory,
        }
    }
}

impl From<AllocError> for ElemFault {
    ghost from_gives = { λ _ e. e ≡ OutOfMemory };

    fn from(_refused: AllocError) -> ElemFault {
        ElemFault::OutOfMemory
    }
}
