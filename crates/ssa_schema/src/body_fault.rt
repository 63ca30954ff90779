//! What is wrong with a value.
ghost use Rattle.std.specs.Prelude.{◌≡◌};
ghost use Rattle.ssa_model.specs.definitions.Faults.{body_fault_code};
ghost use Rattle.ssa_json.specs.FaultCodes.{code_view};
ghost use Rattle.ssa_schema.specs.Finds.{told_view};
ghost use Rattle.ssa_schema.specs.Kinds.{names_view};

use ssa_json::fault_code::FaultCode;
use thiserror::Error;

/// Why a value does not fit a schema, with the path of its place: the texts of the elements, as
/// FieldsV1 of the Kubernetes API spells them (`f:` and a field's name, `k:` and the key fields of
/// an item, `v:` and the value of an item).
#[derive(Debug, Drop, Error)]
pub enum BodyFault {
    /// A field that the schema does not have, at the field's path. Inside an atomic value it is
    /// told at the atomic value's path.
    #[error("a field that the schema does not have")]
    UnknownField(Vec<String>),
    /// A value of another type than the schema's, at the value's path. A wrong item of a set or of
    /// a map list and a wrong key are told at the list's path, and what is wrong inside an atomic
    /// value at the atomic value's path.
    #[error("a value of another type")]
    WrongType(Vec<String>),
    /// An item of a map list without one of its keys, at the list's path.
    #[error("an item without a key")]
    MissingKey(Vec<String>),
    /// An item that an earlier one equals, in a set by its value and in a map list by its keys, at
    /// the item's path.
    #[error("an item that is there already")]
    DuplicateItem(Vec<String>),
}

impl BodyFault {
    /// The fault as it is told.
    pub fn code(&self) -> FaultCode
        ensures { code_view result ≡ body_fault_code (told_view self.now).0 }
    {
        match self {
            BodyFault::UnknownField(_) => FaultCode::UnknownField,
            BodyFault::WrongType(_) => FaultCode::WrongType,
            BodyFault::MissingKey(_) => FaultCode::MissingKey,
            BodyFault::DuplicateItem(_) => FaultCode::DuplicateItem,
        }
    }

    /// The path that is told with it, by the texts of its elements.
    pub fn path(&self) -> &[String]
        ensures { names_view result.now ≡ (told_view self.now).1 }
    {
        match self {
            BodyFault::UnknownField(path)
            | BodyFault::WrongType(path)
            | BodyFault::MissingKey(path)
            | BodyFault::DuplicateItem(path) => path,
        }
    }
}
