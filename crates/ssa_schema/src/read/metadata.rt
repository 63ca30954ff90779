//! The fields that each object has beside those of its schema.
ghost use Rattle.std.specs.Prelude.{◌≡◌, true, IfOk};
ghost use Rattle.ssa_model.specs.definitions.Kind as model;
ghost use Rattle.ssa_model.specs.definitions.Schema.{with_field, with_metadata, metadata_fields};
ghost use Rattle.ssa_schema.specs.Kinds.{kind_view, fields_view};
ghost use Rattle.ssa_model.specs.definitions.Lawful.{is_ordered, are_ordered};

use crate::kind::{Kind, ScalarKind};
use ssa_members::{Members, Name};
use std::alloc::{AllocError, Global};

// Any names with texts.
fn text_dict(alloc: Global) -> Result<Kind, AllocError>
    ensures { IfOk result (λ k. kind_view k ≡ model.dict_of (model.scalar_kind model.texts)) }
{
    Ok(Kind::Dict(Box::new(alloc, Kind::Scalar(ScalarKind::Text))?))
}

// The fields with one more, in the place of one of the same name.
fn with_field(
    alloc: Global,
    fields: Members<Kind>,
    name: &str,
    kind: Kind,
) -> Result<Members<Kind>, AllocError>
    ensures fields { IfOk result (λ m. fields_view m.entries ≡ with_field name.now (kind_view kind) (fields_view fields.entries)) }
    ensures ordered { IfOk result (λ m. is_ordered (kind_view kind) ≡ true → are_ordered (fields_view fields.entries) ≡ true → are_ordered (fields_view m.entries) ≡ true) }
{
    let mut made = fields;
    let key = Name::from_str(alloc, name)?;
    drop(made.insert(key, kind)?);
    Ok(made)
}

// What `metadata` may hold beside the identity.
fn metadata_fields(alloc: Global) -> Result<Members<Kind>, AllocError>
    ensures { IfOk result (λ m. fields_view m.entries ≡ metadata_fields) }
{
    let none = Members::new(alloc);
    let labelled = with_field(alloc, none, "labels", text_dict(alloc)?)?;
    let finalizers = Kind::SetOf(ScalarKind::Text);
    let finalized = with_field(alloc, labelled, "finalizers", finalizers)?;
    with_field(alloc, finalized, "annotations", text_dict(alloc)?)
}

/// The kind of the root, with the field `metadata` where it is an object with fields.
pub fn with_metadata(alloc: Global, kind: Kind) -> Result<Kind, AllocError>
    ensures kind { IfOk result (λ k. kind_view k ≡ with_metadata metadata_fields (kind_view kind)) }
    ensures ordered { IfOk result (λ k. is_ordered (kind_view kind) ≡ true → is_ordered (kind_view k) ≡ true) }
{
    match kind {
        Kind::Record(fields) => {
            let metadata = Kind::Record(metadata_fields(alloc)?);
            Ok(Kind::Record(with_field(alloc, fields, "metadata", metadata)?))
        }
        Kind::Scalar(scalar) => Ok(Kind::Scalar(scalar)),
        Kind::AtomicOf(shape) => Ok(Kind::AtomicOf(shape)),
        Kind::Dict(inside) => Ok(Kind::Dict(inside)),
        Kind::SetOf(scalar) => Ok(Kind::SetOf(scalar)),
        Kind::ItemsOf { keys, fields } => Ok(Kind::ItemsOf { keys, fields }),
    }
}
