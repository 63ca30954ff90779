//! Structural schemas, read from JSON.
ghost use Rattle.std.specs.Prelude.{true, ◌≡◌, [], IfOk, option_map};
ghost use Rattle.ssa_model.specs.definitions.Answers.{has_part};
ghost use Rattle.ssa_model.specs.definitions.Kind.{faults};
ghost use Rattle.ssa_model.specs.definitions.Parts.{status};
ghost use Rattle.ssa_model.specs.definitions.Schema.{read_schema};
ghost use Rattle.ssa_json.specs.View.{view};
ghost use Rattle.ssa_path.specs.Subresources.{part_view};
ghost use Rattle.ssa_schema.specs.Kinds.{kind_view};
ghost use Rattle.ssa_model.specs.definitions.Lawful.{is_ordered, IsSchemaKind};
ghost use Rattle.ssa_schema.specs.Refusals.{first_of};
ghost use Rattle.ssa_schema.specs.Finds.{told, told_view};
ghost use Rattle.ssa_schema.specs.Schemas.{schema_reading, fault_of, ReadsKind, ReadsSchema};

use crate::body_fault::BodyFault;
use crate::fault::SchemaFault;
use crate::fit::faults::value_fault;
use crate::kind::{Kind, find_field};
use crate::read::build::kind_of;
use crate::read::metadata::with_metadata;
use crate::read::place;
use crate::read::refusal::Refusal;
use crate::read::standing::Standing;
use crate::read::walk::first_refusal;
use ssa_json::value::Json;
use ssa_path::part::Part;
use std::alloc::{AllocError, Global};
use std::marker::Model;

/// How deep schemas may nest.
const LEVELS: usize = 32;

/// A structural schema of objects, with the kind that it asks for.
#[derive(Drop)]
pub struct Schema {
    json: Json,
    kind: Kind,
}

impl Model for Schema {
    ghost use Rattle.ssa_model.specs.definitions.Schema as model;
    ghost use Rattle.ssa_model.specs.codes.BenchCodes.{coded_schema};

    ghost Value = { model.Schema };

    ghost coded = { coded_schema };

    ghost use Rattle.ssa_json.specs.View as json_view;
    ghost use Rattle.ssa_schema.specs.Kinds as kinds;

    ghost view = { λ s. record { source = json_view.view s.json; kind = kinds.kind_view s.kind } };

    ghost use Rattle.std.specs.Prelude.{◌≡◌, Ok};
    ghost use Rattle.ssa_model.specs.definitions.Lawful.{IsSchemaKind};

    ghost invariant = { λ s. IsSchemaKind (kinds.kind_view s.kind) × (model.read_schema (json_view.view s.json) ≡ Ok (kinds.kind_view s.kind)) };
}

// Whether objects of the kind have a field `status`.
fn has_status(kind: &Kind) -> bool
    ensures { result ≡ has_part (kind_view kind.now) status }
{
    match kind {
        Kind::Record(fields) => find_field(fields, "status").is_some(),
        Kind::Scalar(_)
        | Kind::AtomicOf(_)
        | Kind::Dict(_)
        | Kind::SetOf(_)
        | Kind::ItemsOf { .. } => false,
    }
}

// The fault that a refusal is.
fn fault_of(refusal: Refusal) -> SchemaFault
    ensures { result ≡ fault_of refusal }
{
    match refusal {
        Refusal::Keyword => SchemaFault::SchemaKeyword,
        Refusal::Shape => SchemaFault::SchemaShape,
        Refusal::Keys => SchemaFault::SchemaKeys,
        Refusal::Depth => SchemaFault::SchemaDepth,
    }
}

// The kind of the root, or why there is none.
fn read_kind(alloc: Global, schema: &Json) -> Result<Kind, SchemaFault>
    ensures kind { ReadsKind result (schema_reading (view schema.now)) }
    ensures ordered { IfOk result (λ k. is_ordered (kind_view k) ≡ true) }
{
    if let Some(refusal) = first_refusal(alloc, schema, LEVELS, Standing::Root)? {
        return Err(fault_of(refusal));
    }
    let kind = kind_of(alloc, schema, LEVELS)?;
    Ok(with_metadata(alloc, kind)?)
}

impl Schema {
    /// Reads a schema: those of the Kubernetes documentation's structural schemas with the types
    /// `string`, `integer`, `boolean`, `object` and `array`, and the keywords that say how values
    /// are merged. Of several faults the first is told: a schema's own before those of the schemas
    /// inside, and fields by the bytes of their names. The root is an object with fields; its
    /// `apiVersion`, `kind` and `metadata` are not the schema's to give, and `metadata` may hold
    /// `annotations`, `finalizers` and `labels`.
    pub fn read(alloc: Global, schema: Json) -> Result<Schema, SchemaFault>
        ensures { ReadsSchema result (view schema) (read_schema (view schema)) }
    {
        match read_kind(alloc, &schema) {
            Ok(kind) => Ok(Schema { json: schema, kind }),
            Err(fault) => Err(fault),
        }
    }

    /// Where a value that [`read`](Schema::read) refuses has the fault that it tells: the names of the members that
    /// lead from the value to it, of a keyword that is not read the keyword too.
    pub fn fault_place(alloc: Global, schema: &Json) -> Result<Vec<String>, AllocError> {
        place::fault_place(alloc, schema, LEVELS)
    }

    /// What was read.
    pub fn json(&self) -> &Json
        ensures { view result.now ≡ self.now.source }
    {
        &self.json
    }

    /// The kind of the root: what may stand at each place of an object without its identity. It is
    /// an object with fields, whose names rise at each level, and each map list in it has key
    /// fields. Its field `metadata` is an object with fields. No field of the root is named as a part
    /// of the identity, and none of `metadata` as what an object file's metadata has beside the body.
    /// It is the one that is read from the schema's value, whatever way the schema was made.
    pub fn kind(&self) -> &Kind
        ensures same { kind_view result.now ≡ self.now.kind }
        ensures accepted { IsSchemaKind self.now.kind }
        ensures read { read_schema self.now.source ≡ Ok self.now.kind }
    {
        &self.kind
    }

    /// Whether objects of the schema have the part: all have what is not `status`, and those with a field
    /// of this name have `status`.
    pub fn has_part(&self, part: Part) -> bool
        ensures { result ≡ has_part self.now.kind (part_view part) }
    {
        match part {
            Part::Main => true,
            Part::Status => has_status(&self.kind),
        }
    }

    /// The first fault of a value under the schema, none where it fits.
    ///
    /// The members of an object are looked at in the order of their names' bytes and the items of a
    /// list in their order, each with all below it before the next. Items of a set are one where
    /// their values are, and items of a map list where their key fields are. A list of `n` items
    /// costs about `n log n` comparisons, most of them of numbers and at worst all of texts.
    pub fn first_fault(&self, alloc: Global, body: &Json) -> Result<Option<BodyFault>, AllocError>
        ensures { IfOk result (λ f. option_map told_view f ≡ option_map told (first_of (faults self.now.kind (view body.now) []))) }
    {
        match value_fault(alloc, body, &self.kind)? {
            Some(found) => Ok(Some(found.into_fault())),
            None => Ok(None),
        }
    }
}
