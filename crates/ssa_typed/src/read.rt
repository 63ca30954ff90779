//! The body of a value, or why it has none.
ghost use Rattle.std.specs.Prelude.{◌≡◌, true, IfOk};
ghost use Rattle.ssa_model.specs.definitions.Kind.{faults};
ghost use Rattle.ssa_model.specs.definitions.Fitting.{IsBodyOf};
ghost use Rattle.ssa_json.specs.View.{view};
ghost use Rattle.ssa_schema.specs.Kinds.{kind_view};
ghost use Rattle.ssa_model.specs.definitions.Lawful.{has_metadata, is_root_kind};
ghost use Rattle.ssa_model.specs.definitions.Valid.{IsRooted};
ghost use Rattle.ssa_typed.specs.Reads.{IsBodyRead, ReadsBody};
ghost use Rattle.ssa_typed.specs.Tested.{IsTested};

use crate::body::{Body, MOST_PLACES};
use crate::fault::TypedFault;
use crate::metadata::without_empty_metadata;
use crate::node::Node;
use crate::tested::{Tested, tested_fields};
use ssa_json::value::Json;
use ssa_schema::kind::Kind;
use ssa_schema::schema::Schema;
use ssa_schema::{Found, Misfit};
use std::alloc::{AllocError, Global};

// The body of a value under a root's kind, or the value's first fault.
fn tested_body(alloc: Global, kind: &Kind, value: Json) -> Result<Tested<Body>, AllocError>
    requires root { is_root_kind (kind_view kind.now) ≡ true }
    requires metadata { has_metadata (kind_view kind.now) ≡ true }
    ensures { IfOk result (λ t. IsTested (faults (kind_view kind.now) (view value)) (IsBodyRead (kind_view kind.now) (view value)) t) }
{
    let Kind::Record(fields) = kind else {
        unreachable!();
    };
    let Json::Object(members) = value else {
        return Ok(Tested::Breaks(Found::here(alloc, Misfit::WrongType)));
    };
    match tested_fields(alloc, fields, without_empty_metadata(members))? {
        Tested::Fits(children) => Ok(Tested::Fits(Body::new(Node::Branch(children)))),
        Tested::Breaks(found) => Ok(Tested::Breaks(found)),
    }
}

impl Body {
    /// The body of an object without its identity, as Server-Side Apply compares objects: one path
    /// for each place outside atomic values. The value's texts and atomic values are moved into it.
    ///
    /// Refused are a value that does not fit the schema, with its first fault, and then one with
    /// more than 20,000 places beside the root.
    pub fn from_json(alloc: Global, schema: &Schema, value: Json) -> Result<Body, TypedFault>
        ensures read { ReadsBody result schema.now.kind (view value) }
        ensures fits { IfOk result (λ b. IsBodyOf schema.now.kind b) }
        ensures rooted { IfOk result (λ b. IsRooted b) }
    {
        let body = match tested_body(alloc, schema.kind(), value)? {
            Tested::Fits(body) => body,
            Tested::Breaks(found) => return Err(TypedFault::Body(found.into_fault())),
        };
        if body.size() > MOST_PLACES {
            return Err(TypedFault::TooManyPaths);
        }
        Ok(body)
    }
}
