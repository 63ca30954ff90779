//! Tests of the kinds that schemas are read as.
use crate::questions::Question;
use crate::samples::SPEC;
use crate::support::{are_told, schema, truth, value};
use ssa_json::value::{Json, Scalar};
use ssa_schema::kind::{Kind, ScalarKind, Shape, find_field, find_shape};
use ssa_schema::schema::Schema;
use std::alloc::Global;
use std::test::Fail;

// The name of a shape.
fn shape_name(shape: Option<&Shape>) -> &'static str {
    match shape {
        None => "none",
        Some(Shape::Scalar(_)) => "atomic scalar",
        Some(Shape::Record(_)) => "atomic record",
        Some(Shape::Dict(_)) => "atomic dict",
        Some(Shape::List(_)) => "atomic list",
    }
}

// The name of a map list by its keys.
fn items_name(keys: &[String]) -> &'static str {
    match keys {
        [only] if only.as_str() == "name" => "items by name",
        [first, second] if first.as_str() == "name" && second.as_str() == "port" => {
            "items by name and port"
        }
        _ => "items by other keys",
    }
}

// The name of a kind.
fn kind_name(kind: Option<&Kind>) -> &'static str {
    match kind {
        None => "none",
        Some(Kind::Scalar(ScalarKind::Text)) => "text",
        Some(Kind::Scalar(ScalarKind::Whole)) => "whole",
        Some(Kind::Scalar(ScalarKind::Truth)) => "truth",
        Some(Kind::AtomicOf(shape)) => shape_name(Some(shape)),
        Some(Kind::Record(_)) => "record",
        Some(Kind::Dict(_)) => "dict",
        Some(Kind::SetOf(_)) => "set",
        Some(Kind::ItemsOf { keys, .. }) => items_name(keys),
    }
}

const KINDS: [(&str, &str); 14] = [
    ("metadata annotations", "dict"),
    ("metadata finalizers", "set"),
    ("metadata labels", "dict"),
    ("metadata name", "none"),
    ("spec args", "atomic list"),
    ("spec env", "dict"),
    ("spec hosts", "set"),
    ("spec image", "text"),
    ("spec limits", "atomic dict"),
    ("spec paused", "truth"),
    ("spec ports", "items by name"),
    ("spec replicas", "whole"),
    ("spec routes", "items by name and port"),
    ("spec zzz", "none"),
];

// An atomic record `p` with a field `a`.
const ATOMIC: &str =
    r#"{"properties":{"p":{"properties":{"a":{"type":"boolean"}},"type":"object","x-kubernetes-map-type":"atomic"}},"type":"object"}"#;

const SHAPES: [(&str, &str); 3] = [
    ("p", "atomic record"),
    ("p a", "atomic scalar"),
    ("p b", "none"),
];

// The name of the kind of what these fields lead to, each in the one before, or of its shape in an atomic record.
fn name_at(schema: &Schema, names: &str) -> &'static str {
    let mut kind = Some(schema.kind());
    for name in names.split_whitespace() {
        kind = match kind {
            Some(Kind::Record(fields)) => find_field(fields, name),
            Some(Kind::AtomicOf(Shape::Record(shapes))) => {
                return shape_name(find_shape(shapes, name));
            }
            _ => None,
        };
    }
    kind_name(kind)
}

// The same of the schema of a text.
fn name_under(alloc: Global, schema_text: &str, names: &str) -> Result<String, Fail> {
    let name = name_at(&schema(alloc, schema_text)?, names);
    Ok(String::from_str(alloc, name)?)
}

// Whether the schema of a text keeps the text's value.
fn keeps(alloc: Global, text: &str, read: &Json) -> Result<bool, Fail> {
    Ok(schema(alloc, text)?.json().same(read))
}

// The same as a text.
fn told_kept(alloc: Global, text: &str) -> Result<String, Fail> {
    let read = value(alloc, text)?;
    let is_kept = keeps(alloc, text, &read);
    drop(read);
    truth(alloc, is_kept?)
}

/// What is asked of what schemas are read as.
pub enum Asked {
    /// What kind a field of the sample schema is of.
    Kind,
    /// What shape a field of an atomic record is of.
    Shape,
    /// Whether the text's schema keeps its value.
    Kept,
}

/// The answer to a question of what schemas are read as.
pub fn answer(alloc: Global, asked: &Asked, text: &str) -> Result<String, Fail> {
    match asked {
        Asked::Kind => name_under(alloc, SPEC, text),
        Asked::Shape => name_under(alloc, ATOMIC, text),
        Asked::Kept => told_kept(alloc, text),
    }
}

#[test]
fn schemas_have_their_kinds_and_shapes(rt: HostRuntime) -> Result<(), Fail> {
    are_told(rt.alloc(), &Question::Kind(Asked::Kind), &KINDS)?;
    are_told(rt.alloc(), &Question::Kind(Asked::Shape), &SHAPES)?;
    are_told(rt.alloc(), &Question::Kind(Asked::Kept), &[(SPEC, "true")])
}

#[test]
fn scalars_are_of_their_kinds(rt: HostRuntime) {
    let one = Scalar::Int(1);
    assert!(rt; ScalarKind::Whole.has(&one) && !ScalarKind::Truth.has(&one));
}
