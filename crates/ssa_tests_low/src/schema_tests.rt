//! Tests of the reading of schemas.
use crate::questions::Question;
use crate::samples::SPEC;
use crate::support::{are_told, value};
use ssa_schema::fault::SchemaFault;
use ssa_schema::schema::Schema;
use std::alloc::Global;
use std::test::Fail;

/// What is asked of schemas.
pub enum Asked {
    /// What reading a schema says.
    Root,
    /// What reading a schema says, one of whose fields has the text's schema.
    Field,
    /// What reading a schema says, one of whose fields is a list of records with the text's members more.
    List,
    /// What reading a schema says of objects in objects, as many deep as the text says.
    Nested,
}

/// The answer to a question of schemas.
pub fn answer(alloc: Global, asked: &Asked, text: &str) -> Result<String, Fail> {
    match asked {
        Asked::Root => read(alloc, text),
        Asked::Field => read_as_field(alloc, text),
        Asked::List => read_as_list(alloc, text),
        Asked::Nested => read_nested(alloc, text),
    }
}

// What reading a schema says.
fn read(alloc: Global, text: &str) -> Result<String, Fail> {
    let told = match Schema::read(alloc, value(alloc, text)?) {
        Ok(_) => "accepted",
        Err(SchemaFault::SchemaKeyword) => "SchemaKeyword",
        Err(SchemaFault::SchemaShape) => "SchemaShape",
        Err(SchemaFault::SchemaKeys) => "SchemaKeys",
        Err(SchemaFault::SchemaDepth) => "SchemaDepth",
        Err(SchemaFault::OutOfMemory) => "OutOfMemory",
    };
    Ok(String::from_str(alloc, told)?)
}

const ROOTS: [(&str, &str); 20] = [
    (SPEC, "accepted"),
    (r#"{"type":"object"}"#, "accepted"),
    (r#"{"description":"x","type":"object"}"#, "accepted"),
    (r#"{"default":{},"type":"object"}"#, "SchemaKeyword"),
    (r#"{"default":{}}"#, "SchemaKeyword"),
    ("[]", "SchemaShape"),
    (r#""object""#, "SchemaShape"),
    ("{}", "SchemaShape"),
    (r#"{"type":"number"}"#, "SchemaShape"),
    (r#"{"type":1}"#, "SchemaShape"),
    (r#"{"description":1,"type":"object"}"#, "SchemaShape"),
    (r#"{"type":"string"}"#, "SchemaShape"),
    (
        r#"{"additionalProperties":{"type":"string"},"type":"object"}"#,
        "SchemaShape",
    ),
    (
        r#"{"type":"object","x-kubernetes-map-type":"atomic"}"#,
        "SchemaShape",
    ),
    (r#"{"properties":1,"type":"object"}"#, "SchemaShape"),
    (
        r#"{"properties":{"kind":{"type":"string"}},"type":"object"}"#,
        "SchemaShape",
    ),
    (
        r#"{"properties":{"metadata":{"type":"object"}},"type":"object"}"#,
        "SchemaShape",
    ),
    (
        r#"{"properties":{"apiVersion":{"type":"string"}},"type":"object"}"#,
        "SchemaShape",
    ),
    (
        r#"{"properties":{"a":{"type":"x"},"b":{"default":1}},"type":"object"}"#,
        "SchemaShape",
    ),
    (
        r#"{"properties":{"b":{"type":"x"},"a":{"default":1}},"type":"object"}"#,
        "SchemaKeyword",
    ),
];

// What reading a schema says, one of whose fields has this schema.
fn read_as_field(alloc: Global, field: &str) -> Result<String, Fail> {
    let parts = [r#"{"properties":{"p":"#, field, r#"},"type":"object"}"#];
    read(alloc, &parts.concat(alloc)?)
}

const FIELDS: [(&str, &str); 18] = [
    (r#"{"properties":{},"type":"string"}"#, "SchemaShape"),
    (
        r#"{"items":{"type":"string"},"type":"object"}"#,
        "SchemaShape",
    ),
    (
        r#"{"type":"object","x-kubernetes-list-type":"set"}"#,
        "SchemaShape",
    ),
    (
        r#"{"type":"object","x-kubernetes-list-map-keys":["k"]}"#,
        "SchemaShape",
    ),
    (
        r#"{"additionalProperties":{"type":"string"},"properties":{},"type":"object"}"#,
        "SchemaShape",
    ),
    (
        r#"{"type":"object","x-kubernetes-map-type":"x"}"#,
        "SchemaShape",
    ),
    (
        r#"{"type":"object","x-kubernetes-map-type":"granular"}"#,
        "accepted",
    ),
    (
        r#"{"type":"object","x-kubernetes-map-type":"atomic"}"#,
        "accepted",
    ),
    (
        r#"{"additionalProperties":true,"type":"object"}"#,
        "SchemaShape",
    ),
    (
        r#"{"properties":{"q":{"type":"object","x-kubernetes-map-type":"granular"}},"type":"object","x-kubernetes-map-type":"atomic"}"#,
        "SchemaShape",
    ),
    (
        r#"{"properties":{"metadata":{"type":"string"}},"type":"object"}"#,
        "accepted",
    ),
    (r#"{"type":"array"}"#, "SchemaShape"),
    (r#"{"items":true,"type":"array"}"#, "SchemaShape"),
    (
        r#"{"items":{"default":1,"type":"object"},"type":"array","x-kubernetes-list-type":"set"}"#,
        "SchemaKeyword",
    ),
    (
        r#"{"items":{"default":1,"type":"object"},"type":"array","x-kubernetes-list-type":"map"}"#,
        "SchemaKeys",
    ),
    (
        r#"{"items":{"additionalProperties":{"type":"string"},"type":"object"},"type":"array","x-kubernetes-list-map-keys":["k"],"x-kubernetes-list-type":"map"}"#,
        "SchemaShape",
    ),
    (
        r#"{"items":{"properties":{"k":{"type":"string"}},"type":"object","x-kubernetes-map-type":"atomic"},"type":"array","x-kubernetes-list-map-keys":["k"],"x-kubernetes-list-type":"map"}"#,
        "SchemaShape",
    ),
    (
        r#"{"items":{"items":{"type":"string"},"type":"array","x-kubernetes-list-map-keys":["k"]},"type":"array"}"#,
        "SchemaShape",
    ),
];

// What reading a schema says, one of whose fields is a list of records with these members more.
fn read_as_list(alloc: Global, more: &str) -> Result<String, Fail> {
    let items = r#"{"properties":{"k":{"type":"string"},"o":{"type":"object"}},"type":"object"}"#;
    let parts = [r#"{"items":"#, items, r#","type":"array""#, more, "}"];
    read_as_field(alloc, &parts.concat(alloc)?)
}

const LISTS: [(&str, &str); 16] = [
    ("", "accepted"),
    (r#","x-kubernetes-list-type":"bag""#, "SchemaShape"),
    (r#","properties":{}"#, "SchemaShape"),
    (
        r#","additionalProperties":{"type":"string"}"#,
        "SchemaShape",
    ),
    (r#","x-kubernetes-map-type":"atomic""#, "SchemaShape"),
    (r#","x-kubernetes-list-map-keys":["k"]"#, "SchemaKeys"),
    (
        r#","x-kubernetes-list-map-keys":["k"],"x-kubernetes-list-type":"set""#,
        "SchemaKeys",
    ),
    (
        r#","x-kubernetes-list-map-keys":["k"],"x-kubernetes-list-type":"map""#,
        "accepted",
    ),
    (
        r#","x-kubernetes-list-map-keys":["z"],"x-kubernetes-list-type":"map""#,
        "SchemaKeys",
    ),
    (
        r#","x-kubernetes-list-map-keys":["o"],"x-kubernetes-list-type":"map""#,
        "SchemaKeys",
    ),
    (
        r#","x-kubernetes-list-map-keys":[],"x-kubernetes-list-type":"map""#,
        "SchemaKeys",
    ),
    (
        r#","x-kubernetes-list-map-keys":["k","k"],"x-kubernetes-list-type":"map""#,
        "SchemaKeys",
    ),
    (
        r#","x-kubernetes-list-map-keys":["k",1],"x-kubernetes-list-type":"map""#,
        "SchemaKeys",
    ),
    (
        r#","x-kubernetes-list-map-keys":"k","x-kubernetes-list-type":"map""#,
        "SchemaKeys",
    ),
    (r#","x-kubernetes-list-type":"map""#, "SchemaKeys"),
    (r#","x-kubernetes-list-type":"set""#, "SchemaShape"),
];

// Objects in objects, so many deep.
fn nested(alloc: Global, depth: usize) -> Result<String, Fail> {
    let mut text = String::from_str(alloc, r#"{"type":"object"}"#)?;
    for _ in 1..depth {
        let parts = [
            r#"{"properties":{"a":"#,
            text.as_str(),
            r#"},"type":"object"}"#,
        ];
        text = parts.concat(alloc)?;
    }
    Ok(text)
}

// What reading a schema says of objects in objects, so many deep.
fn read_nested(alloc: Global, depth: &str) -> Result<String, Fail> {
    read(alloc, &nested(alloc, depth.parse::<usize>()?)?)
}

const NESTED: [(&str, &str); 2] = [("32", "accepted"), ("33", "SchemaDepth")];

#[test]
fn schemas_are_read(rt: HostRuntime) -> Result<(), Fail> {
    are_told(rt.alloc(), &Question::Schema(Asked::Root), &ROOTS)?;
    are_told(rt.alloc(), &Question::Schema(Asked::Field), &FIELDS)?;
    are_told(rt.alloc(), &Question::Schema(Asked::List), &LISTS)?;
    are_told(rt.alloc(), &Question::Schema(Asked::Nested), &NESTED)
}
