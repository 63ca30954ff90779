//! Tests of the faults of values under schemas.
use crate::questions::{Question, QuestionOfTwo};
use crate::samples::SPEC;
use crate::support::{are_told, are_told_of_two, schema, value};
use ssa_json::value::Json;
use ssa_schema::body_fault::BodyFault;
use ssa_schema::schema::Schema;
use std::alloc::{AllocError, Global};
use std::test::Fail;

// Puts words behind a text, with a blank before each.
fn push_words(text: &mut String, words: &[String]) -> Result<(), AllocError> {
    for word in words {
        text.push_str(" ")?;
        text.push_str(word.as_str())?;
    }
    Ok(())
}

// A fault's name and its path, or that there is none.
fn told(alloc: Global, fault: Option<&BodyFault>) -> Result<String, Fail> {
    let (name, path) = match fault {
        None => return Ok(String::from_str(alloc, "fits")?),
        Some(BodyFault::UnknownField(path)) => ("UnknownField", path),
        Some(BodyFault::WrongType(path)) => ("WrongType", path),
        Some(BodyFault::MissingKey(path)) => ("MissingKey", path),
        Some(BodyFault::DuplicateItem(path)) => ("DuplicateItem", path),
    };
    let mut text = String::from_str(alloc, name)?;
    push_words(&mut text, path)?;
    Ok(text)
}

// What is told of a value under a schema.
fn fault_of(alloc: Global, schema: &Schema, body: &Json) -> Result<String, Fail> {
    let fault = schema.first_fault(alloc, body)?;
    told(alloc, fault.as_ref())
}

/// The same of their texts.
pub fn fault_under(alloc: Global, schema_text: &str, body: &str) -> Result<String, Fail> {
    let body = value(alloc, body)?;
    let schema = schema(alloc, schema_text)?;
    fault_of(alloc, &schema, &body)
}

/// What is told of a value of the field `spec` of the sample.
pub fn fault_of_spec(alloc: Global, spec: &str) -> Result<String, Fail> {
    let body = [r#"{"spec":"#, spec, "}"].concat(alloc)?;
    fault_under(alloc, SPEC, &body)
}

const SPECS: [(&str, &str); 45] = [
    (r#"{"image":"a","replicas":3}"#, "fits"),
    (r#"{"image":1,"zzz":1}"#, "WrongType f:spec f:image"),
    (r#"{"aaa":1,"image":1}"#, "UnknownField f:spec f:aaa"),
    (r#"{"size":1}"#, "UnknownField f:spec f:size"),
    (r#"{"replicas":"3"}"#, "WrongType f:spec f:replicas"),
    (r#"{"env":{"a":"x","b":1}}"#, "WrongType f:spec f:env f:b"),
    (r#"{"env":[]}"#, "WrongType f:spec f:env"),
    ("1", "WrongType f:spec"),
    (r#"{"hosts":["x","y"]}"#, "fits"),
    (
        r#"{"hosts":["x","x"]}"#,
        r#"DuplicateItem f:spec f:hosts v:"x""#,
    ),
    // Few items, and one more.
    (r#"{"hosts":["x"]}"#, "fits"),
    (r#"{"hosts":["x","y","z"]}"#, "fits"),
    (
        r#"{"hosts":["x","y","x"]}"#,
        r#"DuplicateItem f:spec f:hosts v:"x""#,
    ),
    (r#"{"hosts":["w","x","y","z"]}"#, "fits"),
    (
        r#"{"hosts":["x","y","y","x"]}"#,
        r#"DuplicateItem f:spec f:hosts v:"y""#,
    ),
    (r#"{"hosts":["v","w","x","y","z"]}"#, "fits"),
    (
        r#"{"hosts":["x","y","z","y","x"]}"#,
        r#"DuplicateItem f:spec f:hosts v:"y""#,
    ),
    (
        r#"{"hosts":["x","w","v","u","t","s","r","q","p","o","n","m","l","k","j","i","h","g","f","e","d","m","x"]}"#,
        r#"DuplicateItem f:spec f:hosts v:"m""#,
    ),
    // Different texts of one length that end in the same eight bytes.
    (r#"{"hosts":["b-12345678","a-12345678"]}"#, "fits"),
    (
        r#"{"hosts":["b-12345678","a-12345678","b-12345678","a-12345678"]}"#,
        r#"DuplicateItem f:spec f:hosts v:"b-12345678""#,
    ),
    (
        r#"{"hosts":["x","x",1]}"#,
        r#"DuplicateItem f:spec f:hosts v:"x""#,
    ),
    (r#"{"hosts":["x",1,"x"]}"#, "WrongType f:spec f:hosts"),
    (r#"{"hosts":["x",1]}"#, "WrongType f:spec f:hosts"),
    (r#"{"hosts":{}}"#, "WrongType f:spec f:hosts"),
    (r#"{"ports":[{"name":"a","port":1},{"name":"b"}]}"#, "fits"),
    (
        r#"{"ports":[{"name":"a","port":"x"},{"name":"a"}]}"#,
        r#"WrongType f:spec f:ports k:{"name":"a"} f:port"#,
    ),
    (
        r#"{"ports":[{"name":"a","port":1},{"name":"a"}]}"#,
        r#"DuplicateItem f:spec f:ports k:{"name":"a"}"#,
    ),
    (
        r#"{"ports":[{"name":"a"},{"name":"b"},{"name":"b"}]}"#,
        r#"DuplicateItem f:spec f:ports k:{"name":"b"}"#,
    ),
    (
        r#"{"ports":[{"name":"a"},{"name":"b"},{"name":"c"},{"name":"d"},{"name":"a"}]}"#,
        r#"DuplicateItem f:spec f:ports k:{"name":"a"}"#,
    ),
    (
        r#"{"ports":[{"name":"a"},{"name":"b"},{"name":"c"},{"name":"d"},{"name":"e"}]}"#,
        "fits",
    ),
    (r#"{"ports":[{"port":1}]}"#, "MissingKey f:spec f:ports"),
    (r#"{"ports":[{"name":1}]}"#, "WrongType f:spec f:ports"),
    (r#"{"ports":[1]}"#, "WrongType f:spec f:ports"),
    (
        r#"{"routes":[{"name":"x","port":1,"zzz":1}]}"#,
        r#"UnknownField f:spec f:routes k:{"name":"x","port":1} f:zzz"#,
    ),
    (
        r#"{"routes":[{"name":"x","port":1},{"name":"x","port":2}]}"#,
        "fits",
    ),
    (
        r#"{"routes":[{"name":"x","port":-1},{"name":"x","port":1}]}"#,
        "fits",
    ),
    (
        r#"{"routes":[{"name":"x","port":1},{"name":"x","port":2},{"name":"y","port":1}]}"#,
        "fits",
    ),
    (
        r#"{"routes":[{"name":"x","port":1},{"name":"y","port":1},{"name":"x","port":1}]}"#,
        r#"DuplicateItem f:spec f:routes k:{"name":"x","port":1}"#,
    ),
    (
        r#"{"routes":[{"name":"x","port":1},{"name":"x","port":2},{"name":"y","port":1},{"name":"y","port":2}]}"#,
        "fits",
    ),
    (
        r#"{"routes":[{"name":"x","port":2},{"name":"y","port":1},{"name":"x","port":1},{"name":"y","port":1}]}"#,
        r#"DuplicateItem f:spec f:routes k:{"name":"y","port":1}"#,
    ),
    (r#"{"limits":{"cpu":2}}"#, "fits"),
    (r#"{"limits":{"cpu":"2"}}"#, "WrongType f:spec f:limits"),
    (r#"{"args":["a","a"]}"#, "fits"),
    (r#"{"args":["a",1]}"#, "WrongType f:spec f:args"),
    (r#"{"args":"a"}"#, "WrongType f:spec f:args"),
];

// An atomic record with one field.
const ATOMIC: &str =
    r#"{"properties":{"p":{"properties":{"a":{"type":"string"}},"type":"object","x-kubernetes-map-type":"atomic"}},"type":"object"}"#;

// No fields but those of every object.
const PLAIN: &str = r#"{"type":"object"}"#;

const OTHERS: [(&str, &str, &str); 3] = [
    (ATOMIC, r#"{"p":{"b":1}}"#, "UnknownField f:p"),
    (PLAIN, r#"{"metadata":{"labels":{"a":"b"}}}"#, "fits"),
    (
        PLAIN,
        r#"{"metadata":{"name":"a"}}"#,
        "UnknownField f:metadata f:name",
    ),
];

#[test]
fn first_faults_are_told(rt: HostRuntime) -> Result<(), Fail> {
    are_told(rt.alloc(), &Question::FaultOfSpec, &SPECS)?;
    are_told_of_two(rt.alloc(), &QuestionOfTwo::Fault, &OTHERS)
}
