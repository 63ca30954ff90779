//! Tests of sets of paths as FieldsV1.
use crate::questions::Question;
use crate::support::{are_told, listed, printed, value};
use ssa_path::element_fault::ElemFault;
use ssa_path::field_set::FieldSet;
use ssa_path::fields_back::canonical_is_read;
use std::alloc::Global;
use std::test::Fail;

/// What is asked of FieldsV1.
pub enum Asked {
    /// The paths that it says.
    Paths,
    /// The name of its fault.
    Fault,
}

/// The answer to a question of FieldsV1.
pub fn answer(alloc: Global, asked: &Asked, text: &str) -> Result<String, Fail> {
    match asked {
        Asked::Paths => said(alloc, text),
        Asked::Fault => fault_name(alloc, text),
    }
}

// FieldsV1, and the paths that it says.
const SAID: [(&str, &str); 7] = [
    ("{}", ""),
    (r#"{".":{}}"#, "/"),
    (r#"{"f:a":{"f:b":{}}}"#, "f:a/f:b"),
    (
        r#"{"f:spec":{".":{},"f:replicas":{}}}"#,
        "f:spec f:spec/f:replicas",
    ),
    (
        r#"{"k:{\"name\":\"a\"}":{".":{},"f:name":{}}}"#,
        r#"k:{"name":"a"} k:{"name":"a"}/f:name"#,
    ),
    (
        r#"{".":{},"f:spec":{".":{},"f:ports":{"k:{\"port\":80}":{".":{},"f:name":{},"f:port":{}}},"f:replicas":{}},"f:status":{},"v:10":{},"v:9":{}}"#,
        r#"/ f:spec f:spec/f:ports/k:{"port":80} f:spec/f:ports/k:{"port":80}/f:name f:spec/f:ports/k:{"port":80}/f:port f:spec/f:replicas f:status v:10 v:9"#,
    ),
    (
        r#"{"f:a":{},"f:b":{},"f:c":{},"f:d":{},"f:e":{},"f:f":{},"f:g":{},"f:h":{},"f:i":{},"f:j":{},"f:k":{},"f:l":{},"f:m":{}}"#,
        "f:a f:b f:c f:d f:e f:f f:g f:h f:i f:j f:k f:l f:m",
    ),
];

// Whether a set is written as this FieldsV1, as a value and straight into a text.
fn is_written(alloc: Global, set: &FieldSet, text: &str) -> Result<bool, Fail> {
    let mut written = Vec::new(alloc);
    set.root().push_fields_v1(alloc, &mut written)?;
    let value = printed(alloc, &set.to_fields_v1(alloc)?)?;
    Ok(written.as_slice() == text.as_bytes() && value.as_str() == text)
}

// The paths of a set that is written as this FieldsV1.
fn paths_said(alloc: Global, set: &FieldSet, text: &str) -> Result<String, Fail> {
    set.own_fields_are_read();
    match is_written(alloc, set, text)? {
        true => listed(alloc, set),
        false => Err(Fail::new("written as another text")),
    }
}

// The paths that FieldsV1 says, where the set is written as it was read.
fn said(alloc: Global, text: &str) -> Result<String, Fail> {
    let set = FieldSet::from_fields_v1(alloc, &value(alloc, text)?)?;
    paths_said(alloc, &set, text)
}

#[test]
fn sets_are_read_and_written_back(rt: HostRuntime) -> Result<(), Fail> {
    are_told(rt.alloc(), &Question::Fields(Asked::Paths), &SAID)
}

const REFUSED: [(&str, &str); 8] = [
    ("[]", "BadElement"),
    (r#"{"q":{}}"#, "BadElement"),
    (r#"{"v:1.5":{}}"#, "BadElement"),
    (r#"{".":{"f:a":{}}}"#, "BadElement"),
    (r#"{"f:a":1}"#, "BadElement"),
    (r#"{"i:0":{}}"#, "IndexElement"),
    (r#"{"v: 1":{}}"#, "NotCanonical"),
    (r#"{"f:a":{".":{}}}"#, "NotCanonical"),
];

// The name of the fault of a value as FieldsV1.
fn fault_name(alloc: Global, text: &str) -> Result<String, Fail> {
    let told = match FieldSet::from_fields_v1(alloc, &value(alloc, text)?) {
        Ok(_) => "read",
        Err(ElemFault::BadElement) => "BadElement",
        Err(ElemFault::IndexElement) => "IndexElement",
        Err(ElemFault::NotCanonical) => "NotCanonical",
        Err(ElemFault::OutOfMemory) => "OutOfMemory",
    };
    Ok(String::from_str(alloc, told)?)
}

#[test]
fn other_values_are_refused(rt: HostRuntime) -> Result<(), Fail> {
    canonical_is_read();
    are_told(rt.alloc(), &Question::Fields(Asked::Fault), &REFUSED)
}
