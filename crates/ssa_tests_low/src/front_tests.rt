//! The examples on the crates' first pages, as `tools/fronts` finds them there.
use crate::journal_tests::Counter;
use crate::support::{schema, value};
use ssa_json::{Json, Moment};
use ssa_members::{Members, Name};
use ssa_path::{Elem, FieldSet, Path};
use ssa_reverse::Journal;
use ssa_schema::{BodyFault, Schema};
use ssa_typed::Body;
use std::test::Fail;

#[test]
fn ssa_members_example(rt: HostRuntime) -> Result<(), Fail> {
    let mut members = Members::new(rt.alloc());
    for (name, count) in [("b", 1), ("a", 2), ("b", 3)] {
        members.insert(Name::from_str(rt.alloc(), name)?, count)?;
    }
    assert_eq!(rt; members.len(), 2);
    assert_eq!(rt; members.get("b"), Some(&3));
    assert_eq!(rt; members.entries()[0].0.as_str(), "a");
    assert_eq!(rt; members.remove("a"), Some(2));
    Ok(())
}

#[test]
fn ssa_json_example(rt: HostRuntime) -> Result<(), Fail> {
    let text = r#"{"b": [1, true], "a": "x"}"#;
    let value = Json::read(rt.alloc(), text.as_bytes(), text.len())?;
    assert_eq!(rt;
        value.to_string(rt.alloc())?.as_str(),
        r#"{"a":"x","b":[1,true]}"#
    );
    assert!(rt; Json::read(rt.alloc(), b"1.5", 3).is_err());
    assert!(rt; Moment::read("2023-02-29T00:00:00Z").is_err());
    Ok(())
}

#[test]
fn ssa_path_example(rt: HostRuntime) -> Result<(), Fail> {
    let elements = [
        Elem::read(rt.alloc(), "f:ports")?,
        Elem::read(rt.alloc(), r#"k:{"name":"web"}"#)?,
    ];
    let path = Path::new(Vec::from_array(rt.alloc(), elements)?);
    let mut set = FieldSet::new(rt.alloc());
    set.insert(rt.alloc(), &path)?;
    assert!(rt; set.has(&path));
    let fields = set.to_fields_v1(rt.alloc())?.to_string(rt.alloc())?;
    assert_eq!(rt;
        fields.as_str(),
        r#"{"f:ports":{"k:{\"name\":\"web\"}":{}}}"#
    );
    Ok(())
}

#[test]
fn ssa_schema_example(rt: HostRuntime) -> Result<(), Fail> {
    let text = r#"{"properties":{"n":{"type":"integer"}},"type":"object"}"#;
    let schema = Schema::read(rt.alloc(), value(rt.alloc(), text)?)?;
    let body = value(rt.alloc(), r#"{"n":"one"}"#)?;
    let fault = schema.first_fault(rt.alloc(), &body)?;
    assert!(rt; matches!(fault, Some(BodyFault::WrongType(_))));
    Ok(())
}

#[test]
fn ssa_typed_example(rt: HostRuntime) -> Result<(), Fail> {
    let text =
        r#"{"properties":{"s":{"items":{"type":"integer"},"type":"array","x-kubernetes-list-type":"set"}},"type":"object"}"#;
    let schema = schema(rt.alloc(), text)?;
    let live = Body::from_json(rt.alloc(), &schema, value(rt.alloc(), r#"{"s":[2,1]}"#)?)?;
    let config = Body::from_json(rt.alloc(), &schema, value(rt.alloc(), r#"{"s":[3,2]}"#)?)?;
    let merged = live.over(rt.alloc(), config)?.to_json(rt.alloc())?;
    assert_eq!(rt; merged.to_string(rt.alloc())?.as_str(), r#"{"s":[2,1,3]}"#);
    Ok(())
}

#[test]
fn ssa_reverse_example(rt: HostRuntime) -> Result<(), Fail> {
    let mut counter = Counter { count: 1 };
    let mut journal = Journal::<Counter, &str>::new(rt.alloc());
    let entry = Box::new(rt.alloc(), (2, "set to two"))?;
    journal.record(&mut counter, entry)?;
    assert!(rt; journal.undo(&mut counter)?);
    assert_eq!(rt; counter.count, 1);
    assert!(rt; journal.redo(&mut counter)?);
    assert_eq!(rt; counter.count, 2);
    Ok(())
}
