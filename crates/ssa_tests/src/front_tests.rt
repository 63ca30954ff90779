//! The examples on the first pages of the crates below, as `tools/fronts` finds them there.
use crate::bodies::{bodies, body, state};
use ssa_answers::{Asked, command_of};
use ssa_bench::{Bench, Command};
use ssa_file::{RecordFormat, record_counts};
use ssa_json::OfReader;
use ssa_lines::read_line::read_line;
use ssa_lines::{Line, LineEnd};
use ssa_merge::{Managers, is_manager_name};
use ssa_object::body_value::body_value;
use ssa_object::has_identity;
use ssa_path::part::Part;
use ssa_path::{Elem, FieldSet, Path};
use ssa_record::RecordAnswer;
use ssa_record::read_record::read_record;
use ssa_samples::sample::{IMAGE, json, moment, schema, web};
use ssa_told::line_values::line_values;
use ssa_turn::Label;
use ssa_turn_body::steps_between;
use ssa_turn_set::{between, turn_field_set};
use std::test::Fail;

#[test]
fn ssa_lines_example(rt: HostRuntime) -> Result<(), Fail> {
    let mut reader = OfReader::new(b"ab\ncd".as_slice());
    let mut line = Line::new(rt.alloc());
    let end = read_line(rt.alloc(), &mut reader, &mut line, 2);
    assert_eq!(rt; end, Ok(LineEnd::LineFeed));
    assert!(rt; matches!(line, Line::Kept(_)));
    let end = read_line(rt.alloc(), &mut reader, &mut line, 1);
    assert_eq!(rt; end, Ok(LineEnd::EndOfInput));
    assert!(rt; matches!(line, Line::TooLong));
    Ok(())
}

#[test]
fn ssa_turn_set_example(rt: HostRuntime) -> Result<(), Fail> {
    let path = Path::new(Vec::from_array(rt.alloc(), [Elem::read(rt.alloc(), "f:spec")?])?);
    let mut set = FieldSet::new(rt.alloc());
    let mut wanted = FieldSet::new(rt.alloc());
    wanted.insert(rt.alloc(), &path)?;
    let mut delta = between(rt.alloc(), &set, &wanted)?;
    turn_field_set(&mut set, &mut delta);
    assert!(rt; set.has(&path));
    turn_field_set(&mut set, &mut delta);
    assert!(rt; set.is_empty());
    Ok(())
}

#[test]
fn ssa_turn_body_example(rt: HostRuntime) -> Result<(), Fail> {
    let (before, after) = bodies(
        rt.alloc(),
        r#"{"spec":{"replicas":3}}"#,
        r#"{"spec":{"replicas":5}}"#,
    )?;
    let steps = steps_between(rt.alloc(), &before, after)?;
    let leaves = steps.leaves_to_json(rt.alloc())?.to_string(rt.alloc())?;
    assert_eq!(rt; leaves.as_str(), r#"[[["f:spec","f:replicas"],5]]"#);
    Ok(())
}

#[test]
fn ssa_merge_example(rt: HostRuntime) -> Result<(), Fail> {
    let text =
        r#"[{"apiVersion":"v1","fieldsType":"FieldsV1","fieldsV1":{"f:spec":{"f:image":{}}},"manager":"kubectl","operation":"Apply","time":"2024-05-01T10:00:01Z"}]"#;
    let entries = json(rt.alloc(), text)?;
    let body = body(rt.alloc(), r#"{"spec":{"image":"a"}}"#)?;
    let managers = Managers::from_entries(rt.alloc(), &entries, &body, "v1")?;
    assert_eq!(rt; managers.len(), 1);
    assert!(rt; managers.to_entries(rt.alloc(), "v1")?.same(&entries));
    assert!(rt; !is_manager_name("two\nlines"));
    Ok(())
}

#[test]
fn ssa_object_example(rt: HostRuntime) -> Result<(), Fail> {
    let object = json(rt.alloc(), web(rt.alloc(), "", IMAGE)?.as_str())?;
    assert!(rt; has_identity(&object));
    let body = body_value(object).to_string(rt.alloc())?;
    assert_eq!(rt; body.as_str(), r#"{"metadata":{},"spec":{"image":"a"}}"#);
    Ok(())
}

#[test]
fn ssa_turn_example(rt: HostRuntime) -> Result<(), Fail> {
    let value = json(
        rt.alloc(),
        r#"{"at":"2024-05-01T10:00:01Z","do":"update","manager":"u"}"#,
    )?;
    let label = Label::from_json(rt.alloc(), &value)?;
    assert!(rt; matches!(label, Some(Label::Update { .. })));
    Ok(())
}

#[test]
fn ssa_told_example(rt: HostRuntime) -> Result<(), Fail> {
    let line = json(rt.alloc(), r#"{"command":{"do":"strip"},"record":{}}"#)?;
    let command = line_values(&line).map(|values| values.command);
    assert_eq!(rt;
        command
            .and_then(|value| value.member("do"))
            .and_then(|word| word.as_text()),
        Some("strip")
    );
    Ok(())
}

#[test]
fn ssa_record_example(rt: HostRuntime) -> Result<(), Fail> {
    let text =
        r#"{"changed":[],"cut":[],"gone":[],"here":[],"leaves":[[["f:spec","f:replicas"],5]],"order":[],"put":[]}"#;
    let record = json(rt.alloc(), text)?;
    let schema = schema(rt.alloc())?;
    let mut state = state(rt.alloc(), &schema, r#"{"spec":{"replicas":3}}"#)?;
    let answer = read_record(rt.alloc(), &schema, "v1", &mut state, &record);
    assert!(rt; matches!(answer, Ok(RecordAnswer::Fits(_))));
    Ok(())
}

#[test]
fn ssa_file_example(rt: HostRuntime) -> Result<(), Fail> {
    let head = json(rt.alloc(), r#"{"depth":10,"format":4,"future":0,"past":1}"#)?;
    let counts = record_counts(rt.alloc(), &head)?.ok_or("no head")?;
    assert_eq!(rt; counts.format, RecordFormat::Depths);
    assert_eq!(rt; counts.depth.number(), 10);
    assert_eq!(rt; (counts.past, counts.future), (1, 0));
    Ok(())
}

#[test]
fn ssa_answers_example(rt: HostRuntime) -> Result<(), Fail> {
    let asked = Asked::Owners {
        path: r#"["f:spec"]"#,
    };
    assert!(rt; command_of(rt.alloc(), asked).is_ok());
    let asked = Asked::Owners {
        path: r#"["spec"]"#,
    };
    assert!(rt; command_of(rt.alloc(), asked).is_err());
    Ok(())
}

#[test]
fn ssa_bench_example(rt: HostRuntime) -> Result<(), Fail> {
    let who = String::from_str(rt.alloc(), "kubectl")?;
    let at = moment()?;
    let with_image = json(rt.alloc(), web(rt.alloc(), "", IMAGE)?.as_str())?;
    let object = json(rt.alloc(), web(rt.alloc(), "", "")?.as_str())?;
    let mut bench = Bench::new(rt.alloc(), schema(rt.alloc())?, object)?;
    let command = Command::Apply {
        who,
        part: Part::Main,
        force: false,
        at,
        object: with_image,
    };
    let added = bench.execute(rt.alloc(), command).map(|it| it.added.len());
    assert_eq!(rt; added.ok(), Some(1));
    assert!(rt; bench.undo().is_ok());
    assert!(rt; bench.undo().is_err());
    Ok(())
}
