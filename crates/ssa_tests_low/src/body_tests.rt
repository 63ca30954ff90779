//! Tests of bodies: of values, their places and their points.
use crate::questions::Question;
use crate::samples::{PLACES, SPEC};
use crate::support::{
    are_told, body, listed, look_at, path, printed, schema, set, shown, truth, value,
};
use ssa_path::field_set::FieldSet;
use ssa_path::path::Path;
use ssa_schema::body_fault::BodyFault;
use ssa_schema::schema::Schema;
use ssa_typed::body::Body;
use ssa_typed::fault::TypedFault;
use std::alloc::Global;
use std::test::Fail;

/// What is asked of a body that is there.
pub enum AskedOfBody {
    /// What stands at a place.
    Look,
    /// The value of a place.
    Part,
    /// The points.
    Points,
    /// How many places there are.
    Size,
}

// The answer of a body and of a place's text.
fn told_of_body(
    alloc: Global,
    asked: &AskedOfBody,
    body: &Body,
    place: &str,
) -> Result<String, Fail> {
    match asked {
        AskedOfBody::Look => look_at(alloc, body, place),
        AskedOfBody::Part => part_of(alloc, body, &path(alloc, place)?),
        AskedOfBody::Points => listed(alloc, &body.points(alloc)?),
        AskedOfBody::Size => size_of(alloc, body),
    }
}

// The answer of the body of a value, of which no place is asked.
fn told_of_value(alloc: Global, asked: &AskedOfBody, text: &str) -> Result<String, Fail> {
    told_of_body(alloc, asked, &body(alloc, PLACES, text)?, "/")
}

// The answer of a place of the sample.
fn told_of_sample(alloc: Global, asked: &AskedOfBody, place: &str) -> Result<String, Fail> {
    told_of_body(alloc, asked, &body(alloc, PLACES, SAMPLE)?, place)
}

/// What is asked of bodies.
pub enum Asked {
    /// The value of the copy of a value's body under the sample schema.
    Shown,
    /// What is told of a place of the sample.
    Sample(AskedOfBody),
    /// What is told of a value's body.
    Value(AskedOfBody),
    /// Whether the sample's points, with the text's paths turned in them, are told to be its own.
    Known,
    /// A body without its tree, with it again, and another body with it.
    Moved,
    /// Whether a value has a body, or why not.
    Read,
    /// The same of an object whose set has as many numbers as the text says.
    ReadNumbers,
}

/// The answer to a question of bodies.
pub fn answer(alloc: Global, asked: &Asked, text: &str) -> Result<String, Fail> {
    match asked {
        Asked::Shown => shown_again(alloc, text),
        Asked::Sample(of_body) => told_of_sample(alloc, of_body, text),
        Asked::Value(of_body) => told_of_value(alloc, of_body, text),
        Asked::Known => known(alloc, text),
        Asked::Moved => moved(alloc, text),
        Asked::Read => told(alloc, text),
        Asked::ReadNumbers => told(alloc, &numbers(alloc, text.parse::<i64>()?)?),
    }
}

// Values, and the values of their bodies.
const VALUES: [(&str, &str); 7] = [
    ("{}", "{}"),
    (r#"{"metadata":{}}"#, "{}"),
    (
        r#"{"metadata":{"labels":{}},"spec":{}}"#,
        r#"{"metadata":{"labels":{}},"spec":{}}"#,
    ),
    (
        r#"{"metadata":{"annotations":{"a":"b"},"finalizers":["y","x"],"labels":{"c":"d"}}}"#,
        r#"{"metadata":{"annotations":{"a":"b"},"finalizers":["y","x"],"labels":{"c":"d"}}}"#,
    ),
    (
        r#"{"spec":{"replicas":3,"paused":false,"image":"i","hosts":["y","x"],"env":{"b":"","a":"x"}}}"#,
        r#"{"spec":{"env":{"a":"x","b":""},"hosts":["y","x"],"image":"i","paused":false,"replicas":3}}"#,
    ),
    (
        r#"{"spec":{"args":["b","a","b"],"limits":{"cpu":2},"ports":[{"name":"b","port":2},{"name":"a"}],"routes":[]}}"#,
        r#"{"spec":{"args":["b","a","b"],"limits":{"cpu":2},"ports":[{"name":"b","port":2},{"name":"a"}],"routes":[]}}"#,
    ),
    (
        r#"{"metadata":{"labels":{"a":"1","abcdefg":"7","a234567890123456789012345678901234567890123456789012345678901234567890123456789012345678901234567890123456789012345678901234567b":"128"}}}"#,
        r#"{"metadata":{"labels":{"a":"1","a234567890123456789012345678901234567890123456789012345678901234567890123456789012345678901234567890123456789012345678901234567b":"128","abcdefg":"7"}}}"#,
    ),
];

// The value of the copy of a body.
fn shown_copy(alloc: Global, body: &Body) -> Result<String, Fail> {
    shown(alloc, &body.clone(alloc)?)
}

// The value of the copy of a value's body.
fn shown_again(alloc: Global, text: &str) -> Result<String, Fail> {
    let body = body(alloc, SPEC, text)?;
    body.points_tell_places();
    body.points_keep_all();
    shown_copy(alloc, &body)
}

// Something of every kind.
const SAMPLE: &str =
    r#"{"a":1,"d":{"z":2,"x":1},"e":{"x":{}},"l":[{"n":2,"t":1},{"n":1}],"s":[9,10],"v":[1]}"#;

const LOOKS: [(&str, &str); 9] = [
    ("/", "record 6"),
    ("f:a", "leaf 0"),
    ("f:d", "Dict 2"),
    ("f:e/f:x", "record 0"),
    ("f:l", "list 2"),
    ("f:s/v:10", "leaf 0"),
    ("f:v", "leaf 0"),
    ("f:l/v:9", "nothing 0"),
    ("f:a/f:a", "nothing 0"),
];

const PARTS: [(&str, &str); 6] = [
    ("f:a", "1"),
    ("f:d", r#"{"x":1,"z":2}"#),
    (r#"f:l/k:{"n":2}"#, r#"{"n":2,"t":1}"#),
    ("f:s", "[9,10]"),
    ("f:v", "[1]"),
    ("f:q", "nothing"),
];

// The value of a place.
fn part_of(alloc: Global, body: &Body, place: &Path) -> Result<String, Fail> {
    match body.root().node_at(place.elements()) {
        Some(node) => printed(alloc, &node.to_json(alloc)?),
        None => Ok(String::from_str(alloc, "nothing")?),
    }
}

const SAMPLE_POINTS: &str =
    r#"f:a f:d/f:x f:d/f:z f:e/f:x f:l/k:{"n":1} f:l/k:{"n":1}/f:n f:l/k:{"n":2} f:l/k:{"n":2}/f:n f:l/k:{"n":2}/f:t f:s/v:10 f:s/v:9 f:v"#;

const POINTS: [(&str, &str); 4] = [
    ("{}", ""),
    (SAMPLE, SAMPLE_POINTS),
    (
        r#"{"d":{},"l":[],"r":{},"s":[9,10]}"#,
        "f:d f:l f:r f:s/v:10 f:s/v:9",
    ),
    (r#"{"metadata":{"labels":{}}}"#, "f:metadata/f:labels"),
];

// Puts paths into a set or, where they are there, takes them out.
fn turn(alloc: Global, set: &mut FieldSet, paths: &[Path]) -> Result<(), Fail> {
    for path in paths {
        if !set.remove(path) {
            set.insert(alloc, path)?;
        }
    }
    Ok(())
}

// The same of the paths of another set.
fn turn_all(alloc: Global, set: &mut FieldSet, turned: &FieldSet) -> Result<(), Fail> {
    turn(alloc, set, &turned.paths(alloc)?)
}

// Whether points are told to be those of a body.
fn told_points(alloc: Global, body: &Body, points: &FieldSet) -> Result<String, Fail> {
    truth(alloc, body.has_points(alloc, points)?)
}

// Whether the sample's points, with these paths turned in them, are told to be its own.
fn known_with(alloc: Global, points: &mut FieldSet, turned: &FieldSet) -> Result<String, Fail> {
    turn_all(alloc, points, turned)?;
    told_points(alloc, &body(alloc, PLACES, SAMPLE)?, points)
}

// Whether the sample's points are told to be its own, once these paths were put in or, where they
// were there, taken out.
fn known(alloc: Global, turned: &str) -> Result<String, Fail> {
    let turned = set(alloc, turned)?;
    let mut points = set(alloc, SAMPLE_POINTS)?;
    known_with(alloc, &mut points, &turned)
}

const KNOWN: [(&str, &str); 9] = [
    ("", "true"),
    ("/", "false"),
    ("f:d", "false"),
    ("f:q", "false"),
    (r#"f:l/k:{"n":2}"#, "false"),
    (r#"f:l/k:{"n":2}/f:t"#, "false"),
    (r#"f:l/k:{"n":3}"#, "false"),
    ("f:s/v:10 f:s/v:11", "false"),
    ("f:v/f:v", "false"),
];

// How many places a body has.
fn size_of(alloc: Global, body: &Body) -> Result<String, Fail> {
    let size = body.size();
    Ok(format!(in alloc; "{size}")?)
}

const SIZES: [(&str, &str); 2] = [(SAMPLE, "17"), ("{}", "1")];

const TREES: [(&str, &str); 2] = [("{}", "{} {} {}"), (r#"{"a":1}"#, r#"{} {"a":1} {"a":1}"#)];

// A body without its tree, which then has it again.
fn shown_without_root(alloc: Global, body: &mut Body) -> Result<String, Fail> {
    let root = body.take_root(alloc);
    let left = shown(alloc, body);
    body.set_root(root);
    left
}

// Another body with its tree.
fn shown_moved(alloc: Global, body: &mut Body) -> Result<String, Fail> {
    shown(alloc, &Body::new(body.take_root(alloc)))
}

// A body without its tree, with it again, and another body with it.
fn moved_root(alloc: Global, body: &mut Body) -> Result<String, Fail> {
    let left = shown_without_root(alloc, body)?;
    let again = shown(alloc, body)?;
    let other = shown_moved(alloc, body)?;
    Ok([left.as_str(), again.as_str(), other.as_str()].join(alloc, " ")?)
}

// The same of a value's body.
fn moved(alloc: Global, text: &str) -> Result<String, Fail> {
    let mut body = body(alloc, PLACES, text)?;
    moved_root(alloc, &mut body)
}

// The text of an object whose set has the numbers below this one.
fn numbers(alloc: Global, count: i64) -> Result<String, Fail> {
    let mut text = String::from_str(alloc, r#"{"s":[0"#)?;
    for n in 1..count {
        text.push_str(&format!(in alloc; ",{n}")?)?;
    }
    text.push_str("]}")?;
    Ok(text)
}

// What is told of a body, or of there being none.
fn told_of(read: &Result<Body, TypedFault>) -> &'static str {
    match read {
        Ok(body) if body.size() == 20_001 => "as large as may be",
        Ok(_) => "a body",
        Err(TypedFault::Body(BodyFault::DuplicateItem(_))) => "a repeated item",
        Err(TypedFault::Body(_)) => "another fault",
        Err(TypedFault::TooManyPaths) => "too many paths",
        Err(TypedFault::OutOfMemory) => "out of memory",
    }
}

// What is told of a text's value, which may have no body under a schema.
fn told_under(alloc: Global, schema: &Schema, text: &str) -> Result<String, Fail> {
    let told = told_of(&Body::from_json(alloc, schema, value(alloc, text)?));
    Ok(String::from_str(alloc, told)?)
}

// The same under the schema of the sample.
fn told(alloc: Global, text: &str) -> Result<String, Fail> {
    told_under(alloc, &schema(alloc, PLACES)?, text)
}

const READ: [(&str, &str); 1] = [(r#"{"s":[1,1],"z":1}"#, "a repeated item")];

const READ_NUMBERS: [(&str, &str); 2] = [
    ("19999", "as large as may be"),
    ("20000", "too many paths"),
];

#[test]
fn values_have_bodies(rt: HostRuntime) -> Result<(), Fail> {
    are_told(rt.alloc(), &Question::Body(Asked::Shown), &VALUES)?;
    are_told(rt.alloc(), &Question::Body(Asked::Moved), &TREES)?;
    are_told(rt.alloc(), &Question::Body(Asked::Read), &READ)?;
    are_told(
        rt.alloc(),
        &Question::Body(Asked::ReadNumbers),
        &READ_NUMBERS,
    )
}

#[test]
fn places_and_points_are_told(rt: HostRuntime) -> Result<(), Fail> {
    are_told(
        rt.alloc(),
        &Question::Body(Asked::Sample(AskedOfBody::Look)),
        &LOOKS,
    )?;
    are_told(
        rt.alloc(),
        &Question::Body(Asked::Sample(AskedOfBody::Part)),
        &PARTS,
    )?;
    are_told(
        rt.alloc(),
        &Question::Body(Asked::Value(AskedOfBody::Points)),
        &POINTS,
    )?;
    are_told(rt.alloc(), &Question::Body(Asked::Known), &KNOWN)?;
    are_told(
        rt.alloc(),
        &Question::Body(Asked::Value(AskedOfBody::Size)),
        &SIZES,
    )
}
