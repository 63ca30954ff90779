//! Tests of the parts of an object: of sets of paths, and of bodies.
use crate::support::{body, listed, set, shown};
use ssa_path::part::Part;
use std::alloc::Global;
use std::test::Fail;

// A set, its paths of all but `status`, and those of `status`.
const SETS: [(&str, &str, &str); 6] = [
    (
        "f:spec/f:a f:status f:status/f:b",
        "f:spec/f:a",
        "f:status f:status/f:b",
    ),
    ("/ f:status/f:a", "/", "f:status/f:a"),
    ("f:a f:b/f:status", "f:a f:b/f:status", ""),
    (
        "f:stat f:status f:statuses",
        "f:stat f:statuses",
        "f:status",
    ),
    ("f:status", "", "f:status"),
    ("", "", ""),
];

// Fails where the set has other paths of the part, or others outside it.
fn is_parted(
    alloc: Global,
    text: &str,
    part: Part,
    wanted: &str,
    wanted_outside: &str,
) -> Result<(), Fail> {
    let mut paths = set(alloc, text)?;
    let outside = listed(alloc, &paths.outside(alloc, part)?)?;
    paths.keep_part(part);
    let kept = listed(alloc, &paths)?;
    if kept.as_str() != wanted || outside.as_str() != wanted_outside {
        return Err(Fail::new(format_args!("of {text}: {kept} and {outside}")));
    }
    Ok(())
}

// Fails at the first set that is parted otherwise.
fn are_parted(alloc: Global, cases: &[(&str, &str, &str)]) -> Result<(), Fail> {
    for (text, main, status) in cases {
        is_parted(alloc, text, Part::Main, main, status)?;
        is_parted(alloc, text, Part::Status, status, main)?;
    }
    Ok(())
}

#[test]
fn sets_have_two_parts(rt: HostRuntime) -> Result<(), Fail> {
    are_parted(rt.alloc(), &SETS)
}

// A schema with fields before and behind `status`, which has a set of numbers.
const PARTS: &str = r#"{"type":"object","properties":{
    "a":{"type":"integer"},
    "status":{"type":"object","properties":{
        "r":{"type":"integer"},
        "s":{"type":"array","items":{"type":"integer"},"x-kubernetes-list-type":"set"}}},
    "z":{"type":"integer"}
}}"#;

// An object, what it has but `status`, and its `status` alone.
const KEPT: [(&str, &str, &str); 5] = [
    (
        r#"{"a":1,"status":{"r":1,"s":[2,1]},"z":2}"#,
        r#"{"a":1,"z":2}"#,
        r#"{"status":{"r":1,"s":[2,1]}}"#,
    ),
    (r#"{"a":1}"#, r#"{"a":1}"#, "{}"),
    (r#"{"status":{"r":1}}"#, "{}", r#"{"status":{"r":1}}"#),
    (r#"{"status":{},"z":1}"#, r#"{"z":1}"#, r#"{"status":{}}"#),
    ("{}", "{}", "{}"),
];

// Fails where the object's part is another.
fn is_kept(alloc: Global, text: &str, part: Part, wanted: &str) -> Result<(), Fail> {
    let object = body(alloc, PARTS, text)?.into_part(part);
    let kept = shown(alloc, &object)?;
    if kept.as_str() != wanted {
        return Err(Fail::new(format_args!("of {text}: {kept}")));
    }
    Ok(())
}

// Fails at the first object with another part.
fn are_kept(alloc: Global, cases: &[(&str, &str, &str)]) -> Result<(), Fail> {
    for (text, main, status) in cases {
        is_kept(alloc, text, Part::Main, main)?;
        is_kept(alloc, text, Part::Status, status)?;
    }
    Ok(())
}

#[test]
fn objects_have_two_parts(rt: HostRuntime) -> Result<(), Fail> {
    are_kept(rt.alloc(), &KEPT)
}

// An object, the live one, and what they make where the first counts but for `status`, and where its `status` alone does.
const SPLICED: [(&str, &str, &str, &str); 6] = [
    (
        r#"{"a":1,"status":{"r":1}}"#,
        r#"{"status":{"r":2,"s":[2,1]},"z":3}"#,
        r#"{"a":1,"status":{"r":2,"s":[2,1]}}"#,
        r#"{"status":{"r":1},"z":3}"#,
    ),
    (
        r#"{"a":1,"z":1}"#,
        r#"{"a":2,"status":{"r":2}}"#,
        r#"{"a":1,"status":{"r":2},"z":1}"#,
        r#"{"a":2}"#,
    ),
    (
        r#"{"status":{"s":[1,2]}}"#,
        r#"{"a":2,"z":2}"#,
        "{}",
        r#"{"a":2,"status":{"s":[1,2]},"z":2}"#,
    ),
    (
        r#"{"z":1}"#,
        r#"{"status":{"s":[3,1,2]}}"#,
        r#"{"status":{"s":[3,1,2]},"z":1}"#,
        "{}",
    ),
    (r#"{"a":1}"#, r#"{"a":2}"#, r#"{"a":1}"#, r#"{"a":2}"#),
    ("{}", "{}", "{}", "{}"),
];

// Fails where the object in the part and the live one outside it make another.
fn is_spliced(alloc: Global, text: &str, live: &str, part: Part, wanted: &str) -> Result<(), Fail> {
    let object = body(alloc, PARTS, text)?;
    let live_object = body(alloc, PARTS, live)?;
    let made = shown(alloc, &object.splice(alloc, &live_object, part)?)?;
    if made.as_str() != wanted {
        return Err(Fail::new(format_args!("of {text} and {live}: {made}")));
    }
    Ok(())
}

// Fails at the first two objects that make another.
fn are_spliced(alloc: Global, cases: &[(&str, &str, &str, &str)]) -> Result<(), Fail> {
    for (text, live, main, status) in cases {
        is_spliced(alloc, text, live, Part::Main, main)?;
        is_spliced(alloc, text, live, Part::Status, status)?;
    }
    Ok(())
}

#[test]
fn objects_are_put_together_of_two_parts(rt: HostRuntime) -> Result<(), Fail> {
    are_spliced(rt.alloc(), &SPLICED)
}
