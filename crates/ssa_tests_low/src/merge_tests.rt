//! Tests of bodies beside others, and beside sets of paths.
use crate::questions::{Question, QuestionOfTwo};
use crate::samples::PLACES;
use crate::support::{are_told, are_told_of_two, bodies, body, listed, set, shown, truth};
use ssa_path::field_set::FieldSet;
use ssa_typed::body::Body;
use ssa_typed::compare::Comparison;
use std::alloc::Global;
use std::test::Fail;

// A live body and a configuration, and the one with the other over it: with items of both, of the live body alone and of the
// configuration alone, in one order and in others; items of a map list laid each over its own live item, wherever it then
// stands; fields and entries; and an atomic list.
const OVER: [(&str, &str, &str); 13] = [
    (r#"{"s":[2,1]}"#, r#"{"s":[3,2]}"#, r#"{"s":[2,1,3]}"#),
    (r#"{"s":[1,2]}"#, r#"{"s":[2,1]}"#, r#"{"s":[2,1]}"#),
    (
        r#"{"s":[1,2,3,4]}"#,
        r#"{"s":[4,9,1]}"#,
        r#"{"s":[4,2,3,1,9]}"#,
    ),
    (r#"{"s":[1,2]}"#, r#"{"s":[3,1,2]}"#, r#"{"s":[1,2,3]}"#),
    (
        r#"{"s":[5,1,6,2,7,3]}"#,
        r#"{"s":[8,3,2,9,1]}"#,
        r#"{"s":[5,3,6,2,7,1,8,9]}"#,
    ),
    (
        r#"{"s":[11,4,7,2,9,1,3,12,5,8,6,10]}"#,
        r#"{"s":[11,7,0,2,1,3,8,12,6,10]}"#,
        r#"{"s":[11,4,7,2,9,1,3,8,5,12,6,10,0]}"#,
    ),
    (
        r#"{"s":[11,4,7,2,9,1,3,12,5,8,6,10]}"#,
        r#"{"s":[10,6,8,12,3,1,2,7,11,0]}"#,
        r#"{"s":[10,4,6,8,9,12,3,1,5,2,7,11,0]}"#,
    ),
    (
        r#"{"l":[{"n":2,"t":1},{"n":1}]}"#,
        r#"{"l":[{"n":3},{"n":2,"t":3}]}"#,
        r#"{"l":[{"n":2,"t":3},{"n":1},{"n":3}]}"#,
    ),
    (
        r#"{"l":[{"n":1,"t":1},{"n":2,"t":1},{"n":3,"t":1}]}"#,
        r#"{"l":[{"n":8,"t":2},{"n":3,"t":3},{"n":5,"t":2},{"n":1,"t":3}]}"#,
        r#"{"l":[{"n":3,"t":3},{"n":2,"t":1},{"n":1,"t":3},{"n":8,"t":2},{"n":5,"t":2}]}"#,
    ),
    (
        r#"{"l":[{"n":1,"t":1},{"n":2,"t":2},{"n":3}]}"#,
        r#"{"l":[{"n":3},{"n":1}]}"#,
        r#"{"l":[{"n":3},{"n":2,"t":2},{"n":1,"t":1}]}"#,
    ),
    (
        r#"{"l":[{"n":1,"t":1},{"n":2}]}"#,
        r#"{"l":[{"n":1,"t":2},{"n":2}]}"#,
        r#"{"l":[{"n":1,"t":2},{"n":2}]}"#,
    ),
    (
        r#"{"a":1,"d":{"x":1,"z":1}}"#,
        r#"{"a":2,"d":{"w":2,"z":3},"r":{"x":3}}"#,
        r#"{"a":2,"d":{"w":2,"x":1,"z":3},"r":{"x":3}}"#,
    ),
    (r#"{"v":[1,2]}"#, r#"{"v":[3]}"#, r#"{"v":[3]}"#),
];

/// What is asked of a live body and a configuration.
pub enum AskedOver {
    /// What the one with the other over it is.
    Shown,
    /// Whether the configuration is told to repeat what is there, in whatever order its items stand.
    Repeats,
}

// Whether the configuration is told to repeat what is there.
fn told_repeats(alloc: Global, live: &Body, config: &Body) -> Result<String, Fail> {
    let told = live.compare_part(alloc, config)?;
    truth(alloc, told.repeats)
}

/// The answer of their texts.
pub fn told_over(
    alloc: Global,
    asked: &AskedOver,
    live: &str,
    config: &str,
) -> Result<String, Fail> {
    let (live, config) = bodies(alloc, PLACES, live, config)?;
    match asked {
        AskedOver::Shown => shown(alloc, &live.over(alloc, config)?),
        AskedOver::Repeats => told_repeats(alloc, &live, &config),
    }
}

// A live body and a configuration, and whether it is told to repeat what is there, in whatever order its items stand.
const REPEATS: [(&str, &str, &str); 12] = [
    (
        r#"{"a":1,"d":{"x":1},"l":[{"n":2,"t":1},{"n":1}],"s":[2,1],"v":[1,2]}"#,
        r#"{"a":1,"d":{"x":1},"l":[{"n":2,"t":1},{"n":1}],"s":[2,1],"v":[1,2]}"#,
        "true",
    ),
    (
        r#"{"a":1,"d":{"x":1,"z":1},"l":[{"n":2,"t":1},{"n":1}],"r":{"x":1},"s":[2,1]}"#,
        r#"{"d":{"z":1},"l":[{"n":1}],"r":{},"s":[1]}"#,
        "true",
    ),
    (r#"{"s":[3,2,1]}"#, r#"{"s":[1,3,2]}"#, "true"),
    (
        r#"{"l":[{"n":2,"t":1},{"n":1}]}"#,
        r#"{"l":[{"n":1},{"n":2,"t":1}]}"#,
        "true",
    ),
    (r#"{"a":1}"#, r#"{"a":2}"#, "false"),
    (r#"{"d":{"x":1,"z":1}}"#, r#"{"d":{"x":2,"z":1}}"#, "false"),
    (
        r#"{"l":[{"n":2,"t":1},{"n":1}]}"#,
        r#"{"l":[{"n":2,"t":2}]}"#,
        "false",
    ),
    (r#"{"s":[2,1]}"#, r#"{"s":[2,1,3]}"#, "false"),
    (r#"{"s":[2,1]}"#, r#"{"s":[0,1,2]}"#, "false"),
    (r#"{"a":1}"#, r#"{"a":1,"r":{"x":1}}"#, "false"),
    (r#"{"l":[{"n":1}]}"#, r#"{"l":[{"n":1,"t":1}]}"#, "false"),
    (r#"{"v":[1,2]}"#, r#"{"v":[2,1]}"#, "false"),
];

// A body and one that comes after it, and the paths added, modified and removed. The last five differ between items that are
// the same: in one, in two whose order falls, in items on both sides of them, in an item less, and in the order alone.
const COMPARED: [(&str, &str, &str); 10] = [
    (
        r#"{"a":1,"e":{"x":{}},"l":[{"n":2},{"n":1}],"s":[9,10]}"#,
        r#"{"a":3,"e":{},"l":[{"n":3},{"n":2}],"s":[9,10]}"#,
        r#"f:l/k:{"n":3} f:l/k:{"n":3}/f:n | f:a | f:e/f:x f:l/k:{"n":1} f:l/k:{"n":1}/f:n"#,
    ),
    (
        r#"{"l":[{"n":2},{"n":1}],"s":[9,10]}"#,
        r#"{"l":[{"n":1},{"n":2}],"s":[10,9]}"#,
        " |  | ",
    ),
    (r#"{"v":[]}"#, r#"{"v":[1]}"#, " | f:v | "),
    (r#"{"v":[1]}"#, r#"{"v":[1]}"#, " |  | "),
    (
        r#"{"e":{"x":{"x":1}}}"#,
        "{}",
        " |  | f:e f:e/f:x f:e/f:x/f:x",
    ),
    (
        r#"{"l":[{"n":3},{"n":1,"t":1},{"n":2}],"s":[3,1,2]}"#,
        r#"{"l":[{"n":3},{"n":1,"t":2},{"n":2}],"s":[3,1,2]}"#,
        r#" | f:l/k:{"n":1}/f:t | "#,
    ),
    (
        r#"{"l":[{"n":4,"t":1},{"n":3},{"n":2},{"n":1,"t":1},{"n":5}]}"#,
        r#"{"l":[{"n":4,"t":2},{"n":3},{"n":2},{"n":1},{"n":5}]}"#,
        r#" | f:l/k:{"n":4}/f:t | f:l/k:{"n":1}/f:t"#,
    ),
    (
        r#"{"s":[5,1,2]}"#,
        r#"{"s":[7,5,1,2,6]}"#,
        "f:s/v:6 f:s/v:7 |  | ",
    ),
    (r#"{"s":[5,1,2]}"#, r#"{"s":[5,2]}"#, " |  | f:s/v:1"),
    (
        r#"{"l":[{"n":1,"t":1},{"n":2},{"n":3},{"n":4}]}"#,
        r#"{"l":[{"n":1,"t":1},{"n":3},{"n":2},{"n":4}]}"#,
        " |  | ",
    ),
];

// The paths that differ.
fn told(alloc: Global, differing: &Comparison) -> Result<String, Fail> {
    let added = listed(alloc, &differing.added)?;
    let modified = listed(alloc, &differing.modified)?;
    let removed = listed(alloc, &differing.removed)?;
    Ok([added.as_str(), modified.as_str(), removed.as_str()].join(alloc, " | ")?)
}

// How the second body differs from the first.
fn compared(alloc: Global, before: &Body, after: &Body) -> Result<String, Fail> {
    told(alloc, &before.compare(alloc, after)?)
}

// A body and a part that is put over it, the paths that it adds and modifies, how many places are new, and whether it repeats
// what is there: with fewer fields and entries and its items in another order, with another leaf, with new items, with a new
// entry, with another atomic value, with an item, between two that are the same, that has a field less or another leaf, and
// with whole branches, of which each place is new, beside a record that both have.
const PARTS: [(&str, &str, &str); 9] = [
    (
        r#"{"a":1,"d":{"x":1,"z":1},"l":[{"n":2,"t":1},{"n":1}],"r":{"x":1},"s":[3,2,1]}"#,
        r#"{"d":{"z":1},"l":[{"n":1},{"n":2}],"r":{},"s":[1,3]}"#,
        " |  | 0 | true",
    ),
    (
        r#"{"a":1,"l":[{"n":2,"t":1},{"n":1}]}"#,
        r#"{"l":[{"n":2,"t":3}]}"#,
        r#" | f:l/k:{"n":2}/f:t | 0 | false"#,
    ),
    (
        r#"{"a":1,"l":[{"n":2},{"n":1}]}"#,
        r#"{"l":[{"n":3},{"n":2}]}"#,
        r#"f:l/k:{"n":3} f:l/k:{"n":3}/f:n |  | 2 | false"#,
    ),
    (
        r#"{"a":1,"s":[2,1]}"#,
        r#"{"s":[3,2]}"#,
        "f:s/v:3 |  | 1 | false",
    ),
    (
        r#"{"a":1,"d":{"x":1}}"#,
        r#"{"a":2,"d":{"z":1}}"#,
        "f:d/f:z | f:a | 1 | false",
    ),
    (r#"{"v":[1,2]}"#, r#"{"v":[2,1]}"#, " | f:v | 0 | false"),
    (
        r#"{"l":[{"n":3},{"n":1,"t":1},{"n":2}]}"#,
        r#"{"l":[{"n":3},{"n":1},{"n":2}]}"#,
        " |  | 0 | true",
    ),
    (
        r#"{"l":[{"n":3},{"n":1,"t":1},{"n":2}]}"#,
        r#"{"l":[{"n":3},{"n":1,"t":2},{"n":2}]}"#,
        r#" | f:l/k:{"n":1}/f:t | 0 | false"#,
    ),
    (
        r#"{"a":1,"r":{}}"#,
        r#"{"d":{"x":1,"z":2},"e":{"x":{"x":1}},"r":{"x":1},"s":[1,2],"v":[1,2]}"#,
        "f:d/f:x f:d/f:z f:e/f:x f:e/f:x/f:x f:r/f:x f:s/v:1 f:s/v:2 f:v |  | 11 | false",
    ),
];

// A count.
fn number(alloc: Global, count: usize) -> Result<String, Fail> {
    Ok(format!(in alloc; "{count}")?)
}

// How a part that is put over a body differs from it.
fn compared_part(alloc: Global, body: &Body, part: &Body) -> Result<String, Fail> {
    let differing = body.compare_part(alloc, part)?;
    let added = listed(alloc, &differing.added)?;
    let modified = listed(alloc, &differing.modified)?;
    let places = number(alloc, differing.new_places)?;
    let repeats = truth(alloc, differing.repeats)?;
    let told = [
        added.as_str(),
        modified.as_str(),
        places.as_str(),
        repeats.as_str(),
    ];
    Ok(told.join(alloc, " | ")?)
}

// The body that is set beside paths.
const SAMPLE: &str = r#"{"a":1,"d":{"x":1,"z":2},"l":[{"n":2,"t":1},{"n":1}],"s":[2,1,3]}"#;

const LACKING: [(&str, &str); 2] = [
    ("", ""),
    (
        r#"/ f:a f:a/f:b f:d/f:x f:d/f:y f:l/k:{"n":1}/f:n f:l/k:{"n":1}/f:t f:l/k:{"n":3} f:l/k:{"n":3}/f:n f:q/f:r f:s/v:1 f:s/v:4"#,
        r#"f:a/f:b f:d/f:y f:l/k:{"n":1}/f:t f:l/k:{"n":3} f:l/k:{"n":3}/f:n f:q/f:r f:s/v:4"#,
    ),
];

// The paths at which a body has nothing.
fn lacking(alloc: Global, body: &Body, paths: &FieldSet) -> Result<String, Fail> {
    listed(alloc, &body.lacking(alloc, paths)?)
}

/// The paths at which the sample has nothing.
pub fn lacking_of(alloc: Global, paths: &str) -> Result<String, Fail> {
    let paths = set(alloc, paths)?;
    lacking(alloc, &body(alloc, PLACES, SAMPLE)?, &paths)
}

// Those of its points at which a body has nothing.
fn lacking_points(alloc: Global, body: &Body) -> Result<String, Fail> {
    lacking(alloc, body, &body.points(alloc)?)
}

/// The same of the body of a value.
pub fn lacking_points_of(alloc: Global, text: &str) -> Result<String, Fail> {
    lacking_points(alloc, &body(alloc, PLACES, text)?)
}

#[test]
fn lacking_paths_are_told(rt: HostRuntime) -> Result<(), Fail> {
    are_told(rt.alloc(), &Question::Lacking, &LACKING)?;
    are_told(rt.alloc(), &Question::LackingPoints, &[(SAMPLE, "")])
}

// Two bodies, and whether they are one: the same, in another order, with another leaf, with an item less, an empty record
// and none, and two that have nothing.
const SAME: [(&str, &str, &str); 6] = [
    (SAMPLE, SAMPLE, "true"),
    (r#"{"s":[2,1]}"#, r#"{"s":[1,2]}"#, "false"),
    (r#"{"a":1,"v":[1]}"#, r#"{"a":1,"v":[2]}"#, "false"),
    (r#"{"l":[{"n":1},{"n":2}]}"#, r#"{"l":[{"n":1}]}"#, "false"),
    (r#"{"d":{}}"#, "{}", "false"),
    ("{}", "{}", "true"),
];

// A live body and a configuration, and whether the items that both have stand in one order in each list: the same items; fewer
// and new ones among them; those of both exchanged, in a set, in a map list and between new ones; nothing but new ones; many
// items with some left out, and the same with two exchanged; and other fields and leaves, or none, alone.
const ORDERS: [(&str, &str, &str); 15] = [
    (SAMPLE, SAMPLE, "true"),
    (r#"{"s":[5,3,4,1]}"#, r#"{"s":[3,1]}"#, "true"),
    (r#"{"s":[5,3,4,1]}"#, r#"{"s":[7,5,8,4,9]}"#, "true"),
    (r#"{"s":[2,1]}"#, r#"{"s":[1,2]}"#, "false"),
    (r#"{"s":[5,3,4,1]}"#, r#"{"s":[5,4,3]}"#, "false"),
    (r#"{"s":[5,3,4,1]}"#, r#"{"s":[7,1,8,5,9]}"#, "false"),
    (
        r#"{"l":[{"n":1},{"n":2},{"n":3}]}"#,
        r#"{"l":[{"n":3},{"n":1}]}"#,
        "false",
    ),
    (
        r#"{"l":[{"n":1},{"n":2},{"n":3}]}"#,
        r#"{"l":[{"n":1,"t":5},{"n":4},{"n":3}]}"#,
        "true",
    ),
    (r#"{"s":[2,1]}"#, r#"{"s":[4,3]}"#, "true"),
    (r#"{"s":[2,1]}"#, r#"{"s":[]}"#, "true"),
    (
        r#"{"s":[11,4,7,2,9,1,3,12,5,8,6,10]}"#,
        r#"{"s":[11,7,0,2,1,3,12,8,6,10]}"#,
        "true",
    ),
    (
        r#"{"s":[11,4,7,2,9,1,3,12,5,8,6,10]}"#,
        r#"{"s":[11,7,0,2,1,3,8,12,6,10]}"#,
        "false",
    ),
    (
        r#"{"a":1,"d":{"x":1,"z":1},"v":[1,2]}"#,
        r#"{"a":2,"d":{"w":1,"z":2},"v":[2,1]}"#,
        "true",
    ),
    (r#"{"s":[2,1]}"#, r#"{"l":[{"n":1}]}"#, "true"),
    ("{}", r#"{"s":[2,1]}"#, "true"),
];

/// What is asked of a body beside another.
pub enum AskedBeside {
    /// The paths that the other adds, modifies and removes.
    Compared,
    /// The paths that the other, a part that is put over the body, adds and modifies, how many places are new, and whether it
    /// repeats what is there.
    Part,
    /// Whether the two are one.
    Same,
    /// Whether the items that both have stand in one order in each list.
    InOneOrder,
}

// The answer of two bodies.
fn told_beside(
    alloc: Global,
    asked: &AskedBeside,
    own: &Body,
    other: &Body,
) -> Result<String, Fail> {
    match asked {
        AskedBeside::Compared => compared(alloc, own, other),
        AskedBeside::Part => compared_part(alloc, own, other),
        AskedBeside::Same => truth(alloc, own.is_same(other)),
        AskedBeside::InOneOrder => truth(alloc, own.keeps_order(alloc, other)?),
    }
}

/// The answer of their texts.
pub fn beside(alloc: Global, asked: &AskedBeside, own: &str, other: &str) -> Result<String, Fail> {
    let (own, other) = bodies(alloc, PLACES, own, other)?;
    told_beside(alloc, asked, &own, &other)
}

#[test]
fn bodies_are_merged_and_compared(rt: HostRuntime) -> Result<(), Fail> {
    are_told_of_two(rt.alloc(), &QuestionOfTwo::Over(AskedOver::Shown), &OVER)?;
    are_told_of_two(
        rt.alloc(),
        &QuestionOfTwo::Over(AskedOver::Repeats),
        &REPEATS,
    )?;
    are_told_of_two(
        rt.alloc(),
        &QuestionOfTwo::Bodies(AskedBeside::Compared),
        &COMPARED,
    )?;
    are_told_of_two(
        rt.alloc(),
        &QuestionOfTwo::Bodies(AskedBeside::Part),
        &PARTS,
    )?;
    are_told_of_two(rt.alloc(), &QuestionOfTwo::Bodies(AskedBeside::Same), &SAME)
}

#[test]
fn orders_are_compared(rt: HostRuntime) -> Result<(), Fail> {
    are_told_of_two(
        rt.alloc(),
        &QuestionOfTwo::Bodies(AskedBeside::InOneOrder),
        &ORDERS,
    )
}
