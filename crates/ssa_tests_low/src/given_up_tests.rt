//! Tests of what a live body loses where a configuration is put over it and paths are given up.
ghost use Rattle.std.specs.Prelude.{◌≡◌, IfOk};
ghost use Rattle.ssa_model.specs.definitions.Body.{removed};
ghost use Rattle.ssa_model.specs.definitions.Valid.{metadata_path};
ghost use Rattle.ssa_typed.specs.Alike.{AreAlike};
ghost use Rattle.ssa_typed.specs.LostWith.{left_with, AreFree};

use crate::questions::QuestionOfTwo;
use crate::samples::PLACES;
use crate::support::{are_told_of_two, bodies, listed, look_at, set, shown};
use ssa_members::SmallText;
use ssa_path::element::Elem;
use ssa_path::field_set::FieldSet;
use ssa_path::path::Path;
use ssa_typed::body::Body;
use std::alloc::Global;
use std::test::Fail;

// The live body.
const LIVE: &str =
    r#"{"a":1,"d":{"x":1,"z":2},"e":{"x":{"x":1}},"l":[{"n":2,"t":1},{"n":1}],"r":{"x":1},"s":[10,9,8,7,6,5,4,3,2,1]}"#;

// A configuration that is put over the live body, the paths that are given up and those that are held, the paths that the
// live body loses, and what is left.
struct Case {
    config: &'static str,
    gone: &'static str,
    held: &'static str,
    lost: &'static str,
    left: &'static str,
}

// The path of `metadata`.
fn metadata(alloc: Global) -> Result<Path, Fail>
    ensures { IfOk result (λ p. p ≡ metadata_path) }
{
    let mut elements = Vec::new(alloc);
    elements.push(Elem::Field(SmallText::from_str(alloc, "metadata")?))?;
    Ok(Path::new(elements))
}

// The paths that a live body loses where a configuration is put over it. The configuration has none of those that are given
// up, and nothing at or below them is held.
fn lost_of(
    alloc: Global,
    live: &Body,
    config: &Body,
    gone: &FieldSet,
    held: &FieldSet,
) -> Result<FieldSet, Fail>
    requires { AreAlike live.now config.now }
    ensures free { IfOk result (λ s. AreFree config.now gone.now held.now) }
    ensures lost { IfOk result (λ s. s ≡ removed live.now (left_with live.now config.now gone.now held.now)) }
{
    let unheld = gone.without_over(alloc, held)?;
    let free = config.lacking(alloc, &unheld)?;
    if !free.is_same(gone) {
        return Err(Fail::new("a path given up is held or configured"));
    }
    Ok(live.lost_with(alloc, config, gone, held)?)
}

// The configuration over the live body, without what the live body loses. Neither has `metadata`, so each part of both is
// rooted.
fn left_of(
    alloc: Global,
    live: &Body,
    config: Body,
    gone: &FieldSet,
    held: &FieldSet,
) -> Result<Body, Fail>
    requires { AreAlike live.now config }
{
    let lost = lost_of(alloc, live, &config, gone, held)?;
    let _live = live.root();
    let _config = config.root();
    let merged = live.over(alloc, config)?;
    if merged.get(&metadata(alloc)?).is_some() {
        return Err(Fail::new("a sample has metadata"));
    }
    merged.stands_rooted();
    Ok(merged.without(alloc, &lost)?)
}

// The paths that the live body loses.
fn lost(alloc: Global, case: &Case) -> Result<String, Fail> {
    let (live, config) = bodies(alloc, PLACES, LIVE, case.config)?;
    let gone = set(alloc, case.gone)?;
    let held = set(alloc, case.held)?;
    listed(alloc, &lost_of(alloc, &live, &config, &gone, &held)?)
}

// What is left of it.
fn left(alloc: Global, case: &Case) -> Result<Body, Fail> {
    let (live, config) = bodies(alloc, PLACES, LIVE, case.config)?;
    let gone = set(alloc, case.gone)?;
    let held = set(alloc, case.held)?;
    left_of(alloc, &live, config, &gone, &held)
}

// Fails where other paths are lost than the wanted ones, or something else is left.
fn is_told(alloc: Global, case: &Case) -> Result<(), Fail> {
    let told = lost(alloc, case)?;
    if told.as_str() != case.lost {
        return Err(Fail::new(format_args!("at {}: {told} is lost", case.gone)));
    }
    let rest = shown(alloc, &left(alloc, case)?)?;
    if rest.as_str() != case.left {
        return Err(Fail::new(format_args!("at {}: {rest} is left", case.gone)));
    }
    Ok(())
}

// Nothing; of each sort of place a part, with two that are not there; all of a Dict, a list and a set; and most items of a set.
const ALONE: [Case; 4] = [
    Case {
        config: "{}",
        gone: "",
        held: "",
        lost: "",
        left: LIVE,
    },
    Case {
        config: "{}",
        gone: r#"f:a f:d/f:x f:d/f:y f:l/k:{"n":1} f:q f:s/v:1"#,
        held: "",
        lost: r#"f:a f:d/f:x f:l/k:{"n":1} f:l/k:{"n":1}/f:n f:s/v:1"#,
        left: r#"{"d":{"z":2},"e":{"x":{"x":1}},"l":[{"n":2,"t":1}],"r":{"x":1},"s":[10,9,8,7,6,5,4,3,2]}"#,
    },
    Case {
        config: "{}",
        gone: "f:d f:l f:s",
        held: "",
        lost: r#"f:d f:d/f:x f:d/f:z f:l f:l/k:{"n":1} f:l/k:{"n":1}/f:n f:l/k:{"n":2} f:l/k:{"n":2}/f:n f:l/k:{"n":2}/f:t f:s f:s/v:1 f:s/v:10 f:s/v:2 f:s/v:3 f:s/v:4 f:s/v:5 f:s/v:6 f:s/v:7 f:s/v:8 f:s/v:9"#,
        left: r#"{"a":1,"e":{"x":{"x":1}},"r":{"x":1}}"#,
    },
    Case {
        config: "{}",
        gone: "f:s/v:1 f:s/v:10 f:s/v:2 f:s/v:3 f:s/v:4 f:s/v:5 f:s/v:6 f:s/v:8 f:s/v:9",
        held: "",
        lost: "f:s/v:1 f:s/v:10 f:s/v:2 f:s/v:3 f:s/v:4 f:s/v:5 f:s/v:6 f:s/v:8 f:s/v:9",
        left: r#"{"a":1,"d":{"x":1,"z":2},"e":{"x":{"x":1}},"l":[{"n":2,"t":1},{"n":1}],"r":{"x":1},"s":[7]}"#,
    },
];

// All that is below a record, a Dict and a list, which go too; the same of those that are held, and of those that the
// configuration has; all that is below an entry and an item, which stay; and an entry, with which its Dict goes.
const EMPTIED: [Case; 6] = [
    Case {
        config: "{}",
        gone: r#"f:d/f:x f:d/f:z f:l/k:{"n":1} f:l/k:{"n":2} f:r/f:x"#,
        held: "",
        lost: r#"f:d f:d/f:x f:d/f:z f:l f:l/k:{"n":1} f:l/k:{"n":1}/f:n f:l/k:{"n":2} f:l/k:{"n":2}/f:n f:l/k:{"n":2}/f:t f:r f:r/f:x"#,
        left: r#"{"a":1,"e":{"x":{"x":1}},"s":[10,9,8,7,6,5,4,3,2,1]}"#,
    },
    Case {
        config: "{}",
        gone: r#"f:d/f:x f:d/f:z f:l/k:{"n":1} f:l/k:{"n":2} f:r/f:x"#,
        held: "f:d f:l f:r",
        lost: r#"f:d/f:x f:d/f:z f:l/k:{"n":1} f:l/k:{"n":1}/f:n f:l/k:{"n":2} f:l/k:{"n":2}/f:n f:l/k:{"n":2}/f:t f:r/f:x"#,
        left: r#"{"a":1,"d":{},"e":{"x":{"x":1}},"l":[],"r":{},"s":[10,9,8,7,6,5,4,3,2,1]}"#,
    },
    Case {
        config: r#"{"d":{},"l":[],"r":{}}"#,
        gone: r#"f:d/f:x f:d/f:z f:l/k:{"n":1} f:l/k:{"n":2} f:r/f:x"#,
        held: "",
        lost: r#"f:d/f:x f:d/f:z f:l/k:{"n":1} f:l/k:{"n":1}/f:n f:l/k:{"n":2} f:l/k:{"n":2}/f:n f:l/k:{"n":2}/f:t f:r/f:x"#,
        left: r#"{"a":1,"d":{},"e":{"x":{"x":1}},"l":[],"r":{},"s":[10,9,8,7,6,5,4,3,2,1]}"#,
    },
    Case {
        config: "{}",
        gone: "f:e/f:x/f:x",
        held: "",
        lost: "f:e/f:x/f:x",
        left: r#"{"a":1,"d":{"x":1,"z":2},"e":{"x":{}},"l":[{"n":2,"t":1},{"n":1}],"r":{"x":1},"s":[10,9,8,7,6,5,4,3,2,1]}"#,
    },
    Case {
        config: "{}",
        gone: r#"f:l/k:{"n":1}/f:n f:l/k:{"n":2}/f:n f:l/k:{"n":2}/f:t"#,
        held: "",
        lost: r#"f:l/k:{"n":1}/f:n f:l/k:{"n":2}/f:n f:l/k:{"n":2}/f:t"#,
        left: r#"{"a":1,"d":{"x":1,"z":2},"e":{"x":{"x":1}},"l":[{},{}],"r":{"x":1},"s":[10,9,8,7,6,5,4,3,2,1]}"#,
    },
    Case {
        config: "{}",
        gone: "f:e/f:x",
        held: "",
        lost: "f:e f:e/f:x f:e/f:x/f:x",
        left: r#"{"a":1,"d":{"x":1,"z":2},"l":[{"n":2,"t":1},{"n":1}],"r":{"x":1},"s":[10,9,8,7,6,5,4,3,2,1]}"#,
    },
];

// A configuration with other values and a new item, of which nothing is given up; one that has an item of which a field is
// given up beside another item; and one with a new entry beside one that is given up.
const WITH_CONFIGURATION: [Case; 3] = [
    Case {
        config: r#"{"a":2,"r":{},"s":[11]}"#,
        gone: "",
        held: "",
        lost: "",
        left: r#"{"a":2,"d":{"x":1,"z":2},"e":{"x":{"x":1}},"l":[{"n":2,"t":1},{"n":1}],"r":{"x":1},"s":[10,9,8,7,6,5,4,3,2,1,11]}"#,
    },
    Case {
        config: r#"{"l":[{"n":2}]}"#,
        gone: r#"f:l/k:{"n":1} f:l/k:{"n":2}/f:t"#,
        held: "",
        lost: r#"f:l/k:{"n":1} f:l/k:{"n":1}/f:n f:l/k:{"n":2}/f:t"#,
        left: r#"{"a":1,"d":{"x":1,"z":2},"e":{"x":{"x":1}},"l":[{"n":2}],"r":{"x":1},"s":[10,9,8,7,6,5,4,3,2,1]}"#,
    },
    Case {
        config: r#"{"e":{"y":{"x":2}}}"#,
        gone: "f:e/f:x",
        held: "",
        lost: "f:e/f:x f:e/f:x/f:x",
        left: r#"{"a":1,"d":{"x":1,"z":2},"e":{"y":{"x":2}},"l":[{"n":2,"t":1},{"n":1}],"r":{"x":1},"s":[10,9,8,7,6,5,4,3,2,1]}"#,
    },
];

// Fails at the first case of which something else is told.
fn are_told(alloc: Global, cases: &[Case]) -> Result<(), Fail> {
    for case in cases {
        is_told(alloc, case)?;
    }
    Ok(())
}

#[test]
fn what_is_given_up_goes_from_the_body(rt: HostRuntime) -> Result<(), Fail> {
    are_told(rt.alloc(), &ALONE)?;
    are_told(rt.alloc(), &EMPTIED)?;
    are_told(rt.alloc(), &WITH_CONFIGURATION)
}

/// What stands at a place of the live body, of which paths are given up while `f:d`, `f:l`, `f:r` and `f:s` are held.
pub fn sort_left(alloc: Global, gone: &str, place: &str) -> Result<String, Fail> {
    let (live, config) = bodies(alloc, PLACES, LIVE, "{}")?;
    let gone = set(alloc, gone)?;
    let held = set(alloc, "f:d f:l f:r f:s")?;
    look_at(alloc, &left_of(alloc, &live, config, &gone, &held)?, place)
}

// Of each sort of place all that is below it, and a part.
const ALL_BELOW: &str =
    r#"f:d/f:x f:d/f:z f:e/f:x/f:x f:l/k:{"n":1} f:l/k:{"n":2}/f:n f:l/k:{"n":2}/f:t f:r/f:x f:s/v:1 f:s/v:10 f:s/v:2 f:s/v:3 f:s/v:4 f:s/v:5 f:s/v:6 f:s/v:7 f:s/v:8 f:s/v:9"#;

const SOME_BELOW: &str = "f:a f:d/f:x f:s/v:1";

const SORTS: [(&str, &str, &str); 11] = [
    (ALL_BELOW, "/", "record 6"),
    (ALL_BELOW, "f:d", "Dict 0"),
    (ALL_BELOW, "f:e", "Dict 1"),
    (ALL_BELOW, "f:e/f:x", "record 0"),
    (ALL_BELOW, "f:l", "list 1"),
    (ALL_BELOW, r#"f:l/k:{"n":2}"#, "record 0"),
    (ALL_BELOW, "f:r", "record 0"),
    (ALL_BELOW, "f:s", "list 0"),
    (SOME_BELOW, "/", "record 5"),
    (SOME_BELOW, "f:d", "Dict 1"),
    (SOME_BELOW, "f:s", "list 9"),
];

#[test]
fn what_is_left_is_of_its_sort(rt: HostRuntime) -> Result<(), Fail> {
    are_told_of_two(rt.alloc(), &QuestionOfTwo::SortLeft, &SORTS)
}
