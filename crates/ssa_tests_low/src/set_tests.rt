//! Tests of sets of paths by hand: an object with a list of ports, each under its number.
use crate::questions::{Question, QuestionOfTwo};
use crate::support::{are_told, are_told_of_two, listed, path, set, truth};
use ssa_path::field_set::FieldSet;
use ssa_path::parting::part;
use ssa_path::path::Path;
use ssa_path::trie::Trie;
use std::alloc::Global;
use std::test::Fail;

/// What is asked of a set of paths.
pub enum Asked {
    /// What stays of it without fields that are keys.
    Keyless,
    /// The paths of its copy in which one more is put, and its own then.
    Copied,
    /// The paths of the set of the text's path alone.
    Alone,
}

// What stays of a set whose fields that are keys are taken out.
fn keyless(alloc: Global, own: &mut FieldSet) -> Result<String, Fail> {
    own.remove_key_fields();
    listed(alloc, own)
}

/// The answer to a question of a set of paths.
pub fn answer(alloc: Global, asked: &Asked, text: &str) -> Result<String, Fail> {
    match asked {
        Asked::Keyless => keyless(alloc, &mut set(alloc, text)?),
        Asked::Copied => copy_and_own(alloc, &set(alloc, text)?),
        Asked::Alone => alone(alloc, &path(alloc, text)?),
    }
}

/// What is asked of a set beside another.
pub enum AskedBeside {
    /// Its paths that are not over one of the other's.
    WithoutOver,
    /// The same, where the others are taken out of it.
    RemoveOver,
    /// Its paths that are over one of the other's.
    Over,
    /// Whether the two are the same.
    Same,
    /// Whether some path is in both.
    Meets,
    /// What it has alone, and what the other has alone.
    Parted,
}

// The paths that each of two sets has alone.
fn parted(alloc: Global, own: &FieldSet, other: &FieldSet) -> Result<String, Fail> {
    let alone = part(alloc, own.root(), other.root())?;
    let own_alone = listed(alloc, &FieldSet::from_root(alone.own))?;
    let other_alone = listed(alloc, &FieldSet::from_root(alone.other))?;
    Ok([own_alone.as_str(), other_alone.as_str()].join(alloc, " | ")?)
}

// The answer of two sets.
fn told_beside(
    alloc: Global,
    asked: &AskedBeside,
    own: &FieldSet,
    other: &FieldSet,
) -> Result<String, Fail> {
    match asked {
        AskedBeside::WithoutOver => listed(alloc, &own.without_over(alloc, other)?),
        AskedBeside::RemoveOver => {
            let mut left = own.copy(alloc)?;
            left.remove_over(other);
            listed(alloc, &left)
        }
        AskedBeside::Over => listed(alloc, &own.over(alloc, other)?),
        AskedBeside::Same => {
            let told = if own.is_same(other) { "same" } else { "other" };
            Ok(String::from_str(alloc, told)?)
        }
        AskedBeside::Meets => truth(alloc, own.meets(other)),
        AskedBeside::Parted => parted(alloc, own, other),
    }
}

/// The answer of the sets of two texts.
pub fn beside(alloc: Global, asked: &AskedBeside, own: &str, other: &str) -> Result<String, Fail> {
    let own = set(alloc, own)?;
    let other = set(alloc, other)?;
    told_beside(alloc, asked, &own, &other)
}

// The paths of a set, put in from the last to the first.
const OWNED: &str =
    r#"f:status f:spec/f:replicas f:spec/f:ports/k:{"port":80}/f:port f:spec/f:ports/k:{"port":80}/f:name f:spec/f:ports/k:{"port":80} f:spec /"#;

// What stays of a set beside another.
const APART: &str = r#"f:spec/f:ports/k:{"port":80}/f:name f:spec/f:replicas f:status"#;

const WITHOUT_OVER: [(&str, &str, &str); 3] = [
    (OWNED, r#"f:spec/f:ports/k:{"port":80}/f:port"#, APART),
    (
        APART,
        "/ f:spec f:status",
        r#"f:spec/f:ports/k:{"port":80}/f:name f:spec/f:replicas"#,
    ),
    (APART, "", APART),
];

const OVER: [(&str, &str, &str); 3] = [
    (
        OWNED,
        r#"f:spec/f:ports/k:{"port":80}/f:port"#,
        r#"/ f:spec f:spec/f:ports/k:{"port":80} f:spec/f:ports/k:{"port":80}/f:port"#,
    ),
    (APART, "/ f:spec f:status", "f:status"),
    (APART, "", ""),
];

const KEYLESS: [(&str, &str); 5] = [
    (
        OWNED,
        r#"/ f:spec f:spec/f:ports/k:{"port":80} f:spec/f:ports/k:{"port":80}/f:name f:spec/f:replicas f:status"#,
    ),
    (
        r#"f:port f:port/f:protocol k:{"port":80,"protocol":"TCP"}/f:port k:{"port":80,"protocol":"TCP"}/f:port/f:protocol k:{"port":80,"protocol":"TCP"}/f:protocol k:{"port":80,"protocol":"TCP"}/k:{"port":80}/f:port k:{"port":80,"protocol":"TCP"}/k:{"port":80}/f:protocol"#,
        r#"f:port f:port/f:protocol k:{"port":80,"protocol":"TCP"}/f:port/f:protocol k:{"port":80,"protocol":"TCP"}/k:{"port":80}/f:protocol"#,
    ),
    // Nothing is left of an item of which its key field alone is there, nor of what is above it.
    (r#"f:ports/k:{"port":80}/f:port"#, ""),
    (
        r#"f:a f:ports/k:{"port":80}/f:port f:ports/k:{"port":81} f:ports/k:{"port":81}/f:port f:z"#,
        r#"f:a f:ports/k:{"port":81} f:z"#,
    ),
    ("/ v:80/f:port", "/ v:80/f:port"),
];

const SAME: [(&str, &str, &str); 8] = [
    (OWNED, OWNED, "same"),
    ("", "", "same"),
    ("/ f:a f:b", "f:a f:b", "other"),
    ("f:a f:b", "/ f:a f:b", "other"),
    ("f:a", "f:b", "other"),
    ("f:a", "f:a/f:b", "other"),
    ("f:a f:b", "f:a", "other"),
    ("f:a/f:b", "f:a/f:b f:c", "other"),
];

// Whether some path is in both of two sets: a beginning of one is none of a set's paths.
const MEETS: [(&str, &str, &str); 9] = [
    (OWNED, "f:a f:status", "true"),
    (OWNED, r#"f:spec/f:ports/k:{"port":80}/f:name"#, "true"),
    (OWNED, r#"f:spec/f:ports/k:{"port":81}/f:name"#, "false"),
    (OWNED, "f:spec/f:ports f:status/f:phase", "false"),
    ("/ f:a", "/ f:b", "true"),
    ("/ f:a", "f:b", "false"),
    ("f:a f:b/f:c", "f:a/f:c f:b/f:c", "true"),
    ("", "/", "false"),
    ("", "", "false"),
];

// A set that has paths of the first, and others under the same places, beside them and below them.
const GROWN: &str =
    r#"/ f:metadata/f:labels/f:app f:spec f:spec/f:ports/k:{"port":80} f:spec/f:ports/k:{"port":80}/f:name f:spec/f:ports/k:{"port":81}/f:name f:spec/f:replicas/v:1"#;

const PARTED: [(&str, &str, &str); 4] = [
    (
        OWNED,
        GROWN,
        r#"f:spec/f:ports/k:{"port":80}/f:port f:spec/f:replicas f:status | f:metadata/f:labels/f:app f:spec/f:ports/k:{"port":81}/f:name f:spec/f:replicas/v:1"#,
    ),
    (APART, APART, " | "),
    ("", "/ f:a/f:b f:a/f:c f:d", " | / f:a/f:b f:a/f:c f:d"),
    ("/ f:a f:a/f:b f:c", "f:a f:d", "/ f:a/f:b f:c | f:d"),
];

#[test]
fn sets_stand_beside_others(rt: HostRuntime) -> Result<(), Fail> {
    are_told_of_two(
        rt.alloc(),
        &QuestionOfTwo::Sets(AskedBeside::WithoutOver),
        &WITHOUT_OVER,
    )?;
    are_told_of_two(
        rt.alloc(),
        &QuestionOfTwo::Sets(AskedBeside::RemoveOver),
        &WITHOUT_OVER,
    )?;
    are_told_of_two(rt.alloc(), &QuestionOfTwo::Sets(AskedBeside::Over), &OVER)?;
    are_told_of_two(
        rt.alloc(),
        &QuestionOfTwo::Sets(AskedBeside::Parted),
        &PARTED,
    )?;
    are_told_of_two(rt.alloc(), &QuestionOfTwo::Sets(AskedBeside::Same), &SAME)?;
    are_told_of_two(rt.alloc(), &QuestionOfTwo::Sets(AskedBeside::Meets), &MEETS)
}

// The paths of a set in which `f:data` is put too.
fn listed_with_data(alloc: Global, set: &mut FieldSet) -> Result<String, Fail> {
    set.insert(alloc, &path(alloc, "f:data")?)?;
    listed(alloc, set)
}

// The paths of a set's copy in which `f:data` is put too.
fn grown_copy(alloc: Global, own: &FieldSet) -> Result<String, Fail> {
    let mut copy = own.copy(alloc)?;
    listed_with_data(alloc, &mut copy)
}

// The same, and then the paths of the set itself.
fn copy_and_own(alloc: Global, own: &FieldSet) -> Result<String, Fail> {
    let copied = grown_copy(alloc, own)?;
    let kept = listed(alloc, own)?;
    Ok([copied.as_str(), kept.as_str()].join(alloc, " | ")?)
}

const COPIED: [(&str, &str); 1] = [("/ f:a/f:b f:c", "/ f:a/f:b f:c f:data | / f:a/f:b f:c")];

// The paths of the set of one path.
fn alone(alloc: Global, path: &Path) -> Result<String, Fail> {
    listed(
        alloc,
        &FieldSet::from_root(Trie::of_path(alloc, path.elements())?),
    )
}

const ALONE: [(&str, &str); 1] = [("f:a/v:10", "f:a/v:10")];

#[test]
fn sets_are_turned_into_others(rt: HostRuntime) -> Result<(), Fail> {
    are_told(rt.alloc(), &Question::Set(Asked::Keyless), &KEYLESS)?;
    are_told(rt.alloc(), &Question::Set(Asked::Copied), &COPIED)?;
    are_told(rt.alloc(), &Question::Set(Asked::Alone), &ALONE)
}

// What is taken out of a set: the set, a path, whether it was there and what stays.
const TAKEN_OUT: [(&str, &str, &str); 8] = [
    ("/ f:a f:a/f:b f:c", "f:a/f:b", "had: / f:a f:c"),
    ("/ f:a f:a/f:b f:c", "f:a", "had: / f:a/f:b f:c"),
    ("f:a/f:b/f:c f:a/f:d", "f:a/f:b/f:c", "had: f:a/f:d"),
    ("/ f:a/f:b", "f:a", "lacked: / f:a/f:b"),
    ("/ f:a", "f:a/f:b", "lacked: / f:a"),
    ("f:a f:c", "f:b", "lacked: f:a f:c"),
    ("f:a/v:10", "f:a/v:10", "had: "),
    ("/", "/", "had: "),
];

// Takes a path out, and tells whether it was there.
fn take_out(alloc: Global, own: &mut FieldSet, gone: &Path) -> Result<String, Fail> {
    let had = own.remove(gone);
    let left = listed(alloc, own)?;
    let mut text = String::from_str(alloc, if had { "had: " } else { "lacked: " })?;
    text.push_str(left.as_str())?;
    Ok(text)
}

// Whether the set's last path was there, and the set is then as one that never had any.
fn leaves_no_place(alloc: Global, own: &mut FieldSet, last: &Path) -> bool {
    own.remove(last)
        && own.is_empty()
        && own.root().below.is_empty()
        && own.is_same(&FieldSet::new(alloc))
}

const NO_PLACE: [(&str, &str, &str); 2] = [
    ("f:a/f:b/v:10", "f:a/f:b/v:10", "true"),
    ("f:a/f:b/v:10", "f:a/f:b/v:9", "false"),
];

/// What is asked of a path's going from a set.
pub enum AskedWithout {
    /// Whether it was there, and what stays.
    Rest,
    /// Whether it was there and the last, and leaves no place.
    NoPlace,
}

// The answer of a set and a path.
fn told_without(
    alloc: Global,
    asked: &AskedWithout,
    own: &mut FieldSet,
    gone: &Path,
) -> Result<String, Fail> {
    match asked {
        AskedWithout::Rest => take_out(alloc, own, gone),
        AskedWithout::NoPlace => truth(alloc, leaves_no_place(alloc, own, gone)),
    }
}

/// The answer of their texts.
pub fn without(alloc: Global, asked: &AskedWithout, own: &str, gone: &str) -> Result<String, Fail> {
    let gone = path(alloc, gone)?;
    let mut own = set(alloc, own)?;
    told_without(alloc, asked, &mut own, &gone)
}

#[test]
fn paths_taken_out_go_alone_and_leave_no_place(rt: HostRuntime) -> Result<(), Fail> {
    are_told_of_two(
        rt.alloc(),
        &QuestionOfTwo::Going(AskedWithout::Rest),
        &TAKEN_OUT,
    )?;
    are_told_of_two(
        rt.alloc(),
        &QuestionOfTwo::Going(AskedWithout::NoPlace),
        &NO_PLACE,
    )
}
