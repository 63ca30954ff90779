//! Bench files that are taken again, and those that are none.

use crate::commands::apply;
use ssa_answers::change::Command;
use ssa_bench::bench::Bench;
use ssa_lines::loading::LoadFault;
use ssa_samples::bench_files::{bench_file, loaded, saved};
use ssa_samples::breaks::Breaks;
use ssa_samples::sample::bench;
use std::alloc::Global;
use std::test::Fail;

// Why there is no bench of a file, or nothing where there is one.
fn fault_of(alloc: Global, file: &[u8]) -> Option<LoadFault> {
    loaded(alloc, file).err()
}

// The file of the bench of a file.
fn saved_again(alloc: Global, file: &[u8]) -> Result<Vec<u8>, Fail> {
    let bench = loaded(alloc, file)?;
    saved(alloc, &bench)
}

#[test]
fn what_is_loaded_is_saved_again(rt: HostRuntime) -> Result<(), Fail> {
    let file = bench_file(rt.alloc())?;
    let again = saved_again(rt.alloc(), file.as_bytes())?;
    assert!(rt; again.as_slice() == file.as_bytes());
    Ok(())
}

// Members of an object, and others in one place of which alone something changes: a leaf of a record, of
// an item of a list and of a map, more than one leaf, and items that come and move.
const CHANGES: [(&str, &str); 6] = [
    (",\"spec\":{\"image\":\"a\"}", ",\"spec\":{\"image\":\"b\"}"),
    (
        ",\"spec\":{\"ports\":[{\"name\":\"http\",\"port\":80},{\"name\":\"https\",\"port\":443}]}",
        ",\"spec\":{\"ports\":[{\"name\":\"http\",\"port\":80},{\"name\":\"https\",\"port\":444}]}",
    ),
    (
        ",\"spec\":{\"env\":{\"A\":\"1\",\"B\":\"2\"}}",
        ",\"spec\":{\"env\":{\"A\":\"1\",\"B\":\"3\"}}",
    ),
    (
        ",\"spec\":{\"image\":\"a\",\"replicas\":1}",
        ",\"spec\":{\"image\":\"b\",\"replicas\":2}",
    ),
    (
        ",\"spec\":{\"hosts\":[\"a\",\"b\"]}",
        ",\"spec\":{\"hosts\":[\"c\",\"a\",\"b\"]}",
    ),
    (
        ",\"spec\":{\"args\":[\"a\"]}",
        ",\"spec\":{\"args\":[\"a\",\"b\"]}",
    ),
];

// The file of the bench after two commands.
fn file_after(
    alloc: Global,
    bench: &mut Bench,
    before: Command,
    after: Command,
) -> Result<Vec<u8>, Fail> {
    bench.execute(alloc, before)?;
    bench.execute(alloc, after)?;
    saved(alloc, bench)
}

// The file of a bench on which one manager applied an object with these members, and then with others.
fn changed_file(alloc: Global, before: &str, after: &str) -> Result<Vec<u8>, Fail> {
    let before = apply(alloc, before)?;
    let after = apply(alloc, after)?;
    let mut live = bench(alloc)?;
    file_after(alloc, &mut live, before, after)
}

// Whether the bench has this file, and its file after an undo is taken.
fn goes_back(alloc: Global, bench: &mut Bench, file: &[u8]) -> Result<bool, Fail> {
    let same = saved(alloc, bench)?;
    bench.undo()?;
    let undone = saved(alloc, bench)?;
    Ok(same.as_slice() == file && fault_of(alloc, undone.as_slice()).is_none())
}

// Whether the file is taken as a bench with the same file, and that bench's after an undo too.
fn is_taken(alloc: Global, file: &[u8]) -> Result<bool, Fail> {
    match loaded(alloc, file) {
        Ok(mut live) => goes_back(alloc, &mut live, file),
        Err(_) => Ok(false),
    }
}

#[test]
fn what_changes_in_one_place_is_loaded(rt: HostRuntime) -> Result<(), Fail> {
    for (before, after) in &CHANGES {
        let file = changed_file(rt.alloc(), before, after)?;
        assert!(rt; file.starts_with(b"{\"depth\":1000,\"format\":4,\"future\":0,\"past\":2}\n"));
        let taken = is_taken(rt.alloc(), file.as_slice())?;
        assert!(rt; taken, "after {after}");
    }
    Ok(())
}

// Parts of the file, and others in their place, with which it is not the text of a bench.
const DAMAGES: [(&str, &str); 21] = [
    ("\"past\":1", "\"past\":2"),
    ("\"past\":1", "\"past\":0"),
    ("\"past\":1", "\"past\":1001"),
    ("\"format\":4", "\"format\":5"),
    ("\"depth\":1000", "\"depth\":1001"),
    ("\"depth\":1000", "\"depth\":0"),
    ("{\"depth\"", "{ \"depth\""),
    ("\"type\":\"object\"}\n", "\"type\":\"strings\"}\n"),
    ("\"kind\":\"App\"", "\"kind\":\"\""),
    ("\"force\":false,", ""),
    (
        "\"manager\":\"kubectl\"},\"record\"",
        "\"manager\":\"\"},\"record\"",
    ),
    ("\"at\":\"2024-05-01", "\"at\":\"2024-02-30"),
    ("\"f:image\":{}", "\"f:replicas\":{}"),
    ("\"image\":\"a\"", "\"image\":1"),
    ("\"image\":\"a\"", "\"image\":\"\\u0061\""),
    ("\"cut\":[[\"f:spec\"]]", "\"cut\":[[\"v: 1\"]]"),
    ("\"cut\":[[\"f:spec\"]]", "\"cut\":[\"f:spec\"]"),
    ("\"Apply\"]]", "\"Patch\"]]"),
    ("\"here\":[],\"leaves\":[]", "\"leaves\":[],\"here\":[]"),
    (",\"put\":[]", ""),
    ("{\"changed\":[]", "{\"added\":[],\"changed\":[]"),
];

// Places of the file at which a manager may have a subresource, and the same with one.
const SUBRESOURCES: [(&str, &str); 3] = [
    (
        "\"operation\":\"Apply\",\"time\"",
        "\"operation\":\"Apply\",\"subresource\":\"status\",\"time\"",
    ),
    (
        "\"manager\":\"kubectl\"},\"record\"",
        "\"manager\":\"kubectl\",\"subresource\":\"status\"},\"record\"",
    ),
    (
        "[[\"kubectl\",\"Apply\"]]",
        "[[\"kubectl\",\"Apply\",\"status\"]]",
    ),
];

// Others with which a record is none from its state to a valid one.
const MISFITS: [(&str, &str); 11] = [
    ("\"cut\":[[\"f:spec\"]]", "\"cut\":[[\"f:nothing\"]]"),
    ("\"gone\":[[\"kubectl\",\"Apply\"]]", "\"gone\":[]"),
    (
        "\"gone\":[[\"kubectl\",\"Apply\"]]",
        "\"gone\":[[\"kubectl\",\"Update\"]]",
    ),
    (
        "\"gone\":[[\"kubectl\",\"Apply\"]]",
        "\"gone\":[[\"kubectl\",\"Apply\"],[\"m1\",\"Apply\"]]",
    ),
    // the leaf has this content
    (
        "\"cut\":[[\"f:spec\"]],\"gone\":[[\"kubectl\",\"Apply\"]],\"here\":[],\"leaves\":[]",
        "\"cut\":[],\"gone\":[],\"here\":[],\"leaves\":[[[\"f:spec\",\"f:image\"],\"a\"]]",
    ),
    // a content of another type
    (
        "\"cut\":[[\"f:spec\"]],\"gone\":[[\"kubectl\",\"Apply\"]],\"here\":[],\"leaves\":[]",
        "\"cut\":[],\"gone\":[],\"here\":[],\"leaves\":[[[\"f:spec\",\"f:image\"],1]]",
    ),
    // a leaf that isn't there
    (
        "\"cut\":[[\"f:spec\"]],\"gone\":[[\"kubectl\",\"Apply\"]],\"here\":[],\"leaves\":[]",
        "\"cut\":[],\"gone\":[],\"here\":[],\"leaves\":[[[\"f:spec\",\"f:replicas\"],1]]",
    ),
    ("\"put\":[]", "\"put\":[[[\"f:nothing\"],1]]"),
    ("\"put\":[]", "\"put\":[[[\"f:spec\"],{\"image\":\"a\"}]]"),
    ("\"order\":[]", "\"order\":[[[\"f:spec\"],[]]]"),
    (
        "\"here\":[]",
        "\"here\":[{\"entry\":{\"apiVersion\":\"example.com/v2\",\"fieldsType\":\"FieldsV1\",\"fieldsV1\":{},\"manager\":\"m1\",\"operation\":\"Apply\",\"time\":\"2024-05-01T10:00:01Z\"},\"place\":0}]",
    ),
];

// Whether the text is refused as no bench's.
fn is_refused(alloc: Global, text: &str) -> bool {
    matches!(fault_of(alloc, text.as_bytes()), Some(LoadFault::BenchText))
}

// Whether a record of the text does not fit its state.
fn is_misfit(alloc: Global, text: &str) -> bool {
    matches!(
        fault_of(alloc, text.as_bytes()),
        Some(LoadFault::RecordDoesNotFit)
    )
}

#[test]
fn damaged_files_are_refused(rt: HostRuntime) -> Result<(), Fail> {
    let file = bench_file(rt.alloc())?;
    for (part, other) in &DAMAGES {
        let damaged = file.as_str().replacen(rt.alloc(), part, other, 1)?;
        assert!(rt; damaged.as_str() != file.as_str(), "part {part}");
        assert!(rt; is_refused(rt.alloc(), damaged.as_str()), "other {other}");
    }
    Ok(())
}

// The file in a format that tells of no depth.
fn in_format(alloc: Global, file: &str, number: &str) -> Result<String, Fail> {
    let head = ["{\"format\":", number].concat(alloc)?;
    Ok(file.replacen(alloc, "{\"depth\":1000,\"format\":4", head.as_str(), 1)?)
}

// The file with a subresource at each of its places.
fn with_subresources(alloc: Global, file: &str) -> Result<String, Fail> {
    let mut made = String::from_str(alloc, file)?;
    for (part, other) in &SUBRESOURCES {
        made = made.as_str().replacen(alloc, part, other, 1)?;
    }
    Ok(made)
}

#[test]
fn older_formats_are_taken_and_saved_in_this_one(rt: HostRuntime) -> Result<(), Fail> {
    let file = bench_file(rt.alloc())?;
    for number in &["2", "3"] {
        let older = in_format(rt.alloc(), file.as_str(), number)?;
        assert!(rt; older.as_str() != file.as_str());
        let again = saved_again(rt.alloc(), older.as_bytes())?;
        assert!(rt; again.as_slice() == file.as_bytes());
    }
    Ok(())
}

#[test]
fn a_bench_with_a_subresource_is_taken_where_it_can_be_told(rt: HostRuntime) -> Result<(), Fail> {
    let file = bench_file(rt.alloc())?;
    let parted = with_subresources(rt.alloc(), file.as_str())?;
    let again = saved_again(rt.alloc(), parted.as_bytes())?;
    assert!(rt; again.as_slice() == parted.as_bytes());
    let before = in_format(rt.alloc(), parted.as_str(), "3")?;
    let told = saved_again(rt.alloc(), before.as_bytes())?;
    assert!(rt; told.as_slice() == parted.as_bytes());
    let older = in_format(rt.alloc(), parted.as_str(), "2")?;
    assert!(rt; is_refused(rt.alloc(), older.as_str()));
    Ok(())
}

#[test]
fn the_older_format_has_no_subresource(rt: HostRuntime) -> Result<(), Fail> {
    let file = bench_file(rt.alloc())?;
    let older = in_format(rt.alloc(), file.as_str(), "2")?;
    for (part, other) in &SUBRESOURCES {
        let damaged = older.as_str().replacen(rt.alloc(), part, other, 1)?;
        assert!(rt; damaged.as_str() != older.as_str(), "part {part}");
        assert!(rt; is_refused(rt.alloc(), damaged.as_str()), "other {other}");
    }
    Ok(())
}

#[test]
fn another_subresource_is_none(rt: HostRuntime) -> Result<(), Fail> {
    let file = bench_file(rt.alloc())?;
    let parted = with_subresources(rt.alloc(), file.as_str())?;
    for (_part, other) in &SUBRESOURCES {
        let another = other.replacen(rt.alloc(), "status", "scale", 1)?;
        let damaged = parted
            .as_str()
            .replacen(rt.alloc(), other, another.as_str(), 1)?;
        assert!(rt; damaged.as_str() != parted.as_str(), "other {other}");
        assert!(rt; is_refused(rt.alloc(), damaged.as_str()), "other {other}");
    }
    Ok(())
}

#[test]
fn records_that_do_not_fit_are_told(rt: HostRuntime) -> Result<(), Fail> {
    let file = bench_file(rt.alloc())?;
    for (part, other) in &MISFITS {
        let damaged = file.as_str().replacen(rt.alloc(), part, other, 1)?;
        assert!(rt; damaged.as_str() != file.as_str(), "part {part}");
        assert!(rt; is_misfit(rt.alloc(), damaged.as_str()), "other {other}");
    }
    Ok(())
}

#[test]
fn files_end_with_their_last_line(rt: HostRuntime) -> Result<(), Fail> {
    let alloc = rt.alloc();
    let file = bench_file(alloc)?;
    let cut = file.as_str().strip_suffix("\n").unwrap_or("");
    let longer = [file.as_str(), "\n"].concat(alloc)?;
    assert!(rt; is_refused(alloc, ""));
    assert!(rt; is_refused(alloc, cut));
    assert!(rt; is_refused(alloc, longer.as_str()));
    Ok(())
}

#[test]
fn a_failed_reader_is_told(rt: HostRuntime) -> Result<(), Fail> {
    let file = bench_file(rt.alloc())?;
    let mut reader = Breaks::new(file.as_bytes());
    let fault = Bench::load(rt.alloc(), &mut reader).err();
    assert!(rt; matches!(fault, Some(LoadFault::Io)));
    Ok(())
}
