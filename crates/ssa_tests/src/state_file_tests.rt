//! Bench files of whole states that are taken, and those that are none.

use ssa_bench::bench::Bench;
use ssa_lines::loading::LoadFault;
use ssa_samples::bench_files::{bench_file, loaded, saved, states_file};
use std::alloc::Global;
use std::test::Fail;

// How the file of records begins, and ends, of the bench on which an image was applied, after the undo.
const UNDONE_HEAD: &str = "{\"depth\":1000,\"format\":4,\"future\":1,\"past\":0}\n";

const ONWARD: &str =
    "{\"changed\":[],\"cut\":[],\"gone\":[],\"here\":[{\"entry\":{\"apiVersion\":\"example.com/v1\",\"fieldsType\":\"FieldsV1\",\"fieldsV1\":{\"f:spec\":{\"f:image\":{}}},\"manager\":\"kubectl\",\"operation\":\"Apply\",\"time\":\"2024-05-01T10:00:01Z\"},\"place\":0}],\"leaves\":[],\"order\":[],\"put\":[[[\"f:spec\"],{\"image\":\"a\"}]]}}\n";

// Whether a text begins so and ends so.
fn is_between(text: &[u8], first: &str, last: &str) -> bool {
    text.starts_with(first.as_bytes()) && text.ends_with(last.as_bytes())
}

#[test]
fn whole_states_are_saved_as_records(rt: HostRuntime) -> Result<(), Fail> {
    let alloc = rt.alloc();
    let file = states_file(alloc, "1")?;
    let records = bench_file(alloc)?;
    let bench = loaded(alloc, file.as_bytes())?;
    let again = saved(alloc, &bench)?;
    assert!(rt; again.as_slice() == records.as_bytes());
    Ok(())
}

#[test]
fn an_earlier_state_is_the_present_one(rt: HostRuntime) -> Result<(), Fail> {
    let alloc = rt.alloc();
    let file = states_file(alloc, "0")?;
    let bench = loaded(alloc, file.as_bytes())?;
    let again = saved(alloc, &bench)?;
    assert!(rt; is_between(&again, UNDONE_HEAD, ONWARD));
    Ok(())
}

// What the bench is saved as after a redo and an undo.
fn saved_after_moves(alloc: Global, bench: &mut Bench) -> Result<Vec<u8>, Fail> {
    bench.redo()?;
    bench.undo()?;
    saved(alloc, bench)
}

#[test]
fn loaded_states_go_back_and_forth(rt: HostRuntime) -> Result<(), Fail> {
    let alloc = rt.alloc();
    let file = states_file(alloc, "0")?;
    let mut bench = loaded(alloc, file.as_bytes())?;
    let again = saved_after_moves(alloc, &mut bench)?;
    assert!(rt; is_between(&again, UNDONE_HEAD, ONWARD));
    Ok(())
}

// Whether the text is refused as no bench's.
fn is_refused(alloc: Global, text: &[u8]) -> bool {
    matches!(loaded(alloc, text), Err(LoadFault::BenchText))
}

// Parts of the file, and others in their place, with which it is not the text of a bench.
const DAMAGES: [(&str, &str); 24] = [
    ("\"place\":1", "\"place\":2"),
    ("\"place\":1", "\"place\":-1"),
    ("\"states\":2", "\"states\":1"),
    ("\"states\":2", "\"states\":3"),
    ("\"states\":2", "\"states\":1002"),
    ("\"format\":1", "\"format\":2"),
    ("\"format\":1", "\"format\":3"),
    ("{\"format\"", "{ \"format\""),
    (
        "\"format\":1,\"place\":1,\"states\":2",
        "\"format\":2,\"future\":0,\"past\":1",
    ),
    ("\"type\":\"object\"}\n", "\"type\":\"strings\"}\n"),
    ("\"command\":{}", "\"command\":{\"do\":\"strip\"}"),
    ("{\"command\":{},", "{"),
    ("\"kind\":\"App\"", "\"kind\":\"\""),
    ("\"name\":\"web\",", "\"name\":\"other\","),
    ("\"force\":false,", ""),
    (
        "\"manager\":\"kubectl\"},\"object\"",
        "\"manager\":\"\"},\"object\"",
    ),
    (
        "\"manager\":\"kubectl\"},\"object\"",
        "\"manager\":\"kubectl\",\"subresource\":\"status\"},\"object\"",
    ),
    (
        "\"operation\":\"Apply\",\"time\"",
        "\"operation\":\"Apply\",\"subresource\":\"status\",\"time\"",
    ),
    ("\"at\":\"2024-05-01", "\"at\":\"2024-02-30"),
    ("\"f:image\":{}", "\"f:replicas\":{}"),
    ("\"f:image\":{}", "\"f:image\":{\".\":{}}"),
    ("\"image\":\"a\"", "\"image\":1"),
    ("\"image\":\"a\"", "\"image\":\"\\u0061\""),
    (
        "\"metadata\":{\"name\"",
        "\"metadata\":{\"uid\":\"1\",\"name\"",
    ),
];

#[test]
fn damaged_states_are_refused(rt: HostRuntime) -> Result<(), Fail> {
    let file = states_file(rt.alloc(), "1")?;
    for (part, other) in &DAMAGES {
        let damaged = file.as_str().replacen(rt.alloc(), part, other, 1)?;
        assert!(rt; damaged.as_str() != file.as_str(), "part {part}");
        assert!(rt; is_refused(rt.alloc(), damaged.as_bytes()), "other {other}");
    }
    Ok(())
}

#[test]
fn states_end_with_their_last_line(rt: HostRuntime) -> Result<(), Fail> {
    let alloc = rt.alloc();
    let file = states_file(alloc, "1")?;
    let cut = file.as_str().strip_suffix("\n").unwrap_or("");
    let longer = [file.as_str(), "\n"].concat(alloc)?;
    assert!(rt; is_refused(alloc, cut.as_bytes()));
    assert!(rt; is_refused(alloc, longer.as_bytes()));
    Ok(())
}
