//! Calls of the program on a disk in memory: what is replied, what is told, how they end, and what then stands in the files.

use crate::memory::Memory;
use ssa_json::reader::OfReader;
use ssa_json::sink::OfWriter;
use ssa_program::perform::perform;
use ssa_reverse::depth::Depth;
use ssa_words::Call;
use std::alloc::{AllocError, Global};
use std::io;
use std::io::{ErrorKind, Write};
use std::test::Fail;

const SCHEMA: &[u8] =
    b"{\"properties\":{\"spec\":{\"properties\":{\"replicas\":{\"type\":\"integer\"}},\"type\":\"object\"}},\"type\":\"object\"}";

const BARE: &[u8] =
    b"{\"apiVersion\":\"example.com/v1\",\"kind\":\"App\",\"metadata\":{\"name\":\"web\"}}";

const THREE: &[u8] =
    b"{\"apiVersion\":\"example.com/v1\",\"kind\":\"App\",\"metadata\":{\"name\":\"web\"},\"spec\":{\"replicas\":3}}";

const APPLY: Call<'static> = Call::Apply {
    bench: "b",
    file: "three.json",
    at: "2024-05-01T10:00:01Z",
    manager: "m1",
    status: false,
    force: false,
};

const UNDO: Call<'static> = Call::Undo { bench: "b" };

const REDO: Call<'static> = Call::Redo { bench: "b" };

fn init() -> Call<'static> {
    Call::Init {
        schema: "schema.json",
        object: "bare.json",
        bench: "b",
        depth: Depth::greatest(),
    }
}

// What a call came to.
#[derive(Drop)]
struct Ran {
    status: u8,
    reply: Vec<u8>,
    told: Vec<u8>,
}

// Carries out a call with this input.
fn run_on(alloc: Global, disk: &mut Memory, call: &Call<'_>, input: &[u8]) -> Ran {
    let mut reader = OfReader::new(input);
    let mut writer = OfWriter::new(Vec::new(alloc));
    let mut errors = OfWriter::new(Vec::new(alloc));
    let status = perform(disk, alloc, call, &mut reader, &mut writer, &mut errors);
    Ran {
        status,
        reply: writer.into_inner(),
        told: errors.into_inner(),
    }
}

fn run(alloc: Global, disk: &mut Memory, call: &Call<'_>) -> Ran {
    run_on(alloc, disk, call, b"")
}

// A disk with a schema and two objects.
fn files(alloc: Global) -> Result<Memory, AllocError> {
    let mut disk = Memory::new(alloc);
    disk.put("schema.json", SCHEMA)?;
    disk.put("bare.json", BARE)?;
    disk.put("three.json", THREE)?;
    Ok(disk)
}

// The same with the bench of the bare object.
fn with_bench(alloc: Global) -> Result<Memory, AllocError> {
    let mut disk = files(alloc)?;
    let _made = run(alloc, &mut disk, &init());
    Ok(disk)
}

// The bytes of the bench's file, and none where it is not there.
fn bench_of(alloc: Global, disk: &Memory) -> Result<Vec<u8>, AllocError> {
    Vec::from_slice(alloc, disk.bytes_of("b").unwrap_or(b""))
}

#[test]
fn a_bench_is_made(rt: HostRuntime) -> Result<(), Fail> {
    let mut disk = files(rt.alloc())?;
    let ran = run(rt.alloc(), &mut disk, &init());
    assert_eq!(rt; ran.status, 0);
    assert_eq!(rt;
        ran.reply.as_slice(),
        b"{\"done\":\"init\",\"managers\":0,\"paths\":0}\n".as_slice()
    );
    assert!(rt; disk.bytes_of("b").is_some());
    assert!(rt; disk.bytes_of("b.new").is_none());
    Ok(())
}

#[test]
fn a_command_is_saved(rt: HostRuntime) -> Result<(), Fail> {
    let mut disk = with_bench(rt.alloc())?;
    let before = bench_of(rt.alloc(), &disk)?;
    let ran = run(rt.alloc(), &mut disk, &APPLY);
    assert_eq!(rt; ran.status, 0);
    assert_eq!(rt;
        ran.reply.as_slice(),
        b"{\"added\":[[\"f:spec\",\"f:replicas\"]],\"done\":\"apply\",\"managers\":1,\"modified\":[],\"removed\":[]}\n".as_slice()
    );
    let after = bench_of(rt.alloc(), &disk)?;
    assert!(rt; after.as_slice() != before.as_slice());
    assert!(rt; disk.bytes_of("b.new").is_none());
    Ok(())
}

#[test]
fn what_was_taken_back_is_carried_out_again(rt: HostRuntime) -> Result<(), Fail> {
    let mut disk = with_bench(rt.alloc())?;
    let _applied = run(rt.alloc(), &mut disk, &APPLY);
    let applied = bench_of(rt.alloc(), &disk)?;
    let undone = run(rt.alloc(), &mut disk, &UNDO);
    assert_eq!(rt;
        undone.reply.as_slice(),
        b"{\"done\":\"undo\",\"future\":1,\"past\":0}\n".as_slice()
    );
    let redone = run(rt.alloc(), &mut disk, &REDO);
    assert_eq!(rt;
        redone.reply.as_slice(),
        b"{\"done\":\"redo\",\"future\":0,\"past\":1}\n".as_slice()
    );
    assert_eq!(rt; bench_of(rt.alloc(), &disk)?.as_slice(), applied.as_slice());
    Ok(())
}

#[test]
fn a_refusal_leaves_the_file(rt: HostRuntime) -> Result<(), Fail> {
    let mut disk = with_bench(rt.alloc())?;
    let before = bench_of(rt.alloc(), &disk)?;
    let ran = run(rt.alloc(), &mut disk, &UNDO);
    assert_eq!(rt; ran.status, 1);
    assert_eq!(rt;
        ran.reply.as_slice(),
        b"{\"fault\":64,\"name\":\"NothingToUndo\"}\n".as_slice()
    );
    assert_eq!(rt; bench_of(rt.alloc(), &disk)?.as_slice(), before.as_slice());
    Ok(())
}

#[test]
fn a_look_leaves_the_file(rt: HostRuntime) -> Result<(), Fail> {
    let mut disk = with_bench(rt.alloc())?;
    let before = bench_of(rt.alloc(), &disk)?;
    let ran = run(rt.alloc(), &mut disk, &Call::Log { bench: "b" });
    assert_eq!(rt; ran.status, 0);
    assert_eq!(rt;
        ran.reply.as_slice(),
        b"{\"done\":\"log\",\"future\":[],\"past\":[]}\n".as_slice()
    );
    assert_eq!(rt; bench_of(rt.alloc(), &disk)?.as_slice(), before.as_slice());
    Ok(())
}

#[test]
fn a_session_is_saved_at_its_end(rt: HostRuntime) -> Result<(), Fail> {
    let mut disk = with_bench(rt.alloc())?;
    let _applied = run(rt.alloc(), &mut disk, &APPLY);
    let mut same = with_bench(rt.alloc())?;
    let _same_applied = run(rt.alloc(), &mut same, &APPLY);
    let _undone = run(rt.alloc(), &mut same, &UNDO);
    let session = Call::Session { bench: "b" };
    let ran = run_on(rt.alloc(), &mut disk, &session, b"{\"do\":\"undo\"}\n");
    assert_eq!(rt; ran.status, 0);
    assert_eq!(rt;
        ran.reply.as_slice(),
        b"{\"done\":\"undo\",\"future\":1,\"past\":0}\n".as_slice()
    );
    assert_eq!(rt;
        bench_of(rt.alloc(), &disk)?.as_slice(),
        bench_of(rt.alloc(), &same)?.as_slice()
    );
    Ok(())
}

#[test]
fn a_full_disk_leaves_the_file(rt: HostRuntime) -> Result<(), Fail> {
    let mut disk = with_bench(rt.alloc())?;
    let before = bench_of(rt.alloc(), &disk)?;
    disk.fill();
    let ran = run(rt.alloc(), &mut disk, &APPLY);
    assert_eq!(rt; ran.status, 3);
    assert_eq!(rt; ran.reply.as_slice(), b"".as_slice());
    assert_eq!(rt;
        ran.told.as_slice(),
        b"ssabench: cannot write b\n".as_slice()
    );
    assert_eq!(rt; bench_of(rt.alloc(), &disk)?.as_slice(), before.as_slice());
    Ok(())
}

#[test]
fn a_draft_that_is_there_is_told(rt: HostRuntime) -> Result<(), Fail> {
    let mut disk = with_bench(rt.alloc())?;
    disk.put("b.new", b"")?;
    let ran = run(rt.alloc(), &mut disk, &APPLY);
    assert_eq!(rt; ran.status, 3);
    assert_eq!(rt;
        ran.told.as_slice(),
        b"ssabench: b.new is there: another call is at work on b, or one broke off; if none is, remove it\n".as_slice()
    );
    Ok(())
}

// A writer that takes nothing.
#[derive(Drop)]
struct Closed;

impl Write for Closed {
    fn write(&mut self, _buf: &[u8]) -> io::Result<usize> {
        Err(io::Error::from(ErrorKind::TimedOut))
    }

    fn flush(&mut self) -> io::Result<()> {
        Err(io::Error::from(ErrorKind::TimedOut))
    }
}

#[test]
fn a_bench_that_is_saved_is_told_as_saved(rt: HostRuntime) -> Result<(), Fail> {
    let mut disk = with_bench(rt.alloc())?;
    let before = bench_of(rt.alloc(), &disk)?;
    let mut reader = OfReader::new(b"".as_slice());
    let mut writer = OfWriter::new(Closed);
    let mut errors = OfWriter::new(Vec::new(rt.alloc()));
    let status = perform(
        &mut disk,
        rt.alloc(),
        &APPLY,
        &mut reader,
        &mut writer,
        &mut errors,
    );
    assert_eq!(rt; status, 3);
    assert_eq!(rt;
        errors.into_inner().as_slice(),
        b"ssabench: b is saved, but the reply cannot be printed\n".as_slice()
    );
    assert!(rt; bench_of(rt.alloc(), &disk)?.as_slice() != before.as_slice());
    Ok(())
}
