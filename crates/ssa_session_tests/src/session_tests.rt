//! Sessions over fakes: what is answered, written and flushed, and what a device's fault leaves.
ghost use Rattle.std.specs.Prelude.{ℕ, List};

use crate::falters::Falters;
use ssa_json::reader::OfReader;
use ssa_json::reading_room::ReadingRoom;
use ssa_json::sink::OfWriter;
use ssa_samples::breaks::Breaks;
use ssa_samples::marks::Marks;
use ssa_session::engine::{SessionFault, session};
use ssa_session::machine::Machine;
use ssa_session::watcher::Unwatched;
use std::alloc::{AllocError, Global};
use std::test::Fail;

// Answers a line by itself.
#[derive(Drop)]
struct Echo;

impl Machine for Echo {
    ghost reply = { λ _ line. line };

    ghost after = { λ m _. m };

    fn answer(
        &mut self,
        alloc: Global,
        _room: &mut ReadingRoom,
        line: &[u8],
    ) -> Result<Vec<u8>, AllocError> {
        line.to_vec(alloc)
    }
}

#[test]
fn an_unfinished_line_before_a_fault_is_not_answered(rt: HostRuntime) {
    let mut reader = Breaks::new(b"abc\nde\nfg");
    let mut writer = OfWriter::new(Vec::new(rt.alloc()));
    let done = session(
        rt.alloc(),
        &mut reader,
        &mut writer,
        &mut Echo,
        &mut Unwatched,
    );
    assert_eq!(rt; done, Err(SessionFault::Reader));
    assert_eq!(rt; writer.into_inner().as_slice(), b"abc\nde\n".as_slice());
}

#[test]
fn each_reply_is_flushed(rt: HostRuntime) {
    let mut reader = OfReader::new(b"ab\n\ncd".as_slice());
    let mut writer = Marks::new(rt.alloc());
    let done = session(
        rt.alloc(),
        &mut reader,
        &mut writer,
        &mut Echo,
        &mut Unwatched,
    );
    assert_eq!(rt; done, Ok(()));
    assert_eq!(rt; writer.bytes(), b"ab\n|\n|cd\n|".as_slice());
}

#[test]
fn a_full_device_has_a_beginning(rt: HostRuntime) {
    let mut room = [0u8; 4];
    let mut reader = OfReader::new(b"ab\ncd\nef\n".as_slice());
    let mut writer = OfWriter::new(&mut room[..]);
    let done = session(
        rt.alloc(),
        &mut reader,
        &mut writer,
        &mut Echo,
        &mut Unwatched,
    );
    assert_eq!(rt; done, Err(SessionFault::Writer));
    assert_eq!(rt; room.as_slice(), b"ab\nc".as_slice());
}

// A session on the input, whose writer fails or takes nothing behind so many calls, takes this many bytes.
fn takes(
    alloc: Global,
    input: &str,
    calls: usize,
    takes_nothing: bool,
) -> (Result<(), SessionFault>, Vec<u8>) {
    let mut reader = OfReader::new(input.as_bytes());
    let mut writer = OfWriter::new(Falters::new(alloc, calls, takes_nothing));
    let done = session(alloc, &mut reader, &mut writer, &mut Echo, &mut Unwatched);
    (done, writer.into_inner().into_bytes())
}

// How many bytes of the replies to `ab`, an empty line and `cd` are written by so many calls of a writer that takes one at
// a call, each reply being flushed.
const WRITTEN: [usize; 10] = [0, 1, 2, 3, 3, 4, 4, 5, 6, 7];

#[test]
fn a_writer_that_falters_has_a_beginning(rt: HostRuntime) {
    let replies = b"ab\n\ncd\n".as_slice();
    for (calls, written) in WRITTEN.iter().enumerate() {
        for takes_nothing in &[false, true] {
            let (done, bytes) = takes(rt.alloc(), "ab\n\ncd", calls, *takes_nothing);
            assert_eq!(rt; done, Err(SessionFault::Writer), "at {calls}");
            assert_eq!(rt;
                bytes.as_slice(),
                &replies[..replies.len().min(*written)],
                "at {calls}"
            );
        }
    }
    let (done, bytes) = takes(rt.alloc(), "ab\n\ncd", 10, false);
    assert_eq!(rt; done, Ok(()));
    assert_eq!(rt; bytes.as_slice(), replies);
}

// What a session writes whose reader fails behind these bytes.
fn whole_lines(alloc: Global, bytes: &[u8]) -> (Result<(), SessionFault>, Vec<u8>) {
    let mut reader = Breaks::new(bytes);
    let mut writer = OfWriter::new(Vec::new(alloc));
    let done = session(alloc, &mut reader, &mut writer, &mut Echo, &mut Unwatched);
    (done, writer.into_inner())
}

// The replies to the whole lines of `ab`, an empty line and `cd`, of which so many bytes were read.
const ANSWERED_BEFORE: [&str; 8] = [
    "",
    "",
    "",
    "ab\n",
    "ab\n\n",
    "ab\n\n",
    "ab\n\n",
    "ab\n\ncd\n",
];

#[test]
fn a_reader_that_fails_has_its_whole_lines_answered(rt: HostRuntime) {
    let input = b"ab\n\ncd\n".as_slice();
    for (length, wanted) in ANSWERED_BEFORE.iter().enumerate() {
        let (done, bytes) = whole_lines(rt.alloc(), &input[..input.len().min(length)]);
        assert_eq!(rt; done, Err(SessionFault::Reader), "at {length}");
        assert_eq!(rt; bytes.as_slice(), wanted.as_bytes(), "at {length}");
    }
}

#[test]
fn a_long_line_is_answered_at_its_end(rt: HostRuntime) -> Result<(), Fail> {
    let line = "y".repeat(rt.alloc(), 1_048_577)?;
    let (done, bytes) = whole_lines(rt.alloc(), line.as_bytes());
    assert_eq!(rt; done, Err(SessionFault::Reader));
    assert_eq!(rt; bytes.as_slice(), b"".as_slice());
    let ended = [line.as_str(), "\nab\ncd"].concat(rt.alloc())?;
    let (done, bytes) = whole_lines(rt.alloc(), ended.as_bytes());
    assert_eq!(rt; done, Err(SessionFault::Reader));
    assert_eq!(rt;
        bytes.as_slice(),
        b"{\"fault\":4,\"name\":\"TooLong\"}\nab\n".as_slice()
    );
    Ok(())
}
