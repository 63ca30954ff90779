//! Tests of readers and writers.
use ssa_json::reader::OfReader;
use ssa_json::sink::{OfWriter, Sink, write_all};
use ssa_json::source::Source;
use std::alloc::{AllocError, Global};
use std::io;
use std::io::{BufRead, Read, Write};

// More bytes than a reader holds at once.
fn many_bytes(alloc: Global) -> Result<Vec<u8>, AllocError> {
    let mut bytes = Vec::new(alloc);
    for i in 0..20_000u16 {
        bytes.push((i % 251) as u8)?;
    }
    Ok(bytes)
}

// What a reader of these bytes gives to a writer, until it gives no more.
fn passed_on(alloc: Global, bytes: &[u8]) -> Vec<u8> {
    let mut reader = OfReader::new(bytes);
    let mut writer = OfWriter::new(Vec::new(alloc));
    for _ in 0..100 {
        let Ok(piece) = reader.fill() else {
            break;
        };
        let Ok(taken) = writer.write(piece) else {
            break;
        };
        reader.consume(taken);
    }
    writer.into_inner()
}

// Whether as many bytes are passed on as they are.
fn are_passed_on(alloc: Global) -> Result<bool, AllocError> {
    let bytes = many_bytes(alloc)?;
    Ok(passed_on(alloc, &bytes).as_slice() == bytes.as_slice())
}

#[test]
fn all_bytes_of_a_slice_are_passed_on(rt: HostRuntime) {
    assert_eq!(rt; are_passed_on(rt.alloc()), Ok(true));
}

// Moves one byte at a call, counts the calls, and fails at the third alone.
#[derive(Drop)]
struct Halting {
    calls: u8,
}

impl Halting {
    fn turn(&mut self) -> io::Result<()> {
        self.calls = self.calls.saturating_add(1);
        if self.calls == 3 {
            return Err(io::Error::from(io::ErrorKind::TimedOut));
        }
        Ok(())
    }
}

impl Read for Halting {
    fn read(&mut self, buf: &mut [u8]) -> io::Result<usize> {
        self.turn()?;
        match buf.first_mut() {
            Some(byte) => {
                *byte = b'x';
                Ok(1)
            }
            None => Ok(0),
        }
    }
}

impl BufRead for Halting {
    fn fill_buf(&mut self) -> io::Result<&[u8]> {
        self.turn()?;
        Ok(b"x")
    }

    fn consume(&mut self, _amount: usize) {}
}

impl Write for Halting {
    fn write(&mut self, buf: &[u8]) -> io::Result<usize> {
        self.turn()?;
        Ok(buf.len().min(1))
    }

    fn flush(&mut self) -> io::Result<()> {
        self.turn()
    }
}

// Whether a reader gives bytes at the first two of six turns, and at no other.
fn do_reads_halt(reader: &mut OfReader<Halting>) -> bool {
    let mut do_halt = true;
    for turn in 0..6 {
        let is_filled = reader.fill().is_ok();
        reader.consume(1);
        do_halt = do_halt && is_filled == (turn < 2);
    }
    do_halt
}

#[test]
fn readers_stay_failed(rt: HostRuntime) {
    let mut reader = OfReader::new(Halting { calls: 0 });
    assert!(rt; do_reads_halt(&mut reader));
}

// Whether a writer takes bytes at the first two of six turns, and at no other.
fn do_writes_halt(writer: &mut OfWriter<Halting>) -> bool {
    let mut do_halt = true;
    for turn in 0..6 {
        do_halt = do_halt && writer.write(b"ab").is_ok() == (turn < 2);
    }
    do_halt
}

#[test]
fn writers_stay_failed(rt: HostRuntime) {
    let mut writer = OfWriter::new(Halting { calls: 0 });
    let do_fail = do_writes_halt(&mut writer) && writer.flush().is_err();
    let calls = writer.into_inner().calls;
    assert!(rt; do_fail && calls == 3);
}

// Whether a writer is flushed at the first two of six turns, and at no other.
fn do_flushes_halt(writer: &mut OfWriter<Halting>) -> bool {
    let mut do_halt = true;
    for turn in 0..6 {
        do_halt = do_halt && writer.flush().is_ok() == (turn < 2);
    }
    do_halt
}

#[test]
fn writers_are_flushed_until_they_fail(rt: HostRuntime) {
    let mut writer = OfWriter::new(Halting { calls: 0 });
    let do_fail = do_flushes_halt(&mut writer) && writer.write(b"a").is_err();
    let calls = writer.into_inner().calls;
    assert!(rt; do_fail && calls == 3);
}

#[test]
fn full_writers_fail(rt: HostRuntime) {
    let mut room = [0u8; 3];
    let mut writer = OfWriter::new(&mut room[..]);
    let are_ok = [
        write_all(&mut writer, b"ab").is_ok(),
        write_all(&mut writer, b"cd").is_ok(),
        writer.write(b"").is_ok(),
        writer.flush().is_ok(),
    ];
    assert!(rt; are_ok == [true, false, false, false] && room == *b"abc");
}
