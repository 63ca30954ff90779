//! The words of the program, and its devices.

use ssa_disk::files::OfFiles;
use ssa_json::reader::OfReader;
use ssa_json::sink::OfWriter;
use ssa_program::perform::perform;
use ssa_program::usage::{NOT_UTF8, refuse_words, tell_usage};
use ssa_words::usage::Usage;
use ssa_words::words::read_words;
use std::fs::File;
use std::io;
use std::io::ErrorKind;
use std::mem::ManuallyDrop;
use std::os::fd::AsRawFd;

// The words behind the program's own name.
fn words(rt: &HostRuntime) -> io::Result<Vec<String>> {
    let mut words = Vec::new(rt.alloc());
    for word in std::env::args(rt)?.skip(1) {
        words.push(word)?;
    }
    Ok(words)
}

// Takes the places of standard input, output and error where the program was started without one of them, so that no file
// that it opens comes to stand there: a reply would go into a bench. What stands there is a folder, which can be neither read
// nor written, so that reading and writing fail as they would without it.
fn hold_places(rt: &HostRuntime) {
    for _ in 0..3 {
        let Ok(folder) = File::open(rt, "/") else {
            return;
        };
        if folder.as_raw_fd() > 2 {
            return;
        }
        let _held = ManuallyDrop::new(folder);
    }
}

/// Carries out the words that the program was given, and gives the exit status.
pub fn run(rt: &HostRuntime) -> u8 {
    hold_places(rt);
    let mut reader = OfReader::new(rt.reader());
    let mut writer = OfWriter::new(io::writer(rt));
    let mut errors = OfWriter::new(rt.stderr());
    let words = match words(rt) {
        Ok(words) => words,
        Err(fault) if fault.kind() == ErrorKind::InvalidData => {
            return refuse_words(&mut errors, NOT_UTF8).code();
        }
        Err(_) => return tell_usage(&Usage::OutOfMemory, &mut writer, &mut errors).code(),
    };
    match read_words(rt.alloc(), &words) {
        Ok(call) => {
            let mut disk = OfFiles::new(rt);
            perform(
                &mut disk,
                rt.alloc(),
                &call,
                &mut reader,
                &mut writer,
                &mut errors,
            )
        }
        Err(usage) => tell_usage(&usage, &mut writer, &mut errors).code(),
    }
}
