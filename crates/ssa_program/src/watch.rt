//! A word to a person, while a session lasts, that its bench has become longer than a file may be.
ghost use Rattle.std.specs.Prelude.{◌≡◌, ◌++◌, ◌∷◌, [], ◌⊎◌, true, false, None, Ok, Err, ◌≤◌, length};
ghost use Rattle.ssa_model.specs.definitions.Lines.{line_feed};
ghost use Rattle.ssa_program.specs.Telling.{IsTold};
ghost use Rattle.ssa_program.specs.Watching.{GoesOn, goes_on, stays, too_long_line};

use crate::names::named_line;
use ssa_bench::bench::Bench;
use ssa_json::sink::Sink;
use ssa_json::source::DeviceFault;
use ssa_lines::line::Line;
use ssa_lines::saving::{MOST_FILE_BYTES, SaveFault};
use ssa_lines::write_line::write_line;
use ssa_session::watcher::Watcher;
use std::alloc::{AllocError, Global};

// The text is not measured before the lines have so many bytes.
const FEW_BYTES: usize = 1_048_576;

// A line counts for so many bytes more than it has.
const LINE_WEIGHT: usize = 64;

// Counts the bytes that it is given.
#[derive(Drop)]
struct Counter {
    count: usize,
    is_handed_on: bool,
}

impl Sink for Counter {
    ghost contents = { λ c. None };

    ghost has_failed = { λ c. false };

    ghost is_handed_on = { λ c. c.is_handed_on };

    fn write(&mut self, bytes: &[u8]) -> Result<usize, DeviceFault> {
        self.count = self.count.saturating_add(bytes.len());
        self.is_handed_on = false;
        Ok(bytes.len())
    }

    fn flush(&mut self) -> Result<(), DeviceFault> {
        self.is_handed_on = true;
        Ok(())
    }
}

/// Looks on at a session, and tells a person once that the bench's text has become longer than a file may be.
///
/// The text is made anew to be measured. So that is done when the lines since the last time have a megabyte, and half as many bytes
/// as the text could then still grow by; more and more seldom while it does not grow with the lines. Where records are longer than
/// their lines, the word comes later.
#[derive(Drop)]
pub(crate) struct LengthWatch<'a, E> {
    errors: &'a mut E,
    name: &'a str,
    // How long the text was when it was measured last, what the lines weigh since, and with how much it is due again.
    len: usize,
    weight: usize,
    due: usize,
    is_told: bool,
}

impl<'a, E: Sink> LengthWatch<'a, E> {
    /// A watch on the bench of this name, which has told nothing.
    pub(crate) fn new(errors: &'a mut E, name: &'a str) -> LengthWatch<'a, E>
        ensures device { result.errors.ghost_name ≡ errors.entry.ghost_name }
        ensures now { result.errors.now ≡ errors.old }
        ensures name { result.name ≡ name.entry }
        ensures untold { result.is_told ≡ false }
    {
        LengthWatch {
            errors,
            name,
            len: 0,
            weight: 0,
            due: FEW_BYTES,
            is_told: false,
        }
    }
}

// What a line weighs.
fn weight_of(line: &Line) -> usize {
    match line {
        Line::Kept(bytes) => bytes.len().saturating_add(LINE_WEIGHT),
        Line::TooLong | Line::OutOfMemory => LINE_WEIGHT,
    }
}

// How many bytes the bench's text has, or none where they are more than a file may have.
fn text_len(alloc: Global, bench: &Bench) -> Result<Option<usize>, AllocError> {
    let mut counter = Counter {
        count: 0,
        is_handed_on: true,
    };
    match bench.save(alloc, &mut counter) {
        Ok(()) => Ok(Some(counter.count)),
        Err(SaveFault::BenchTooLong) => Ok(None),
        Err(_) => Err(AllocError),
    }
}

// Whether the text has grown by half of what its lines weigh, at least.
fn has_grown(len: usize, before: usize, weight: usize) -> bool {
    len.saturating_sub(before) >= weight / 2
}

// With what weight of lines a text of so many bytes is to be measured again, where it grows with them.
fn due_after(len: usize) -> usize {
    FEW_BYTES.max(MOST_FILE_BYTES.saturating_sub(len) / 2)
}

// The same where it does not.
fn due_later(due: usize) -> usize {
    due.saturating_mul(2).min(MOST_FILE_BYTES / 2)
}

// Tells the line, or nothing where memory runs out.
fn tell_too_long<E: Sink>(alloc: Global, name: &str, errors: &mut E) -> bool
    ensures told { result ≡ true → IsTold E.contents E.has_failed errors.old errors.new (too_long_line name.now ++ line_feed ∷ []) }
    ensures quiet { result ≡ false → errors.new ≡ errors.old }
{
    let after =
        " would have more than 67108864 bytes: as it stands, this session will not be saved";
    match named_line(alloc, "ssabench: ", name, after) {
        Ok(line) => match write_line(errors, &line) {
            Ok(()) => true,
            Err(_) => true,
        },
        Err(_) => false,
    }
}

impl<'a, E: Sink> Watcher<Bench> for LengthWatch<'a, E> {
    ghost goes = { GoesOn E.contents E.has_failed };

    fn look(&mut self, alloc: Global, bench: &Bench, line: &Line) {
        self.weight = self.weight.saturating_add(weight_of(line));
        if self.is_told || self.weight < self.due {
            return;
        }
        match text_len(alloc, bench) {
            Ok(Some(len)) => {
                self.due = if has_grown(len, self.len, self.weight) {
                    due_after(len)
                } else {
                    due_later(self.due)
                };
                self.len = len;
            }
            Ok(None) => self.is_told = tell_too_long(alloc, self.name, self.errors),
            Err(_) => {}
        }
        self.weight = 0;
    }

    ghost stays = { stays E.contents E.has_failed };

    ghost goes_on = { goes_on E.contents E.has_failed };
}
