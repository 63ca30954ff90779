//! Reads a source line by line.
ghost use Rattle.std.specs.Prelude.{◌≡◌, ◌<◌, ◌≤◌, Some, None, Ok, OnSome};
ghost use Rattle.std.specs.Io.KnownBytes.{IsAtEnd};
ghost use Rattle.ssa_json.specs.Devices.{is_fault};
ghost use Rattle.ssa_lines.specs.Reading.{TakesPiece, TakesLine, piece_end_bytes, read_end_bytes};

use crate::line::{Line, line_len};
use ssa_json::source::{DeviceFault, Source};
use std::alloc::Global;

/// What ends a line: a line feed, or the end of the input, at which there is no line where no byte came.
#[derive(Clone, Copy, Debug, PartialEq, Eq)]
pub enum LineEnd {
    LineFeed,
    EndOfInput,
}

// Takes what the source lends, up to and including the first line feed. At `None` the line goes on.
fn take_piece<R: Source>(
    reader: &mut R,
    line: &mut Line,
    most: usize,
) -> Result<Option<LineEnd>, DeviceFault>
    ensures takes { TakesPiece most (R.remaining reader.old) (R.remaining reader.new) line.old line.new (piece_end_bytes result) }
    ensures end { (result ≡ Ok (Some LineEnd.EndOfInput)) → OnSome (R.remaining reader.old) (IsAtEnd (R.remaining reader.new)) }
    ensures ends { R.ends_met reader.old ≤ R.ends_met reader.new }
    ensures met_end { (result ≡ Ok (Some LineEnd.EndOfInput)) → R.ends_met reader.old < R.ends_met reader.new }
    ensures failed { R.has_failed reader.new ≡ is_fault result }
    ensures goes_on { (result ≡ Ok None) → R.turns_left reader.new < R.turns_left reader.old }
    ensures line_feed { (result ≡ Ok (Some LineEnd.LineFeed)) → R.turns_left reader.new < R.turns_left reader.old }
{
    let available = reader.fill()?;
    if available.is_empty() {
        return Ok(Some(LineEnd::EndOfInput));
    }
    let len = line_len(available);
    line.push(&available[..len], most);
    if len < available.len() {
        reader.consume(len + 1);
        Ok(Some(LineEnd::LineFeed))
    } else {
        reader.consume(len);
        Ok(None)
    }
}

/// Reads a line, and holds it where it has at most `most` bytes without its line feed. A line that is
/// not held is skipped to its end.
/// A fault leaves the bytes before it taken.
pub fn read_line<R: Source>(
    alloc: Global,
    reader: &mut R,
    line: &mut Line,
    most: usize,
) -> Result<LineEnd, DeviceFault>
    ensures takes { TakesLine most (R.remaining reader.old) (R.remaining reader.new) line.new (read_end_bytes result) }
    ensures end { (result ≡ Ok LineEnd.EndOfInput) → OnSome (R.remaining reader.old) (IsAtEnd (R.remaining reader.new)) }
    ensures ends { R.ends_met reader.old ≤ R.ends_met reader.new }
    ensures met_end { (result ≡ Ok LineEnd.EndOfInput) → R.ends_met reader.old < R.ends_met reader.new }
    ensures failed { R.has_failed reader.new ≡ is_fault result }
    ensures line_feed { (result ≡ Ok LineEnd.LineFeed) → R.turns_left reader.new < R.turns_left reader.old }
{
    line.clear(alloc);
    loop {
        if let Some(end) = take_piece(reader, line, most)? {
            return Ok(end);
        }
    }
}
