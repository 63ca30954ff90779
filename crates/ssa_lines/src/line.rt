//! A line of the input, held up to a limit.
ghost use Rattle.std.specs.Prelude.{◌≡◌, ℕ, ◌<◌, ◌≤◌, List, [], ◌++◌, length, slice_index, take, IsTrue, ◌↔◌};
ghost use Rattle.ssa_model.specs.definitions.Lines.{line_feed, HasNoLineFeed};

use memchr::memchr;
use std::alloc::Global;

/// What is held of a line while it is read.
#[derive(Debug, Drop)]
pub enum Line {
    /// All its bytes, without the line feed.
    Kept(Vec<u8>),
    /// Nothing: there were more bytes than the limit.
    TooLong,
    /// Nothing: a growth was refused.
    OutOfMemory,
}

impl Line {
    ghost use Rattle.ssa_lines.specs.Held.{Holds};

    /// A line of which no byte has come.
    pub fn new(alloc: Global) -> Line
        ensures { (most : ℕ) → Holds most result [] }
    {
        Line::Kept(Vec::new(alloc))
    }

    /// Forgets what has come. What was kept of it stays as room for the next line.
    pub fn clear(&mut self, alloc: Global)
        ensures { (most : ℕ) → Holds most self.new [] }
    {
        match self {
            Line::Kept(bytes) => bytes.clear(),
            Line::TooLong | Line::OutOfMemory => *self = Line::new(alloc),
        }
    }

    /// Whether no byte has come.
    pub fn is_empty(&self) -> bool
        ensures { (most : ℕ) (text : List ℕ) → Holds most self.now text → IsTrue result ↔ (text ≡ []) }
    {
        match self {
            Line::Kept(bytes) => bytes.is_empty(),
            Line::TooLong | Line::OutOfMemory => false,
        }
    }

    /// Adds bytes to the line, or gives up keeping it where it has more than `most`.
    pub fn push(&mut self, piece: &[u8], most: usize)
        ensures { (text : List ℕ) → Holds most self.old text → Holds most self.new (text ++ piece.now) }
    {
        if piece.is_empty() {
            return;
        }
        if let Line::Kept(bytes) = self {
            if piece.len() > most || bytes.len() > most - piece.len() {
                *self = Line::TooLong;
            } else if bytes.extend_from_slice(piece).is_err() {
                *self = Line::OutOfMemory;
            }
        }
    }
}

/// How many bytes stand before the first line feed.
pub fn line_len(bytes: &[u8]) -> usize
    ensures within { result ≤ length bytes.now }
    ensures before { HasNoLineFeed (take result bytes.now) }
    ensures found { result < length bytes.now → slice_index bytes.now result ≡ line_feed }
{
    match memchr(b'\n', bytes) {
        Some(place) => place,
        None => bytes.len(),
    }
}
