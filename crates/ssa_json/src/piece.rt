//! A piece of a reader's bytes, held in place.
ghost use Rattle.std.specs.Prelude.{◌≡◌, ℕ, ◌<◌, ◌≤◌, List, [], length, drop, OnOk, OnErr, IsTrue, ◌↔◌};
ghost use Rattle.std.specs.Io.KnownBytes.{Keeps, Consumes, IsAtEnd};

use crate::retrying::read_on;
use std::io;
use std::io::Read;
use std::marker::Model;

const ROOM: usize = 8192;

/// Bytes that were read and not yet taken. A contract sees the list of them.
#[derive(Drop)]
pub struct Piece {
    bytes: [u8; ROOM],
    start: usize,
    end: usize,
}

impl Model for Piece {
    ghost use Rattle.std.specs.Prelude.{List, ℕ};

    ghost Value = { List ℕ };

    ghost use Rattle.ssa_json.specs.Piece.{shown, IsWithin};

    ghost view = { shown };

    ghost invariant = { IsWithin };
}

impl Piece {
    pub fn new() -> Piece
        ensures { result ≡ [] }
    {
        Piece {
            bytes: [0; ROOM],
            start: 0,
            end: 0,
        }
    }

    pub fn as_slice(&self) -> &[u8]
        ensures { result.now ≡ self.now }
    {
        let (start, end) = (self.start, self.end);
        let all = &self.bytes[..];
        &all[start..end]
    }

    pub fn is_empty(&self) -> bool
        ensures { IsTrue result ↔ (self.now ≡ []) }
    {
        self.as_slice().is_empty()
    }

    /// Takes the first bytes, at most all.
    pub fn consume(&mut self, amount: usize)
        ensures { self.new ≡ drop amount self.old }
    {
        self.start += amount.min(self.end - self.start);
    }

    /// Reads the next bytes into an empty piece. None come only at the end.
    pub fn read_from<R: Read>(&mut self, reader: &mut R) -> io::Result<()>
        requires { self.old ≡ [] }
        ensures ok { OnOk result (Consumes (R.remaining reader.old) (R.remaining reader.new) self.new) }
        ensures end { OnOk result (self.new ≡ [] → IsAtEnd (R.remaining reader.new)) }
        ensures err { OnErr result (Keeps (R.remaining reader.old) (R.remaining reader.new)) }
        ensures err_empty { OnErr result (self.new ≡ []) }
    {
        self.start = 0;
        self.end = 0;
        self.end = read_on(reader, &mut self.bytes)?;
        Ok(())
    }
}
