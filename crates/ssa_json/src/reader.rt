//! A `std` reader as a source.
ghost use Rattle.std.specs.Prelude.{◌≡◌, ℕ, ◌<◌, ◌^◌, ◌-◌, ◌+◌, if◌then◌else◌, ◌&&◌, is_ok, Some, [], length, false, IsOk, OnOk, IsErr, OnSome, IsTrue, nat_eq};
ghost use Rattle.std.specs.Io.KnownBytes.{Keeps, IsAtEnd, prepend_known};
ghost use Rattle.ssa_json.specs.Devices.{is_fault};

use crate::piece::Piece;
use crate::source::{DeviceFault, Source};
use std::io::BufRead;

/// A `std` reader as a source. It has failed once the reader fails, and fails from then on.
#[derive(Drop)]
pub struct OfReader<R> {
    reader: R,
    piece: Piece,
    ends_met: u64,
    has_failed: bool,
    turns: u64,
}

impl<R: BufRead> OfReader<R> {
    pub fn new(reader: R) -> OfReader<R>
        ensures { result ≡ record { reader = reader; piece = []; ends_met = 0; has_failed = false; turns = 2 ^ 64 - 1 } }
    {
        OfReader {
            reader,
            piece: Piece::new(),
            ends_met: 0,
            has_failed: false,
            turns: u64::MAX,
        }
    }

    // Reads the next piece where there is none.
    fn refill(&mut self) -> Result<(), DeviceFault>
        ensures bytes { Keeps (prepend_known self.old.piece (R.remaining self.old.reader))
            (prepend_known self.new.piece (R.remaining self.new.reader)) }
        ensures end { OnOk result (self.new.piece ≡ [] → OnSome (R.remaining self.old.reader) (IsAtEnd (R.remaining self.new.reader))) }
        ensures end_met { self.new.ends_met ≡ (if is_ok result && nat_eq (length self.new.piece) 0 then 1 + self.old.ends_met else self.old.ends_met) }
        ensures failed { self.new.has_failed ≡ is_fault result }
        ensures stays_failed { IsTrue self.old.has_failed → IsErr result }
        ensures turns { self.new.turns ≡ self.old.turns }
        ensures more { IsOk result → 0 < self.new.turns }
    {
        if self.has_failed {
            return Err(DeviceFault);
        }
        if self.turns == 0 || self.ends_met == u64::MAX {
            self.has_failed = true;
            return Err(DeviceFault);
        }
        if self.piece.is_empty() {
            if self.piece.read_from(&mut self.reader).is_err() {
                self.has_failed = true;
                return Err(DeviceFault);
            }
            if self.piece.is_empty() {
                self.ends_met += 1;
            }
        }
        Ok(())
    }
}

impl<R: BufRead> Source for OfReader<R> {
    ghost remaining = { λ s. prepend_known s.piece (R.remaining s.reader) };

    ghost consumable_len = { λ s. Some (length s.piece) };

    ghost ends_met = { λ s. s.ends_met };

    ghost has_failed = { λ s. s.has_failed };

    ghost turns_left = { λ s. s.turns };

    fn fill(&mut self) -> Result<&[u8], DeviceFault> {
        self.refill()?;
        Ok(self.piece.as_slice())
    }

    fn consume(&mut self, amount: usize) {
        if amount > 0 && self.turns > 0 {
            self.turns -= 1;
        }
        self.piece.consume(amount);
    }
}
