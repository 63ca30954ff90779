//! A source of bytes that fails.
ghost use Rattle.std.specs.Prelude.{◌≡◌, length, None};

use ssa_json::source::{DeviceFault, Source};

/// Lends two bytes at a time, and fails in place of its end.
#[derive(Drop)]
pub struct Breaks<'a> {
    rest: &'a [u8],
    has_failed: bool,
}

impl<'a> Breaks<'a> {
    pub fn new(rest: &'a [u8]) -> Breaks<'a> {
        Breaks {
            rest,
            has_failed: false,
        }
    }
}

impl<'a> Source for Breaks<'a> {
    ghost remaining = { λ _. None };

    ghost consumable_len = { λ _. None };

    ghost ends_met = { λ _. 0 };

    ghost has_failed = { λ s. s.has_failed };

    ghost turns_left = { λ s. length s.rest.now };

    fn fill(&mut self) -> Result<&[u8], DeviceFault> {
        if self.has_failed || self.rest.is_empty() {
            self.has_failed = true;
            return Err(DeviceFault);
        }
        Ok(&self.rest[..self.rest.len().min(2)])
    }

    fn consume(&mut self, amount: usize) {
        self.rest = &self.rest[amount.min(self.rest.len())..];
    }
}
