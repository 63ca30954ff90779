//! How far back a history goes.
ghost use Rattle.std.specs.Prelude.{◌≡◌, ◌≤◌, ◌↔◌, IfSome, IsSome};

use std::marker::Model;

/// How many records a history keeps that lead back, and so how many commands can be undone: from 1 to 1,000.
#[derive(Clone, Copy, Debug, PartialEq, Eq)]
pub struct Depth {
    records: u16,
}

impl Model for Depth {
    ghost use Rattle.std.specs.Prelude.{ℕ, ◌≤◌};

    ghost Value = { ℕ };

    ghost view = { λ d. d.records };

    ghost invariant = { λ d. (1 ≤ d.records) × (d.records ≤ 1000) };

    ghost inverse = { λ n. record { records = n } };
}

impl Depth {
    /// The depth of this number, where it is one from 1 to 1,000.
    pub fn new(number: u16) -> Option<Depth>
        ensures within { IsSome result ↔ ((1 ≤ number) × (number ≤ 1000)) }
        ensures value { IfSome result (λ d. d ≡ number) }
    {
        if (1..=1_000).contains(&number) {
            Some(Depth { records: number })
        } else {
            None
        }
    }

    /// The greatest depth, 1,000.
    pub fn greatest() -> Depth
        ensures { result ≡ 1000 }
    {
        Depth { records: 1_000 }
    }

    /// The number.
    pub fn number(&self) -> usize
        ensures value { result ≡ self.now }
        ensures least { 1 ≤ self.now }
        ensures most { self.now ≤ 1000 }
    {
        usize::from(self.records)
    }
}
