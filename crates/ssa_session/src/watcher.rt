//! What looks on at a session.
ghost use Rattle.std.specs.Prelude.{◌≡◌};

use ssa_lines::line::Line;
use std::alloc::Global;

/// What looks at the machine of a session behind each of its replies, say to tell a person what has become of it.
pub trait Watcher<M> {
    // What may become of it while it looks on.
    ghost goes: { Self → Self → Type 0 };

    /// Looks at the machine as this line has left it.
    fn look(&mut self, alloc: Global, machine: &M, line: &Line)
        ensures { goes self.old self.new };

    // It may stay as it is.
    ghost stays: { (w : Self) → goes w w };

    // It may look more than once.
    ghost goes_on: { (u v w : Self) → goes u v → goes v w → goes u w };
}

/// A watcher that does nothing.
#[derive(Debug, Drop)]
pub struct Unwatched;

impl<M> Watcher<M> for Unwatched {
    ghost use Rattle.std.proofs.Common.{refl, ◌∙◌};

    ghost goes = { λ u v. v ≡ u };

    fn look(&mut self, _alloc: Global, _machine: &M, _line: &Line) {}

    ghost stays = { λ w. refl };

    ghost goes_on = { λ u v w a b. b ∙ a };
}
