//! What a value keeps that is turned by records.
ghost use Rattle.std.specs.Prelude.{◌≡◌, Bool, IsTrue, IsOk, OnErr, OnOk};

use std::alloc::AllocError;

/// A value that a record changes in place, and that the turned record changes back.
///
/// A record is told in two parts: what it says (its steps), and the room that it carries so that a
/// turn takes no memory. Of two values at most one record leads from the first to the second.
pub trait Reversible {
    type Delta: Drop;

    /// Whether a record carries all the room that a turn needs, so that no turn can fail.
    const SURE: bool;

    ghost SURE: { Bool };

    /// What a value means.
    ghost Meaning: { Type 0 };

    ghost meaning: { Self → Meaning };

    /// What a record says, its room left out.
    ghost Steps: { Type 0 };

    ghost steps: { Self.Delta → Steps };

    /// The steps take the first meaning to the second.
    ghost takes: { Steps → Meaning → Meaning → Type 0 };

    /// The meaning that steps take a meaning to, and any meaning where they do not fit.
    ghost target: { Steps → Meaning → Meaning };

    /// The record's room serves one turn of a value of this meaning.
    ghost has_room: { Self.Delta → Meaning → Type 0 };

    /// Takes the value to where the record leads, and leaves in its place the record that leads
    /// back. Where memory is wanted for it, neither changes.
    fn turn(&mut self, delta: &mut Self::Delta) -> Result<(), AllocError>
        requires fits { takes (steps delta.old) (meaning self.old) (target (steps delta.old) (meaning self.old)) }
        requires room { has_room delta.old (meaning self.old) }
        ensures value { OnOk result (meaning self.new ≡ target (steps delta.old) (meaning self.old)) }
        ensures back { OnOk result (takes (steps delta.new) (meaning self.new) (meaning self.old)) }
        ensures room { OnOk result (has_room delta.new (meaning self.new)) }
        ensures err { OnErr result ((self.new ≡ self.old) × (delta.new ≡ delta.old)) }
        ensures sure { IsTrue SURE → IsOk result };

    /// Steps and a meaning fix where they lead.
    ghost fixes_target: { (s : Steps) (v w : Meaning) → takes s v w → target s v ≡ w };

    /// Two meanings fix the steps between them.
    ghost fixes_steps: { (s r : Steps) (v w : Meaning) → takes s v w → takes r v w → s ≡ r };

    /// Where steps lead, others lead back.
    ghost leads_back: { (s : Steps) (v w : Meaning) → takes s v w → (r : Steps) × takes r w v };
}
