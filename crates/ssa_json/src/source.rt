//! Where bytes come from.
ghost use Rattle.std.specs.Prelude.{◌≡◌, ℕ, ◌<◌, ◌≤◌, List, [], length, Bool, Option, IfSome, IfOk, IsTrue, IsErr};
ghost use Rattle.std.specs.Borrow.{sem};
ghost use Rattle.std.specs.Io.{StartsWith};
ghost use Rattle.std.specs.Io.BufRead.{Rests, DropsConsumable};
ghost use Rattle.ssa_json.specs.Devices.{Filled};

use thiserror::Error;

/// A device has failed. It says no more.
#[derive(Clone, Copy, Debug, PartialEq, Eq, Error)]
#[error("the device has failed")]
pub struct DeviceFault;

/// A reader that lends its bytes.
pub trait Source {
    // The bytes that are left, where the source tells them.
    ghost remaining: { Self → Option (List ℕ) };

    // `consume(n)` takes the first n of them for each n up to this, and for every n at `None`.
    ghost consumable_len: { Self → Option ℕ };

    // How many fills have given no bytes.
    ghost ends_met: { Self → ℕ };

    // Whether the device has failed.
    ghost has_failed: { Self → Bool };

    // A bound on the number of further calls of `consume` that take bytes.
    ghost turns_left: { Self → ℕ };

    /// Lends the next bytes, none only at the end of the input.
    fn fill(&mut self) -> Result<&[u8], DeviceFault>
        ensures front { IfSome (remaining self.old) (λ xs. IfOk result (λ bytes. StartsWith xs bytes.now)) }
        ensures end { IfSome (remaining self.old) (λ xs. IfOk result (λ bytes. length bytes.now ≡ 0 → xs ≡ [])) }
        ensures stays_failed { IsTrue (has_failed self.old) → IsErr result }
        ensures* after_borrow { sem 𝓛 (Rests Self.row self.entry (λ new.
            Filled (remaining self.old) (remaining new) (consumable_len new) (ends_met self.old) (ends_met new)
            (has_failed new) (turns_left self.old) (turns_left new) result)) };

    /// Takes the first `amount` of the bytes that were lent.
    fn consume(&mut self, amount: usize)
        ensures bytes { DropsConsumable (remaining self.old) (remaining self.new) (consumable_len self.old) amount }
        ensures end { ends_met self.new ≡ ends_met self.old }
        ensures failed { has_failed self.new ≡ has_failed self.old }
        ensures turns { turns_left self.new ≤ turns_left self.old }
        ensures turn { 0 < amount → 0 < turns_left self.old → turns_left self.new < turns_left self.old };
}
