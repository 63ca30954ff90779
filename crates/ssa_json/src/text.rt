//! Comparing texts by their bytes.
ghost use Rattle.std.specs.Prelude.{◌≡◌};
ghost use Rattle.ssa_model.specs.definitions.Json.{same_text};

/// Whether both texts have the same bytes. Most differ in their lengths.
#[inline(always)]
pub fn is_same_text(text: &str, other: &str) -> bool
    ensures { result ≡ same_text text.now other.now }
{
    text.len() == other.len() && text == other
}
