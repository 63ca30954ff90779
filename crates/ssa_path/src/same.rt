//! Whether two tries have the same paths.
ghost use Rattle.std.specs.Prelude.{◌≡◌, true};
ghost use Rattle.std.specs.Cmp.Lexicographic.{pointwise};
ghost use Rattle.ssa_model.specs.definitions.Path.{same_path};
ghost use Rattle.ssa_path.specs.Trie.{is_trie, paths};

use crate::trie::Trie;

/// Whether two tries have the same paths. Takes no memory.
#[inline(always)]
pub(crate) fn same_tries(own: &Trie, other: &Trie) -> bool
    requires own { is_trie own.now ≡ true }
    requires other { is_trie other.now ≡ true }
    ensures { result ≡ pointwise same_path (paths own.now) (paths other.now) }
{
    if own.here != other.here {
        return false;
    }
    if own.below.len() != other.below.len() {
        return false;
    }
    let mut rest = other.below.iter();
    for child in &own.below {
        let Some(other_child) = rest.next() else {
            return false;
        };
        if !child.0.is_same(&other_child.0) || !same_tries(&child.1, &other_child.1) {
            return false;
        }
    }
    rest.next().is_none()
}
