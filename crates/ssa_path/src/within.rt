//! Whether one set of paths lies within another, and whether it shares one with it.
ghost use Rattle.std.specs.Prelude.{◌≡◌, true};
ghost use Rattle.std.specs.Bool.{MatchBool};
ghost use Rattle.std.specs.Option.{option_copied};
ghost use Rattle.ssa_path.specs.Children.{child_at, elements, rises};
ghost use Rattle.ssa_path.specs.Trie.{is_trie, paths, AreApart, Exceeds, IsWithin, Meet};
ghost use Rattle.ssa_path.specs.View.{element_view};

use crate::children::{find_child, find_child_near};
use crate::element::Elem;
use crate::trie::Trie;

/// Whether each path of a trie is one of another's. Takes no memory, and stops at the first that is
/// not.
pub fn lies_within(own: &Trie, other: &Trie) -> bool
    requires own { is_trie own.now ≡ true }
    requires other { is_trie other.now ≡ true }
    ensures { MatchBool result (IsWithin (paths own.now) (paths other.now)) (Exceeds (paths own.now) (paths other.now)) }
{
    lies_within_near(own, other, &mut 0)
}

/// The other trie's child of a child's element. Where nothing is below the child, it is looked for first at `near`, as
/// [`find_child_near`] does.
#[inline(always)]
pub fn counterpart<'a>(
    others: &'a [(Elem, Trie)],
    child: &(Elem, Trie),
    near: &mut usize,
) -> Option<&'a Trie>
    requires { rises (elements others.now) ≡ true }
    ensures { option_copied result ≡ child_at (element_view child.now.0) others.now }
{
    if child.1.below.is_empty() {
        find_child_near(others, &child.0, near)
    } else {
        find_child(others, &child.0)
    }
}

// The same as `lies_within_near` tells, with no call for a place with nothing below it.
#[cycle(lies_within)]
#[inline(always)]
fn lies_there(own: &Trie, other: &Trie, near: &mut usize) -> bool
    requires own { is_trie own.now ≡ true }
    requires other { is_trie other.now ≡ true }
    ensures { MatchBool result (IsWithin (paths own.now) (paths other.now)) (Exceeds (paths own.now) (paths other.now)) }
{
    if own.below.is_empty() {
        return !own.here || other.here;
    }
    lies_within_near(own, other, near)
}

/// The same as [`lies_within`] tells. The last place of a path is looked for first at `near`, which is then where the last one
/// was found: what is told does not depend on it.
#[cycle(lies_within)]
pub fn lies_within_near(own: &Trie, other: &Trie, near: &mut usize) -> bool
    requires own { is_trie own.now ≡ true }
    requires other { is_trie other.now ≡ true }
    ensures { MatchBool result (IsWithin (paths own.now) (paths other.now)) (Exceeds (paths own.now) (paths other.now)) }
{
    if own.here && !other.here {
        return false;
    }
    for child in &own.below {
        let Some(place) = counterpart(&other.below, child, near) else {
            return false;
        };
        if !lies_there(&child.1, place, near) {
            return false;
        }
    }
    true
}

/// Whether some path of a trie is one of another's. Takes no memory, and stops at the first that is.
pub fn share_path(own: &Trie, other: &Trie) -> bool
    requires own { is_trie own.now ≡ true }
    requires other { is_trie other.now ≡ true }
    ensures { MatchBool result (Meet (paths own.now) (paths other.now)) (AreApart (paths own.now) (paths other.now)) }
{
    if own.here && other.here {
        return true;
    }
    for child in &own.below {
        if let Some(place) = find_child(&other.below, &child.0) {
            if share_path(&child.1, place) {
                return true;
            }
        }
    }
    false
}
