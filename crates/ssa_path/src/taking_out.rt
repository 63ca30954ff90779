//! Paths taken out of a set where they stand, at or below which another set has a path: by one walk over both tries, or by a
//! search for each of few children among many others.
ghost use Rattle.std.specs.Prelude.{◌≡◌, not, true};
ghost use Rattle.ssa_path.specs.Children.{elements, rises};
ghost use Rattle.ssa_path.specs.Trie.{is_trie, is_filled, are_filled_tries};
ghost use Rattle.ssa_path.specs.Combine.{IsCombination, IsCombined};

use crate::children::{order_at, search};
use crate::combine::Combination;
use crate::element::Elem;
use crate::trie::{Trie, take_out_bare};
use std::cmp::Ordering;

// Takes them out of a child, and tells whether it has no path left.
#[cycle(take_out_over)]
fn take_out_of_child(other: &Trie, child: &mut (Elem, Trie)) -> bool
    requires other { is_trie other.now ≡ true }
    requires own { is_trie child.old.1 ≡ true }
    ensures made { IsCombination Combination.WithoutOver child.old.1 other.now child.new.1 }
    ensures element { child.new.0 ≡ child.old.0 }
    ensures bare { result ≡ not (is_filled child.new.1) }
{
    take_out_over(other, &mut child.1);
    !child.1.has_paths()
}

// Takes them out of what is below a place.
#[cycle(take_out_over)]
fn take_out_beside(others: &[(Elem, Trie)], own: &mut Vec<(Elem, Trie)>)
    requires others_rise { rises (elements others.now) ≡ true }
    requires others_tries { are_filled_tries others.now ≡ true }
    requires own_rise { rises (elements own.old.items) ≡ true }
    requires own_tries { are_filled_tries own.old.items ≡ true }
    ensures { IsCombined Combination.WithoutOver own.old.items others.now own.new.items }
{
    let mut any_bare = false;
    let mut i = 0;
    let mut j = 0;
    while let Some(order) = order_at(own, i, others, j) {
        match order {
            Ordering::Less => i += 1,
            Ordering::Greater => j += 1,
            Ordering::Equal => {
                any_bare |= take_out_of_child(&others[j].1, &mut own[i]);
                i += 1;
                j += 1;
            }
        }
    }
    take_out_bare(own, any_bare);
}

// Takes them out of what is below a place: few children find their counterparts among many others.
#[cycle(take_out_over)]
fn take_out_found(others: &[(Elem, Trie)], own: &mut Vec<(Elem, Trie)>)
    requires others_rise { rises (elements others.now) ≡ true }
    requires others_tries { are_filled_tries others.now ≡ true }
    requires own_rise { rises (elements own.old.items) ≡ true }
    requires own_tries { are_filled_tries own.old.items ≡ true }
    ensures { IsCombined Combination.WithoutOver own.old.items others.now own.new.items }
{
    let mut any_bare = false;
    let mut i = 0;
    while i < own.len() {
        if let Ok(place) = search(others, &own[i].0) {
            any_bare |= take_out_of_child(&others[place].1, &mut own[i]);
        }
        i += 1;
    }
    take_out_bare(own, any_bare);
}

// Takes out the paths that have a path of the other trie at or below them. Takes no memory.
#[cycle(take_out_over)]
pub(crate) fn take_out_over(other: &Trie, own: &mut Trie)
    requires other { is_trie other.now ≡ true }
    requires own { is_trie own.old ≡ true }
    ensures { IsCombination Combination.WithoutOver own.old other.now own.new }
{
    let Trie { here, below } = own;
    *here = *here && !other.has_paths();
    if Combination::WithoutOver.searches(below.len(), other.below.len()) {
        take_out_found(&other.below, below);
    } else {
        take_out_beside(&other.below, below);
    }
}
