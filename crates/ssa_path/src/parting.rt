//! What each of two sets of paths has alone, by one walk over both tries.
ghost use Rattle.std.specs.Prelude.{◌≡◌, ◌&&◌, true, IfOk, OnOk};
ghost use Rattle.ssa_path.specs.View.{element_view};
ghost use Rattle.ssa_path.specs.Trie.{is_trie, is_filled};
ghost use Rattle.ssa_path.specs.Combine.{IsCombination, IsGrown, IsKept};
ghost use Rattle.ssa_path.specs.Parting.{IsLeft};

use crate::children::order_at;
use crate::combine::Combination;
use crate::element::Elem;
use crate::trie::{Trie, copy_child};
use ssa_members::push_closely;
use std::alloc::{AllocError, Global};
use std::cmp::Ordering;

/// What each of two sets has alone.
#[derive(Drop)]
pub struct Parting {
    pub own: Trie,
    pub other: Trie,
}

// Adds a copy of a child that one set has alone.
fn push_alone(
    alloc: Global,
    children: &mut Vec<(Elem, Trie)>,
    child: &(Elem, Trie),
) -> Result<(), AllocError>
    ensures { OnOk result (IsKept true child.now children.old.items children.new.items) }
{
    push_closely(children, copy_child(alloc, child)?)?;
    Ok(())
}

// Adds what is left of a child behind the others, unless it has no path.
fn push_left(
    alloc: Global,
    children: &mut Vec<(Elem, Trie)>,
    element: &Elem,
    left: Trie,
) -> Result<(), AllocError>
    requires { is_trie left ≡ true }
    ensures { OnOk result (IsGrown (element_view element.now) left children.old.items children.new.items) }
{
    if left.has_paths() {
        let own = element.copy(alloc)?;
        push_closely(children, (own, left))?;
    }
    Ok(())
}

// Adds what each of two children of one element has alone. Places with none below are in both sets.
#[cycle(part)]
fn push_parted(
    alloc: Global,
    own: &(Elem, Trie),
    other: &(Elem, Trie),
    own_left: &mut Vec<(Elem, Trie)>,
    other_left: &mut Vec<(Elem, Trie)>,
) -> Result<(), AllocError>
    requires own { (is_trie own.now.1 && is_filled own.now.1) ≡ true }
    requires other { (is_trie other.now.1 && is_filled other.now.1) ≡ true }
    ensures own { OnOk result (IsLeft own.now other.now own_left.old.items own_left.new.items) }
    ensures other { OnOk result (IsLeft other.now own.now other_left.old.items other_left.new.items) }
{
    if own.1.below.is_empty() && other.1.below.is_empty() {
        return Ok(());
    }
    let parted = part(alloc, &own.1, &other.1)?;
    push_left(alloc, own_left, &own.0, parted.own)?;
    push_left(alloc, other_left, &other.0, parted.other)?;
    Ok(())
}

/// What each of two sets has that the other lacks, by one walk along both.
///
/// The results take room closely: a place's only child takes room for itself alone.
#[cycle(part)]
pub fn part(alloc: Global, own: &Trie, other: &Trie) -> Result<Parting, AllocError>
    requires own { is_trie own.now ≡ true }
    requires other { is_trie other.now ≡ true }
    ensures own { IfOk result (λ p. IsCombination Combination.Minus own.now other.now p.own) }
    ensures other { IfOk result (λ p. IsCombination Combination.Minus other.now own.now p.other) }
{
    let mut own_left = Vec::new(alloc);
    let mut other_left = Vec::new(alloc);
    let mut i = 0;
    let mut j = 0;
    while let Some(order) = order_at(&own.below, i, &other.below, j) {
        match order {
            Ordering::Less => {
                push_alone(alloc, &mut own_left, &own.below[i])?;
                i += 1;
            }
            Ordering::Greater => {
                push_alone(alloc, &mut other_left, &other.below[j])?;
                j += 1;
            }
            Ordering::Equal => {
                let (mine, theirs) = (&own.below[i], &other.below[j]);
                push_parted(alloc, mine, theirs, &mut own_left, &mut other_left)?;
                i += 1;
                j += 1;
            }
        }
    }
    Ok(Parting {
        own: Trie {
            here: own.here && !other.here,
            below: own_left,
        },
        other: Trie {
            here: other.here && !own.here,
            below: other_left,
        },
    })
}
