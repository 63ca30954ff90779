//! What a live tree loses where a configuration is put over it and places are given up. Nothing is merged for it: one walk
//! along the paths that go.
ghost use Rattle.std.specs.Prelude.{◌≡◌, ◌&&◌, ◌||◌, ◌==◌, is_some, length, not, true, Some, IfOk};
ghost use Rattle.std.specs.Option.{option_copied};
ghost use Rattle.ssa_path.specs.Children.{elements, rises};
ghost use Rattle.ssa_path.specs.Trie.{are_filled_tries, is_trie, paths, paths_below};
ghost use Rattle.ssa_typed.specs.Cut.{is_filled_in, paths_of};
ghost use Rattle.ssa_typed.specs.LostWith.{all_here, tries_in, AreFallen, AreLost, IsFallen, IsFree};
ghost use Rattle.ssa_typed.specs.Lookup.{is_tree_in};
ghost use Rattle.ssa_typed.specs.Rows.{below, is_tree};

use crate::lookup::lookup_in;
use crate::node::Node;
use crate::points::is_point;
use ssa_path::children::find_child;
use ssa_path::combine::push_filled;
use ssa_path::element::Elem;
use ssa_path::trie::Trie;
use std::alloc::{AllocError, Global};

// What a trie has below its place, nothing where there is no trie.
fn tries_below(trie: Option<&Trie>) -> &[(Elem, Trie)]
    ensures { result.now ≡ tries_in (option_copied trie.entry) }
{
    match trie {
        Some(trie) => &trie.below,
        None => &[],
    }
}

// Whether each of so many children goes, of which these have places that go.
fn all_go(fallen: &[(Elem, Trie)], children: usize) -> bool
    ensures { result ≡ ((length fallen.now == children) && all_here fallen.now) }
{
    if fallen.len() != children {
        return false;
    }
    for part in fallen {
        if !part.1.here {
            return false;
        }
    }
    true
}

// Whether a live child stays: as a point, with the configuration's child of its element, or with what is held of it.
fn stays_itself(point: bool, config: Option<&Node>, held: Option<&Trie>) -> bool
    ensures { result ≡ (point || (is_some (option_copied config.entry) || is_some (option_copied held.entry))) }
{
    point || config.is_some() || held.is_some()
}

// Whether a live child goes: where it does not stay itself, and all its children go.
fn goes_itself(live: &Node, stays: bool, fallen: &[(Elem, Trie)]) -> bool
    ensures { result ≡ (not stays && ((length fallen.now == length (below live.now)) && all_here fallen.now)) }
{
    !stays && all_go(fallen, live.children().len())
}

// The places below a live node that go, each child's behind its element. A child that has no path of `gone` is not looked at.
#[cycle(falling)]
fn fallen_below(
    alloc: Global,
    live: &Node,
    config: Option<&Node>,
    gone: &[(Elem, Trie)],
    held: &[(Elem, Trie)],
) -> Result<Vec<(Elem, Trie)>, AllocError>
    requires live { is_tree live.now ≡ true }
    requires config { is_tree_in (option_copied config) ≡ true }
    requires gone_rise { rises (elements gone.now) ≡ true }
    requires gone_tries { are_filled_tries gone.now ≡ true }
    requires held_rise { rises (elements held.now) ≡ true }
    requires held_tries { are_filled_tries held.now ≡ true }
    requires free { IsFree (option_copied config) (paths_below gone.now) (paths_below held.now) }
    ensures { IfOk result (λ v. AreFallen live.now (option_copied config.entry) (paths_below gone.now) (paths_below held.now) v.items) }
{
    let in_dict = live.is_dict();
    let own = &live.lookup(alloc, gone.len())?;
    let beside = &lookup_in(alloc, config, gone.len())?;
    let mut fallen = Vec::new(alloc);
    for part in gone {
        let Some(child) = own.find(&part.0) else {
            continue;
        };
        let point = is_point(&part.0, child, in_dict);
        let other = beside.find(&part.0);
        let above = find_child(held, &part.0);
        let trie = fallen_child(alloc, child, point, other, &part.1, above)?;
        push_filled(alloc, &mut fallen, &part.0, trie)?;
    }
    Ok(fallen)
}

// The places at and below a live child that go. The child itself goes where all its children do, unless it is a point, the
// configuration has it, or something of it is held.
#[cycle(falling)]
fn fallen_child(
    alloc: Global,
    live: &Node,
    point: bool,
    config: Option<&Node>,
    gone: &Trie,
    held: Option<&Trie>,
) -> Result<Trie, AllocError>
    requires live { is_tree live.now ≡ true }
    requires config { is_tree_in (option_copied config) ≡ true }
    requires gone { is_trie gone.now ≡ true }
    requires held { is_filled_in (option_copied held) ≡ true }
    requires free { IsFree (option_copied config) (paths gone.now) (paths_of (option_copied held)) }
    ensures { IfOk result (λ t. IsFallen point live.now (option_copied config.entry) (paths gone.now) (paths_of (option_copied held.entry)) t) }
{
    if gone.here {
        let all = live.all_places(alloc)?;
        return Ok(all);
    }
    let below = fallen_below(alloc, live, config, &gone.below, tries_below(held))?;
    let here = goes_itself(live, stays_itself(point, config, held), &below);
    Ok(Trie { here, below })
}

// The places of a live tree that go. Its root stays.
pub(crate) fn fallen_paths(
    alloc: Global,
    live: &Node,
    config: &Node,
    gone: &Trie,
    held: &Trie,
) -> Result<Trie, AllocError>
    requires live { is_tree live.now ≡ true }
    requires config { is_tree config.now ≡ true }
    requires gone { is_trie gone.now ≡ true }
    requires held { is_trie held.now ≡ true }
    requires free { IsFree (Some config.now) (paths gone.now) (paths held.now) }
    ensures { IfOk result (λ t. AreLost live.now config.now (paths gone.now) (paths held.now) t) }
{
    let below = fallen_below(alloc, live, Some(config), &gone.below, &held.below)?;
    Ok(Trie { here: false, below })
}
