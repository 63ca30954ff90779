//! The paths of a trie, one after another, as ways of references to its elements.
ghost use Rattle.std.specs.Prelude.{◌≡◌, ◌++◌, ◌^◌, ◌-◌, true, length, min, IfOk, OnOk};
ghost use Rattle.ssa_path.specs.Listing.{behind, paths_rise, way_view, ways_view, IsListed};
ghost use Rattle.ssa_path.specs.Trie.{here_path, is_trie, paths};

use crate::element::Elem;
use crate::path::{Path, copy_way};
use crate::trie::Trie;
use std::alloc::{AllocError, Global};

/// The paths that ways lead along, made of copies of their elements.
pub(crate) fn copy_ways(alloc: Global, ways: &[Vec<&Elem>]) -> Result<Vec<Path>, AllocError>
    ensures { IfOk result (λ paths. paths.items ≡ ways_view ways.now) }
{
    let mut paths = Vec::with_capacity(alloc, ways.len())?;
    for way in ways {
        let elements = copy_way(alloc, way)?;
        paths.push(Path::new(elements))?;
    }
    Ok(paths)
}

// Adds the way to the place itself, where it is in the set.
fn list_here<'a>(
    alloc: Global,
    here: bool,
    way: &[&'a Elem],
    listed: &mut Vec<Vec<&'a Elem>>,
) -> Result<(), AllocError>
    ensures { OnOk result (ways_view listed.new.items ≡ ways_view listed.old.items ++ behind (way_view way.now) (here_path here)) }
{
    if here {
        let mut own = Vec::with_capacity(alloc, way.len())?;
        own.extend_from_slice(way)?;
        listed.push(own)?;
    }
    Ok(())
}

// Adds the ways along the paths of a trie to which this way leads, in path order.
pub(crate) fn list_ways<'a>(
    alloc: Global,
    trie: &'a Trie,
    way: &mut Vec<&'a Elem>,
    listed: &mut Vec<Vec<&'a Elem>>,
) -> Result<(), AllocError>
    requires { is_trie trie.now ≡ true }
    ensures listed { OnOk result (IsListed (way_view way.old.items) trie.now (ways_view listed.old.items) (ways_view listed.new.items)) }
    ensures way { OnOk result (way.new.items ≡ way.old.items) }
{
    list_here(alloc, trie.here, way, listed)?;
    for child in &trie.below {
        way.push(&child.0)?;
        list_ways(alloc, &child.1, way, listed)?;
        let _ = way.pop();
    }
    Ok(())
}

/// How many paths a trie has, or `usize::MAX` where there are more.
pub fn count_paths(trie: &Trie) -> usize
    requires { is_trie trie.now ≡ true }
    ensures count { result ≡ min (length (paths trie.now)) (2 ^ 64 - 1) }
    ensures rise { paths_rise (paths trie.now) ≡ true }
{
    let mut count: usize = if trie.here { 1 } else { 0 };
    for child in &trie.below {
        count = count.saturating_add(count_paths(&child.1));
    }
    count
}
