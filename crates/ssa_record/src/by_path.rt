//! Values under paths that are lent, in path order.
ghost use Rattle.std.specs.Prelude.{◌≡◌, ◌++◌, true, IfOk};
ghost use Rattle.std.specs.Option.{option_copied};
ghost use Rattle.ssa_model.specs.definitions.Path.{path_cmp};
ghost use Rattle.ssa_path.specs.TopPaths.{last_view, lent_path};
ghost use Rattle.ssa_path.specs.View.{path_view};
ghost use Rattle.ssa_record.specs.PathOrder.{by_lent_path, lent_rise, value_at, IsPathSearch};

use ssa_path::element::Elem;
use ssa_path::top_path::LentPath;
use std::alloc::{AllocError, Global};
use std::cmp::Ordering;
use std::collections::BTreeMap;

/// Values under paths, one of each path, in path order. A path is found by its parts, however long
/// these are lent.
#[derive(Drop)]
pub struct ByPath<'a, V> {
    pub entries: Vec<(LentPath<'a>, V)>,
    ghost rising: { lent_rise entries.items ≡ true },
}

// The order of two paths, each lent for its own time.
fn order(path: &LentPath<'_>, other: &LentPath<'_>) -> Ordering
    ensures { result ≡ path_cmp (lent_path path.now) (lent_path other.now) }
{
    path.cmp(other)
}

// The place of the value of a path, or the place where one may be put.
fn search<V>(entries: &[(LentPath<'_>, V)], key: &LentPath<'_>) -> Result<usize, usize>
    requires { lent_rise entries.now ≡ true }
    ensures { IsPathSearch (lent_path key.now) entries.now result }
{
    entries.binary_search_by(|entry| order(&entry.0, key))
}

// The value of a path.
fn find<'e, V>(entries: &'e [(LentPath<'_>, V)], key: &LentPath<'_>) -> Option<&'e V>
    requires { lent_rise entries.now ≡ true }
    ensures { option_copied result ≡ value_at (lent_path key.now) entries.now }
{
    match search(entries, key) {
        Ok(i) => Some(&entries[i].1),
        Err(_) => None,
    }
}

// The values by their paths, the first of each path.
fn sorted<'a, V: Drop>(
    alloc: Global,
    told: Vec<(LentPath<'a>, V)>,
) -> Result<BTreeMap<LentPath<'a>, V>, AllocError>
    ensures { IfOk result (λ m. m.entries ≡ by_lent_path told.entry.items) }
{
    let mut rest = told;
    let mut sorted = BTreeMap::new(alloc);
    while let Some((path, value)) = rest.pop() {
        drop(sorted.insert(path, value)?);
    }
    Ok(sorted)
}

impl<'a, V: Drop> ByPath<'a, V> {
    /// The values by their paths, the first of each path. Takes about n log n comparisons of paths.
    pub fn of(alloc: Global, told: Vec<(LentPath<'a>, V)>) -> Result<ByPath<'a, V>, AllocError>
        ensures { IfOk result (λ t. t.entries.items ≡ by_lent_path told.entry.items) }
    {
        let sorted = sorted(alloc, told)?;
        let entries = sorted.into_iter().collect(alloc)?;
        Ok(ByPath { entries })
    }

    /// The value of the path of a place, or of the child of an element there. Takes about log n
    /// comparisons of paths.
    pub fn get(&self, place: &[Elem], last: Option<&Elem>) -> Option<&V>
        ensures { option_copied result ≡ value_at (path_view place.now ++ last_view last.entry) self.now.entries.items }
    {
        find(&self.entries, &LentPath { place, last })
    }
}
