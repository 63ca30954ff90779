//! Who owns a path, what the others own, and whom a change clashes with.
ghost use Rattle.std.specs.Prelude.{◌≡◌, map, IfOk};
ghost use Rattle.ssa_model.specs.definitions.PathMap.{has_at_or_below, paths, set_of};
ghost use Rattle.ssa_model.specs.definitions.Answers.{owners_of};
ghost use Rattle.ssa_model.specs.definitions.Table.{owned_by_others};
ghost use Rattle.ssa_model.specs.definitions.Operations.{clashes};
ghost use Rattle.ssa_merge.specs.Managers.{key_view, lent_keys, table_view, clashes_view};

use crate::manager::ManagerKey;
use crate::managers::Entry;
use ssa_path::field_set::FieldSet;
use ssa_path::path::Path;
use std::alloc::{AllocError, Global};

/// The managers that own the path, in table order.
pub fn owners<'a>(
    alloc: Global,
    table: &'a [Entry],
    path: &Path,
) -> Result<Vec<&'a ManagerKey>, AllocError>
    ensures { IfOk result (λ ks. lent_keys ks.items ≡ owners_of (table_view table.now) path.now) }
{
    let mut found = Vec::new(alloc);
    for entry in table {
        if entry.set.has(path) {
            found.push(&entry.key)?;
        }
    }
    Ok(found)
}

/// The paths that managers other than this one own above the paths of a set, or at them.
pub fn owned_over(
    alloc: Global,
    table: &[Entry],
    key: &ManagerKey,
    set: &FieldSet,
) -> Result<FieldSet, AllocError>
    ensures { IfOk result (λ s. s ≡ set_of (paths (owned_by_others (table_view table.now) (key_view key.now))) (has_at_or_below set.now)) }
{
    match table {
        [] => Ok(FieldSet::new(alloc)),
        [first, rest @ ..] => {
            let others = owned_over(alloc, rest, key, set)?;
            if first.key.is_same(key) {
                return Ok(others);
            }
            let above = first.set.over(alloc, set)?;
            if above.is_empty() {
                return Ok(others);
            }
            let all = above.union(alloc, &others)?;
            Ok(all)
        }
    }
}

/// The managers other than this one that own changed fields, in table order, each with these fields. Where no field
/// changed, nobody's are looked at.
pub fn clashes(
    alloc: Global,
    table: &[Entry],
    key: &ManagerKey,
    changed: &FieldSet,
) -> Result<Vec<(ManagerKey, FieldSet)>, AllocError>
    ensures { IfOk result (λ found. clashes_view found.items ≡ clashes (key_view key.now) changed.now (table_view table.now)) }
{
    let mut found = Vec::new(alloc);
    if changed.is_empty() {
        return Ok(found);
    }
    for entry in table {
        if !entry.key.is_same(key) && changed.meets(&entry.set) {
            let fields = changed.meet(alloc, &entry.set)?;
            let other = entry.key.copy(alloc)?;
            found.push((other, fields))?;
        }
    }
    Ok(found)
}
