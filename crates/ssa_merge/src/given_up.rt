//! What an applier gives up, and what the live body loses by that.
ghost use Rattle.std.specs.Prelude.{◌≡◌, not, ◌&&◌, true, IfOk};
ghost use Rattle.ssa_model.specs.definitions.PathMap.{has_at_or_below, paths, set_of};
ghost use Rattle.ssa_model.specs.definitions.Path.{is_key_field, is_root};
ghost use Rattle.ssa_model.specs.definitions.Body.{points, removed};
ghost use Rattle.ssa_model.specs.definitions.Table.{owned_by, owned_by_others};
ghost use Rattle.ssa_model.specs.definitions.Operations.{dropped, pruned};
ghost use Rattle.ssa_model.specs.definitions.Valid.{AllEntries, OwnsOwnable};
ghost use Rattle.ssa_typed.specs.Alike.{AreAlike};
ghost use Rattle.ssa_merge.specs.Absent.{absent};
ghost use Rattle.ssa_merge.specs.Managers.{key_view, table_view};
ghost use Rattle.ssa_merge.specs.States.{state_view};

use crate::manager::ManagerKey;
use crate::managers::Entry;
use crate::owned::owned_over;
use crate::state::State;
use ssa_path::field_set::FieldSet;
use ssa_path::path::Path;
use ssa_typed::body::Body;
use std::alloc::{AllocError, Global};

// The set without the root.
fn without_root(alloc: Global, set: FieldSet) -> FieldSet
    ensures { result ≡ set_of (paths set) (λ p. not (is_root p)) }
{
    let mut rest = set;
    rest.remove(&Path::new(Vec::new(alloc)));
    rest
}

// The paths of the manager's in its part at which its configuration has nothing: none where it owns the points of the
// configuration already. The points tell its places, so that no walk over it is needed.
fn left_out(
    alloc: Global,
    state: &State,
    key: &ManagerKey,
    config: &Body,
    config_points: &FieldSet,
    keeps: bool,
) -> Result<FieldSet, AllocError>
    requires points { config_points.now ≡ points config.now }
    requires kept { keeps ≡ true → owned_by state.now.managers (key_view key.now) ≡ config_points.now }
    ensures { IfOk result (λ s. s ≡ absent (state_view state.now) (key_view key.now) config.now) }
{
    if keeps {
        return Ok(FieldSet::new(alloc));
    }
    config.points_tell_places();
    match state.managers.get(key) {
        Some(entry) => {
            let mut unreached = entry.set.without_over(alloc, config_points)?;
            unreached.keep_part(key.part);
            Ok(without_root(alloc, unreached))
        }
        None => Ok(FieldSet::new(alloc)),
    }
}

// Those of the paths that are no key fields, and that have no path of the other managers at or
// below them. Takes no memory.
fn unneeded(absent: FieldSet, table: &[Entry], key: &ManagerKey) -> FieldSet
    ensures { result ≡ set_of (paths absent) (λ g. not (is_key_field g) && not (has_at_or_below (owned_by_others (table_view table.now) (key_view key.now)) g)) }
{
    let mut free = absent;
    free.remove_key_fields();
    for entry in table {
        if free.is_empty() {
            return free;
        }
        if !entry.key.is_same(key) {
            free.remove_over(&entry.set);
        }
    }
    free
}

/// The paths that a manager gives up by an Apply of a configuration and that nobody else needs. Where `keeps` tells that
/// the manager owns the points of the configuration already, nothing is looked for.
pub fn given_up(
    alloc: Global,
    state: &State,
    key: &ManagerKey,
    config: &Body,
    config_points: &FieldSet,
    keeps: bool,
) -> Result<FieldSet, AllocError>
    requires points { config_points.now ≡ points config.now }
    requires kept { keeps ≡ true → owned_by state.now.managers (key_view key.now) ≡ config_points.now }
    ensures { IfOk result (λ s. s ≡ dropped (state_view state.now) (key_view key.now) config.now) }
{
    let absent = left_out(alloc, state, key, config, config_points, keeps)?;
    Ok(unneeded(absent, state.managers.entries(), key))
}

/// What the live body loses by an Apply by which these paths are given up. The configuration is not put over it for that.
pub fn lost(
    alloc: Global,
    state: &State,
    key: &ManagerKey,
    config: &Body,
    gone: &FieldSet,
) -> Result<FieldSet, AllocError>
    requires alike { AreAlike state.now.body config.now }
    requires owned { AllEntries (OwnsOwnable state.now.body) state.now.managers }
    requires gone { gone.now ≡ dropped (state_view state.now) (key_view key.now) config.now }
    ensures { IfOk result (λ s. s ≡ removed state.now.body (pruned (state_view state.now) (key_view key.now) config.now)) }
{
    state.body.points_tell_places();
    config.points_tell_places();
    if gone.is_empty() {
        return Ok(FieldSet::new(alloc));
    }
    state.body.parts_are_of_places();
    config.parts_are_of_places();
    let held = owned_over(alloc, state.managers.entries(), key, gone)?;
    state.body.lost_with(alloc, config, gone, &held)
}
