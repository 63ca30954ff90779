//! What a command makes of the body: told by what comes and goes, so that nothing of it is made that stays.
ghost use Rattle.std.specs.Prelude.{◌≡◌, ◌-◌, ◌^◌, min, true, IfOk};
ghost use Rattle.ssa_model.specs.definitions.Body.{points, removed};
ghost use Rattle.ssa_model.specs.definitions.Operations.{pruned};
ghost use Rattle.ssa_model.specs.definitions.PathMap.{size, PathSet};
ghost use Rattle.ssa_model.specs.definitions.Table.{owned_by};
ghost use Rattle.ssa_model.specs.definitions.Valid.{AllEntries, IsRooted, OwnsOwnable};
ghost use Rattle.ssa_typed.specs.Alike.{AreAlike};
ghost use Rattle.ssa_typed.specs.Applied.{MayGo, applied};
ghost use Rattle.ssa_typed.specs.Differences.{IsComparison, IsPartComparison};
ghost use Rattle.ssa_typed.specs.KeepsOrder.{KeepsItemOrder};
ghost use Rattle.ssa_typed.specs.NewPlaces.{Brings};
ghost use Rattle.ssa_merge.specs.Managers.{key_view};
ghost use Rattle.ssa_merge.specs.Plans.{body_after, CanStand};
ghost use Rattle.ssa_merge.specs.States.{state_view};

use crate::change::NewBody;
use crate::given_up::{given_up, lost};
use crate::manager::ManagerKey;
use crate::state::State;
use ssa_path::field_set::FieldSet;
use ssa_typed::body::Body;
use ssa_typed::compare::Comparison;
use ssa_typed::part::PartComparison;
use std::alloc::{AllocError, Global};

/// The body after, told as the live body where it is no other one.
pub fn body_if_other(live: &Body, after: Body, comparison: &Comparison) -> NewBody
    ensures body { (gone : PathSet) → body_after result gone live.now ≡ after }
    ensures stands { (gone : PathSet) → CanStand result gone live.now }
{
    if comparison.is_empty() && live.is_same(&after) {
        NewBody::Same
    } else {
        NewBody::Whole(after)
    }
}

/// The configuration over the live body, without these places. The configuration's memory becomes the body's.
pub fn laid_over(
    alloc: Global,
    live: &Body,
    config: Body,
    gone: &FieldSet,
) -> Result<Body, AllocError>
    requires alike { AreAlike live.now config }
    requires gone { MayGo live.now config gone.now }
    requires rooted { IsRooted (applied live.now config gone.now) }
    ensures { IfOk result (λ b. b ≡ applied live.now config gone.now) }
{
    config.points_tell_places();
    let merged = live.over(alloc, config)?;
    merged.without(alloc, gone)
}

// The body after an Apply by which the live body loses these places, and how many it has: as many as the live body and those that the
// configuration brings, less those that go. The configuration is put over the live body only where it has some items in another order,
// which are then exchanged by what the whole body after tells (or where no `usize` tells so many places).
fn applied_body(
    alloc: Global,
    state: &State,
    key: &ManagerKey,
    config: Body,
    in_order: bool,
    new_places: usize,
    gone: &FieldSet,
) -> Result<(NewBody, usize), AllocError>
    requires alike { AreAlike state.now.body config }
    requires brings { Brings state.now.body config new_places }
    requires order { in_order ≡ true → KeepsItemOrder state.now.body config }
    requires owned { AllEntries (OwnsOwnable state.now.body) state.now.managers }
    requires gone { gone.now ≡ removed state.now.body (pruned (state_view state.now) (key_view key.now) config) }
    ensures body { IfOk result (λ b. body_after b.0 gone.now state.now.body ≡ pruned (state_view state.now) (key_view key.now) config) }
    ensures stands { IfOk result (λ b. CanStand b.0 gone.now state.now.body) }
    ensures places { IfOk result (λ b. b.1 ≡ min (size (body_after b.0 gone.now state.now.body)) (2 ^ 64 - 1)) }
{
    state.body.points_tell_places();
    config.points_tell_places();
    state.body.parts_are_of_places();
    config.parts_are_of_places();
    state.body.stands_rooted();
    config.stands_rooted();
    if in_order {
        let together = state.body.size().saturating_add(new_places);
        if together < usize::MAX {
            return Ok((NewBody::Over(config), together.saturating_sub(gone.len())));
        }
    }
    let body = laid_over(alloc, &state.body, config, gone)?;
    let places = body.size();
    Ok((NewBody::Whole(body), places))
}

/// What an Apply makes of the body, how it then differs from the one before, and how many places it has: `usize::MAX` where there
/// are more.
#[derive(Drop)]
pub struct BodyChange {
    pub body: NewBody,
    pub comparison: Comparison,
    pub places: usize,
}

/// What an Apply of a configuration makes of the body, where it is told how the configuration differs from the live body.
/// Where `keeps` tells that the manager owns the points of the configuration already, it gives up nothing. A
/// configuration that repeats what is there, its items in the order in which they stand, and by which nothing goes, is let go.
pub fn body_change(
    alloc: Global,
    state: &State,
    key: &ManagerKey,
    config: Body,
    told: PartComparison,
    config_points: &FieldSet,
    keeps: bool,
) -> Result<BodyChange, AllocError>
    requires alike { AreAlike state.now.body config }
    requires owned { AllEntries (OwnsOwnable state.now.body) state.now.managers }
    requires told { IsPartComparison state.now.body config told }
    requires points { config_points.now ≡ points config }
    requires kept { keeps ≡ true → owned_by state.now.managers (key_view key.now) ≡ config_points.now }
    ensures body { IfOk result (λ m. body_after m.body m.comparison.removed state.now.body ≡ pruned (state_view state.now) (key_view key.now) config) }
    ensures comparison { IfOk result (λ m. IsComparison state.now.body (pruned (state_view state.now) (key_view key.now) config) m.comparison) }
    ensures stands { IfOk result (λ m. CanStand m.body m.comparison.removed state.now.body) }
    ensures places { IfOk result (λ m. m.places ≡ min (size (body_after m.body m.comparison.removed state.now.body)) (2 ^ 64 - 1)) }
{
    let gone = given_up(alloc, state, key, &config, config_points, keeps)?;
    state.body.points_tell_places();
    config.points_tell_places();
    let in_order = state.body.keeps_order(alloc, &config)?;
    if in_order && gone.is_empty() && told.repeats {
        state.body.points_keep_all();
        let comparison = Comparison::of_same(alloc);
        return Ok(BodyChange {
            body: NewBody::Same,
            comparison,
            places: state.body.size(),
        });
    }
    let removed = lost(alloc, state, key, &config, &gone)?;
    let new_places = told.new_places;
    let (body, places) = applied_body(alloc, state, key, config, in_order, new_places, &removed)?;
    Ok(BodyChange {
        body,
        comparison: Comparison {
            added: told.added,
            modified: told.modified,
            removed,
        },
        places,
    })
}
