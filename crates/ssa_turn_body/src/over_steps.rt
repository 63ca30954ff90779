//! The changes that lead from a live body to what it is with a configuration put over it and some places gone.
ghost use Rattle.std.specs.Prelude.{◌≡◌, IfOk};
ghost use Rattle.ssa_model.specs.definitions.Body as model;
ghost use Rattle.ssa_model.specs.definitions.Record.{body_record};
ghost use Rattle.ssa_model.specs.laws.RecordWalks.{AreAlike as AreOfOneClass};
ghost use Rattle.ssa_typed.specs.Alike.{AreAlike};
ghost use Rattle.ssa_typed.specs.Applied.{applied, MayGo};
ghost use Rattle.ssa_typed.specs.KeepsOrder.{KeepsItemOrder};
ghost use Rattle.ssa_turn_body.specs.Bodies.{BodyStepsFit, IsBodyTurned};
ghost use Rattle.ssa_turn_body.specs.Records.{body_told};
ghost use Rattle.ssa_turn_body.specs.Rooms.{HasBodyRoom};
ghost use Rattle.ssa_turn_body.specs.declared.steps.BodySteps as declared;

use crate::over_walk::over;
use crate::steps::BodySteps;
use ssa_path::field_set::FieldSet;
use ssa_typed::body::Body;
use std::alloc::{AllocError, Global};

/// The changes that lead from a live body to what it is with a configuration put over it and these
/// places gone, with their room. The items that both have stand in one order in each list
/// ([`keeps_order`](Body::keeps_order)).
///
/// No merged body is made: one walk over the configuration and the places that go, along the live
/// body. What comes is moved out of the configuration. Where both bodies have a path they may have a
/// scalar and an atomic value there: then the steps exchange them, which no record says.
pub fn steps_over(
    alloc: Global,
    live: &Body,
    config: Body,
    gone: &FieldSet,
) -> Result<BodySteps, AllocError>
    requires alike { AreAlike live.now config }
    requires gone { MayGo live.now config gone.now }
    requires order { KeepsItemOrder live.now config }
    ensures fits { IfOk result (λ s. BodyStepsFit s live.now) }
    ensures record { AreOfOneClass live.now (applied live.now config gone.now) → IfOk result (λ s. body_told s ≡ body_record live.now (applied live.now config gone.now)) }
    ensures room { AreOfOneClass live.now (applied live.now config gone.now) → IfOk result (λ s. HasBodyRoom s live.now) }
    ensures leads { IfOk result (λ s. (t : declared.BodySteps) (c : model.Body) → IsBodyTurned s live.now t c → c ≡ applied live.now config gone.now) }
{
    let mut second = config;
    let mut root = second.take_root(alloc);
    let mut way = Vec::new(alloc);
    let mut steps = Vec::new(alloc);
    let lost = gone.root();
    over(
        alloc,
        &mut way,
        live.root(),
        &mut root,
        &lost.below,
        &mut steps,
    )?;
    Ok(BodySteps { steps })
}
