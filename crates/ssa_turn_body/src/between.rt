//! The changes that lead from one body to another.
ghost use Rattle.std.specs.Prelude.{◌≡◌, IfOk};
ghost use Rattle.ssa_model.specs.definitions.Body as model;
ghost use Rattle.ssa_model.specs.definitions.Record.{body_record};
ghost use Rattle.ssa_model.specs.laws.RecordWalks.{AreAlike as AreOfOneClass};
ghost use Rattle.ssa_typed.specs.Alike.{AreAlike};
ghost use Rattle.ssa_turn_body.specs.Bodies.{BodyStepsFit, IsBodyTurned};
ghost use Rattle.ssa_turn_body.specs.Records.{body_told};
ghost use Rattle.ssa_turn_body.specs.Rooms.{HasBodyRoom};
ghost use Rattle.ssa_turn_body.specs.declared.steps.BodySteps as declared;

use crate::steps::BodySteps;
use crate::walk::steps_below;
use ssa_typed::body::Body;
use std::alloc::{AllocError, Global};

/// The changes that lead from one body to another, with their room.
///
/// At a place there is a change only where both have leaves that differ, or where children go, come
/// or stand in another order; inner places come before outer ones. What comes is moved out of the
/// second body. Where both bodies have a path they may have a scalar and an atomic value there: then
/// the steps exchange them, which no record says.
pub fn steps_between(alloc: Global, from: &Body, to: Body) -> Result<BodySteps, AllocError>
    requires alike { AreAlike from.now to }
    ensures fits { IfOk result (λ s. BodyStepsFit s from.now) }
    ensures record { AreOfOneClass from.now to → IfOk result (λ s. body_told s ≡ body_record from.now to) }
    ensures room { AreOfOneClass from.now to → IfOk result (λ s. HasBodyRoom s from.now) }
    ensures leads { IfOk result (λ s. (t : declared.BodySteps) (c : model.Body) → IsBodyTurned s from.now t c → c ≡ to) }
{
    let mut second = to;
    let root = second.take_root(alloc);
    let mut path = Vec::new(alloc);
    let mut steps = Vec::new(alloc);
    steps_below(alloc, &mut path, from.root(), root, &mut steps)?;
    Ok(BodySteps { steps })
}
