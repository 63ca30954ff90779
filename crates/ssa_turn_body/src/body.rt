//! Bodies, changed in place by steps that become those that lead back.
ghost use Rattle.ssa_turn_body.specs.Bodies.{BodyStepsFit, IsBodyTurned, LeadsToRooted};
ghost use Rattle.ssa_turn_body.specs.Rooms.{HasBodyRoom};

use crate::steps::BodySteps;
use ssa_typed::body::Body;

/// Makes the changes in a body; the steps are then those that lead back. Takes no memory.
pub fn turn_body(body: &mut Body, changes: &mut BodySteps)
    requires fits { BodyStepsFit changes.old body.old }
    requires rooted { LeadsToRooted changes.old body.old }
    ensures leads { IsBodyTurned changes.old body.old changes.new body.new }
    ensures back { BodyStepsFit changes.new body.new }
    ensures room { HasBodyRoom changes.old body.old → HasBodyRoom changes.new body.new }
{
    let mut root = body.take_root(*changes.steps.allocator());
    changes.turn(&mut root);
    body.set_root(root);
}
