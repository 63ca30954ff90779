//! Laws over definitions: what turns are in the words of bodies, and that a second turn leads back.
ghost use Rattle.ssa_turn_body.specs.Bodies.{TurnsLeadBack};
ghost use Rattle.ssa_turn_body.specs.Inner.{InnerStepsFit};
ghost use Rattle.ssa_turn_body.specs.Rooms.{TurnsKeepRoom};
ghost use Rattle.ssa_turn_body.specs.Told.{EditTurnTold, LeafTurnTold, MarksTellContents};
ghost use Rattle.ssa_turn_body.specs.Turns.{TreeTurnsLeadBack};

/// A body has at each path the content that the marks of its tree tell.
pub fn marks_tell_contents()
    ensures { MarksTellContents }
{}

/// A leaf that is exchanged is another content at its path alone.
pub fn leaf_turn_told()
    ensures { LeafTurnTold }
{}

/// An edit of children changes what stands at and below its place alone, as its places say.
pub fn edit_turn_told()
    ensures { EditTurnTold }
{}

/// Changes that each fit the tree fit one after the other, where each place has one of them and
/// those of inner places stand before those of outer ones.
pub fn inner_steps_fit()
    ensures { InnerStepsFit }
{}

/// A second turn of a tree leaves the tree and the steps as they were.
pub fn tree_turns_lead_back()
    ensures { TreeTurnsLeadBack }
{}

/// A second turn of a body leaves the body and the steps as they were.
pub fn turns_lead_back()
    ensures { TurnsLeadBack }
{}

/// A turn of a body leaves steps that serve the way back, and say its record.
pub fn turns_keep_room()
    ensures { TurnsKeepRoom }
{}
