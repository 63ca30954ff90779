//! Bodies of which one may be put over the other.
ghost use Rattle.ssa_typed.specs.Alike.{BodiesAreAlike};

/// Two bodies of one kind have the same sort of content wherever both have some.
pub fn bodies_are_alike()
    ensures { BodiesAreAlike }
{}
