//! Where in a schema the walk stands, and what holds there.
ghost use Rattle.std.specs.Prelude.{◌≡◌};
ghost use Rattle.ssa_model.specs.definitions.Schema.{is_at_root, is_in_atomic, standing_inside};
ghost use Rattle.ssa_json.specs.View.{members_view};
ghost use Rattle.ssa_schema.specs.Standings.{standing_view};

use crate::read::members::is_atomic;
use ssa_json::value::Json;
use ssa_members::Members;

/// Where a schema stands: as the root, below it, or inside an atomic value.
#[derive(Clone, Copy, Debug, PartialEq, Eq)]
pub enum Standing {
    Root,
    Below,
    InAtomic,
}

impl Standing {
    /// Whether it is the root.
    pub fn is_at_root(&self) -> bool
        ensures { result ≡ is_at_root (standing_view self.now) }
    {
        matches!(self, Standing::Root)
    }

    /// Whether it is inside an atomic value.
    pub fn is_in_atomic(&self) -> bool
        ensures { result ≡ is_in_atomic (standing_view self.now) }
    {
        matches!(self, Standing::InAtomic)
    }

    /// Where the schemas inside stand.
    pub fn inside(&self, members: &Members<Json>) -> Standing
        ensures { standing_view result ≡ standing_inside (standing_view self.now) (members_view members.now.entries) }
    {
        if self.is_in_atomic() || is_atomic(members) {
            Standing::InAtomic
        } else {
            Standing::Below
        }
    }
}
