//! What a command takes from the managers that own it.
ghost use Rattle.std.specs.Prelude.{◌≡◌, IfOk};
ghost use Rattle.ssa_model.specs.definitions.PathMap.{is_empty, minus};

use ssa_path::field_set::FieldSet;
use ssa_path::shared_set::SharedSet;
use std::alloc::{AllocError, Global};
use std::marker::Model;

/// Paths that managers lose, of which those who own them all hold one set, and where the last of them had one.
///
/// In contracts it is the set of the paths.
#[derive(Drop)]
pub(crate) struct Loss<'a> {
    paths: &'a FieldSet,
    near: usize,
    shared: Option<SharedSet>,
}

impl<'a> Model for Loss<'a> {
    ghost use Rattle.std.specs.Prelude.{◌≡◌, IfSome};
    ghost use Rattle.ssa_model.specs.definitions.PathMap.{PathSet};
    ghost use Rattle.ssa_model.specs.codes.Codes.{coded_set};

    ghost Value = { PathSet };

    ghost coded = { coded_set };

    ghost view = { λ l. l.paths.now };

    ghost invariant = { λ l. IfSome l.shared (λ s. s ≡ l.paths.now) };
}

impl<'a> Loss<'a> {
    /// The loss of these paths. Takes no memory.
    pub(crate) fn new(paths: &'a FieldSet) -> Loss<'a>
        ensures { result ≡ paths.now }
    {
        Loss {
            paths,
            near: 0,
            shared: None,
        }
    }

    /// The paths.
    pub(crate) fn paths(&self) -> &'a FieldSet
        ensures { result.now ≡ self.now }
    {
        self.paths
    }

    /// Whether a set has all of the paths. Each is looked for first where the last set had one.
    pub(crate) fn is_within(&mut self, set: &FieldSet) -> bool
        ensures answer { result ≡ is_empty (minus self.old set.now) }
        ensures same { self.new ≡ self.old }
    {
        self.paths.is_within_near(set, &mut self.near)
    }

    /// All of the paths, for one more who loses them.
    ///
    /// They are copied for the first, with no more room than they need: records keep them for long.
    pub(crate) fn share(&mut self, alloc: Global) -> Result<SharedSet, AllocError>
        ensures set { IfOk result (λ s. s ≡ self.old) }
        ensures same { self.new ≡ self.old }
    {
        if let Some(set) = &self.shared {
            return set.share();
        }
        let set = SharedSet::new(alloc, self.paths.copy(alloc)?)?;
        let given = set.share()?;
        self.shared = Some(set);
        Ok(given)
    }
}
