//! A set of paths that several hold at once.
ghost use Rattle.std.specs.Prelude.{◌≡◌, true, IfOk};
ghost use Rattle.ssa_model.specs.definitions.PathMap.{listed, minus};
ghost use Rattle.ssa_path.specs.Trie.{is_trie, paths};

use crate::combine::{Combination, combine};
use crate::field_set::FieldSet;
use crate::trie::Trie;
use std::alloc::{AllocError, Global};
use std::marker::Model;
use std::rc::Rc;

/// A set of paths that several hold at once.
///
/// It is never changed, and goes with the last who holds it. In contracts it is the set itself, as a
/// [`FieldSet`] is.
#[derive(Drop)]
pub struct SharedSet {
    root: Rc<Trie>,
}

impl Model for SharedSet {
    ghost use Rattle.std.specs.Prelude.{◌≡◌, true};
    ghost use Rattle.ssa_model.specs.definitions.PathMap.{PathSet, listed};
    ghost use Rattle.ssa_model.specs.codes.Codes.{coded_set};

    ghost Value = { PathSet };

    ghost coded = { coded_set };

    ghost use Rattle.ssa_path.specs.Trie.{is_trie, paths};

    ghost view = { λ s. listed (paths s.root.value) };

    ghost invariant = { λ s. is_trie s.root.value ≡ true };
}

impl SharedSet {
    /// The set, with one who holds it.
    pub fn new(alloc: Global, mut set: FieldSet) -> Result<SharedSet, AllocError>
        ensures { IfOk result (λ s. s ≡ set) }
    {
        match Rc::new(alloc, set.take_root()) {
            Ok(root) => Ok(SharedSet { root }),
            Err(_) => Err(AllocError),
        }
    }

    /// The same set for one more who holds it. Takes no memory; `Err` comes where too many hold it.
    pub fn share(&self) -> Result<SharedSet, AllocError>
        ensures { IfOk result (λ s. s ≡ self.now) }
    {
        let root = self.root.clone()?;
        Ok(SharedSet { root })
    }

    /// What is left of a set without these paths.
    pub fn left_of(&self, alloc: Global, set: &FieldSet) -> Result<FieldSet, AllocError>
        ensures { IfOk result (λ s. s ≡ minus set.now self.now) }
    {
        let left = combine(alloc, set.root(), &self.root, Combination::Minus)?;
        Ok(FieldSet::from_root(left))
    }

    /// The trie of the set's paths, which others may hold as well.
    pub fn into_root(self) -> Rc<Trie>
        ensures same { listed (paths result.value) ≡ self }
        ensures trie { is_trie result.value ≡ true }
    {
        self.root
    }
}
