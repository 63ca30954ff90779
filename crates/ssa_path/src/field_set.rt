//! Sets of paths.
ghost use Rattle.std.specs.Prelude.{◌≡◌, ◌-◌, ◌^◌, true, not, min, IfOk, OnOk, OnErr};
ghost use Rattle.ssa_model.specs.definitions.Path.{is_key_field, same_path};
ghost use Rattle.ssa_model.specs.definitions.PathMap.{empty, has, has_at_or_above, has_at_or_below, insert, is_empty, minus, same_set, set_of, size, union, listed};
ghost use Rattle.ssa_model.specs.definitions.PathMap as set;
ghost use Rattle.ssa_model.specs.definitions.Parts.{is_path_of};
ghost use Rattle.ssa_path.specs.Meet.{meet, combined};
ghost use Rattle.ssa_path.specs.Listing.{ways_view};
ghost use Rattle.ssa_path.specs.Subresources.{part_view};
ghost use Rattle.ssa_path.specs.Trie.{is_trie, paths};

use crate::combine::{Combination, combine};
use crate::element::Elem;
use crate::key_fields::take_out_key_fields;
use crate::listing::{copy_ways, count_paths, list_ways};
use crate::part::Part;
use crate::path::Path;
use crate::same::same_tries;
use crate::taking_out::take_out_over;
use crate::trie::Trie;
use crate::within::{lies_within, lies_within_near, share_path};
use std::alloc::{AllocError, Global};
use std::marker::Model;
use std::{fmt, mem};

/// A set of paths.
///
/// Two sets with the same paths are equal in every contract, whatever was done to make them.
#[derive(Drop)]
pub struct FieldSet {
    root: Trie,
}

impl Model for FieldSet {
    ghost use Rattle.std.specs.Prelude.{◌≡◌, true};
    ghost use Rattle.ssa_model.specs.definitions.PathMap.{PathSet, listed};
    ghost use Rattle.ssa_model.specs.codes.Codes.{coded_set};

    ghost Value = { PathSet };

    ghost coded = { coded_set };

    ghost use Rattle.ssa_path.specs.Trie.{is_trie, paths};

    ghost view = { λ s. listed (paths s.root) };

    ghost invariant = { λ s. is_trie s.root ≡ true };
}

// A set may have 20,000 paths: none is shown.
impl fmt::Debug for FieldSet {
    fn fmt<W: fmt::Write>(&self, f: &mut fmt::Formatter<W>) -> fmt::Result {
        f.debug_struct("FieldSet").finish_non_exhaustive()
    }
}

impl FieldSet {
    /// The set with no path. Takes no memory.
    pub fn new(alloc: Global) -> FieldSet
        ensures { result ≡ empty }
    {
        FieldSet {
            root: Trie {
                here: false,
                below: Vec::new(alloc),
            },
        }
    }

    /// The set of a trie's paths.
    pub fn from_root(root: Trie) -> FieldSet
        requires { is_trie root ≡ true }
        ensures { result ≡ listed (paths root) }
    {
        FieldSet { root }
    }

    /// The trie of the set's paths.
    pub fn root(&self) -> &Trie
        ensures same { listed (paths result.now) ≡ self.now }
        ensures trie { is_trie result.now ≡ true }
    {
        &self.root
    }

    /// Takes out the trie of the set's paths, which leaves the empty set. Takes no memory.
    pub fn take_root(&mut self) -> Trie
        ensures same { listed (paths result) ≡ self.old }
        ensures trie { is_trie result ≡ true }
        ensures left { self.new ≡ empty }
    {
        let none = Trie {
            here: false,
            below: Vec::new(*self.root.below.allocator()),
        };
        mem::replace(&mut self.root, none)
    }

    /// Makes the set that of a trie's paths. Takes no memory.
    pub fn set_root(&mut self, root: Trie)
        requires { is_trie root ≡ true }
        ensures { self.new ≡ listed (paths root) }
    {
        self.root = root;
    }

    /// Whether the path is in the set. The beginnings of its paths are not, unless they were put in.
    pub fn has(&self, path: &Path) -> bool
        ensures { result ≡ has self.now path.now }
    {
        match self.root.place(path.elements()) {
            Some(place) => place.here,
            None => false,
        }
    }

    /// Whether the path, or one that goes on from it, is in the set.
    pub fn has_at_or_below(&self, path: &Path) -> bool
        ensures { result ≡ has_at_or_below self.now path.now }
    {
        match self.root.place(path.elements()) {
            Some(place) => place.has_paths(),
            None => false,
        }
    }

    /// Whether the set has no path.
    pub fn is_empty(&self) -> bool
        ensures { result ≡ is_empty self.now }
    {
        !self.root.has_paths()
    }

    /// Whether each path of the set is one of the other's. Takes no memory.
    pub fn is_within(&self, other: &FieldSet) -> bool
        ensures { result ≡ is_empty (minus self.now other.now) }
    {
        lies_within(&self.root, &other.root)
    }

    /// Whether each path of the set is one of the other's, as [`FieldSet::is_within`] tells. The last place of a path is looked
    /// for first at `near`, which is then where the last one was found: what is told does not depend on it. Takes no memory.
    pub fn is_within_near(&self, other: &FieldSet, near: &mut usize) -> bool
        ensures { result ≡ is_empty (minus self.now other.now) }
    {
        lies_within_near(&self.root, &other.root, near)
    }

    /// Whether some path is in both sets. Takes no memory, and stops at the first.
    pub fn meets(&self, other: &FieldSet) -> bool
        ensures { result ≡ not (is_empty (meet self.now other.now)) }
    {
        share_path(&self.root, &other.root)
    }

    /// Whether both sets have the same paths. Takes no memory.
    pub fn is_same(&self, other: &FieldSet) -> bool
        ensures { result ≡ same_set self.now other.now }
    {
        same_tries(&self.root, &other.root)
    }

    /// Adds a path. On `Err` the set is as it was.
    pub fn insert(&mut self, alloc: Global, path: &Path) -> Result<(), AllocError>
        ensures ok { OnOk result (self.new ≡ insert path.now tt self.old) }
        ensures err { OnErr result (self.new ≡ self.old) }
    {
        self.root.insert(alloc, path.elements())
    }

    /// Takes a path out, and tells whether it was in the set. Takes no memory.
    pub fn remove(&mut self, path: &Path) -> bool
        ensures set { self.new ≡ set_of (set.paths self.old) (λ q. not (same_path q path.now)) }
        ensures had { result ≡ has self.old path.now }
    {
        self.root.remove(path.elements())
    }

    /// The same set, with new memory but for key fields, which both hold.
    pub fn copy(&self, alloc: Global) -> Result<FieldSet, AllocError>
        ensures { IfOk result (λ s. s ≡ self.now) }
    {
        let root = self.root.copy(alloc)?;
        Ok(FieldSet { root })
    }

    // The paths that the combination keeps of those of two sets.
    fn combined(
        &self,
        alloc: Global,
        other: &FieldSet,
        how: Combination,
    ) -> Result<FieldSet, AllocError>
        ensures { IfOk result (λ s. s ≡ combined how self.now other.now) }
    {
        let root = combine(alloc, &self.root, &other.root, how)?;
        Ok(FieldSet { root })
    }

    /// The paths of either set.
    pub fn union(&self, alloc: Global, other: &FieldSet) -> Result<FieldSet, AllocError>
        ensures { IfOk result (λ s. s ≡ union self.now other.now) }
    {
        self.combined(alloc, other, Combination::Union)
    }

    /// The paths of this set that the other lacks.
    pub fn minus(&self, alloc: Global, other: &FieldSet) -> Result<FieldSet, AllocError>
        ensures { IfOk result (λ s. s ≡ minus self.now other.now) }
    {
        self.combined(alloc, other, Combination::Minus)
    }

    /// The paths of both sets.
    pub fn meet(&self, alloc: Global, other: &FieldSet) -> Result<FieldSet, AllocError>
        ensures { IfOk result (λ s. s ≡ meet self.now other.now) }
    {
        self.combined(alloc, other, Combination::Meet)
    }

    /// The paths of this set that have no path of the other at or below them.
    pub fn without_over(&self, alloc: Global, held: &FieldSet) -> Result<FieldSet, AllocError>
        ensures { IfOk result (λ s. s ≡ set_of (set.paths self.now) (λ p. not (has_at_or_below held.now p))) }
    {
        self.combined(alloc, held, Combination::WithoutOver)
    }

    /// Takes out the paths at or below which the other set has a path. Takes no memory.
    pub fn remove_over(&mut self, other: &FieldSet)
        ensures { self.new ≡ set_of (set.paths self.old) (λ g. not (has_at_or_below other.now g)) }
    {
        take_out_over(&other.root, &mut self.root);
    }

    /// The paths of this set that have a path of the other at or below them.
    pub fn over(&self, alloc: Global, held: &FieldSet) -> Result<FieldSet, AllocError>
        ensures { IfOk result (λ s. s ≡ set_of (set.paths self.now) (has_at_or_below held.now)) }
    {
        self.combined(alloc, held, Combination::Over)
    }

    /// Takes out the paths that are key fields of items. Takes no memory.
    ///
    /// A key field is told from the path alone: its name is one of those that the element before
    /// it has.
    pub fn remove_key_fields(&mut self)
        ensures { self.new ≡ set_of (set.paths self.old) (λ p. not (is_key_field p)) }
    {
        let here = self.root.here;
        take_out_key_fields(&mut self.root, &[], here);
    }

    /// Takes out the paths that are not of the part. Takes no memory.
    pub fn keep_part(&mut self, part: Part)
        ensures { self.new ≡ set_of (set.paths self.old) (is_path_of (part_view part)) }
    {
        part.keep_paths(&mut self.root);
    }

    /// The paths that are not of the part. Where all are, as mostly, no memory is taken.
    pub fn outside(&self, alloc: Global, part: Part) -> Result<FieldSet, AllocError>
        ensures { IfOk result (λ s. s ≡ set_of (set.paths self.now) (λ p. not (is_path_of (part_view part) p))) }
    {
        if part.has_all(&self.root) {
            return Ok(FieldSet::new(alloc));
        }
        let mut outside = self.copy(alloc)?;
        outside.keep_part(part.other());
        Ok(outside)
    }

    /// The paths of the set, in path order.
    pub fn paths(&self, alloc: Global) -> Result<Vec<Path>, AllocError>
        ensures { IfOk result (λ ps. ps.items ≡ set.paths self.now) }
    {
        let ways = self.ways(alloc)?;
        copy_ways(alloc, &ways)
    }

    // The paths of the set, in path order, each as references to elements of the set.
    #[inline(always)]
    fn ways(&self, alloc: Global) -> Result<Vec<Vec<&Elem>>, AllocError>
        ensures { IfOk result (λ ways. ways_view ways.items ≡ set.paths self.now) }
    {
        let mut way = Vec::new(alloc);
        let mut listed = Vec::new(alloc);
        list_ways(alloc, &self.root, &mut way, &mut listed)?;
        Ok(listed)
    }

    /// How many paths the set has, or `usize::MAX` where there are more.
    pub fn len(&self) -> usize
        ensures { result ≡ min (size self.now) (2 ^ 64 - 1) }
    {
        count_paths(&self.root)
    }
}
