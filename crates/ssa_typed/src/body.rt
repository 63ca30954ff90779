//! Bodies, seen as finite maps from whole paths to contents.
ghost use Rattle.std.specs.Prelude.{◌≡◌, [], ◌∷◌, ◌-◌, ◌^◌, true, false, not, min, option_map, ◌↔◌, IfOk, IsTrue};
ghost use Rattle.ssa_model.specs.definitions.Body.{over, points, record_branch, removed, restricted};
ghost use Rattle.ssa_model.specs.definitions.Fitting.{IsBodyOf};
ghost use Rattle.ssa_model.specs.definitions.Kind.{Kind};
ghost use Rattle.ssa_model.specs.definitions.Objects.{shown};
ghost use Rattle.ssa_model.specs.definitions.Parts.{part_of, spliced};
ghost use Rattle.ssa_model.specs.definitions.Path.{under};
ghost use Rattle.ssa_model.specs.definitions.Path as model;
ghost use Rattle.ssa_model.specs.definitions.PathMap.{from_entries, has, paths, set_of, size};
ghost use Rattle.ssa_json.specs.View.{view};
ghost use Rattle.ssa_path.specs.Subresources.{part_view};
ghost use Rattle.ssa_model.specs.definitions.Lawful.{is_lawful, is_ordered};
ghost use Rattle.ssa_model.specs.definitions.Valid.{IsRooted};
ghost use Rattle.ssa_typed.specs.Alike.{AreAlike};
ghost use Rattle.ssa_typed.specs.Differences.{IsComparison, IsPartComparison};
ghost use Rattle.ssa_typed.specs.KeepsOrder.{KeepsItemOrder};
ghost use Rattle.ssa_typed.specs.Look.{look_of, look_at};
ghost use Rattle.ssa_typed.specs.Flats.{IsFlattening};
ghost use Rattle.ssa_typed.specs.LostWith.{left_with, AreFree};
ghost use Rattle.ssa_typed.specs.Reached.{PartsAreOfPlaces, PointsKeepAll, PointsTellPlaces};
ghost use Rattle.ssa_typed.specs.Rows.{body_of, is_tree};

use crate::compare::{Comparison, Scope, differing_parts};
use crate::in_part::{into_part, splice};
use crate::keeps_order::keeps_order;
use crate::lacking::lacking_paths;
use crate::lost_with::fallen_paths;
use crate::node::{Look, Node};
use crate::over::over_node;
use crate::part::PartComparison;
use crate::without::node_without;
use ssa_json::value::Json;
use ssa_path::field_set::FieldSet;
use ssa_path::part::Part;
use ssa_path::path::Path;
use std::alloc::{AllocError, Global};
use std::marker::Model;
use std::mem;

/// How many places a body may have, the root among them: 20,000 paths.
pub const MOST_PLACES: usize = 20_001;

/// An object without its identity. Its root is a branch, and so is `metadata`, which has something
/// below it where it is there.
///
/// Two bodies are equal in every contract where they have the same contents at the same paths, with
/// the same orders of their lists.
#[derive(Drop)]
pub struct Body {
    root: Node,
}

impl Model for Body {
    ghost use Rattle.ssa_model.specs.definitions.Body as model;
    ghost use Rattle.ssa_model.specs.codes.Codes.{coded_body};
    ghost use Rattle.ssa_typed.specs.BodyTrees.{IsBodyTree};
    ghost use Rattle.ssa_typed.specs.Rows.{body_of};

    ghost Value = { model.Body };

    ghost coded = { coded_body };

    ghost view = { λ b. body_of b.root };

    ghost invariant = { λ b. IsBodyTree b.root };
}

impl Body {
    /// The body of this tree.
    pub fn new(root: Node) -> Body
        requires tree { is_tree root ≡ true }
        requires rooted { IsRooted (body_of root) }
        ensures { result ≡ body_of root }
    {
        Body { root }
    }

    /// The body's tree.
    pub fn root(&self) -> &Node
        ensures seen { body_of result.now ≡ self.now }
        ensures tree { is_tree result.now ≡ true }
        ensures rooted { IsRooted self.now }
    {
        &self.root
    }

    /// The root of the body is a branch, and where `metadata` is there, so is something below it.
    pub fn stands_rooted(&self)
        ensures { IsRooted self.now }
    {
        let _root = self.root();
    }

    /// What stands at a path, if anything does. Takes no memory.
    pub fn get(&self, path: &Path) -> Option<Look<'_>>
        ensures { option_map look_of result ≡ look_at self.now path.now }
    {
        match self.root.node_at(path.elements()) {
            Some(node) => Some(node.look()),
            None => None,
        }
    }

    /// How many places the body has, the root among them, or `usize::MAX` where there are more.
    pub fn size(&self) -> usize
        ensures { result ≡ min (size self.now) (2 ^ 64 - 1) }
    {
        self.root.size()
    }

    /// The value that the body is of, in memory of its own. It fits each schema that the body fits,
    /// and the body is its flattening.
    pub fn to_json(&self, alloc: Global) -> Result<Json, AllocError>
        ensures shown { IfOk result (λ v. (kind : Kind) → is_ordered kind ≡ true → IsBodyOf kind self.now → view v ≡ shown kind self.now []) }
        ensures back { IfOk result (λ v. (kind : Kind) → is_lawful kind ≡ true → IsBodyOf kind self.now → IsFlattening kind (view v) self.now) }
    {
        let value = self.root.to_json(alloc)?;
        Ok(value)
    }

    /// The leaves, items of lists, entries of Dicts and empty branches.
    pub fn points(&self, alloc: Global) -> Result<FieldSet, AllocError>
        ensures { IfOk result (λ s. s ≡ points self.now) }
    {
        let root = self.root.points(alloc)?;
        Ok(FieldSet::from_root(root))
    }

    /// Whether the set has the points of the body and nothing else, so that it serves in place of
    /// [`points`](Body::points). Of a set of which it answers `false` nothing is promised.
    ///
    /// No element is copied: memory is taken for references to the items of a list alone, and
    /// none where the set has another number of children there.
    pub fn has_points(&self, alloc: Global, set: &FieldSet) -> Result<bool, AllocError>
        ensures { IfOk result (λ b. b ≡ true → set.now ≡ points self.now) }
    {
        let same = self.root.has_points(alloc, set.root())?;
        Ok(same)
    }

    /// Whether the other body is this one, its lists in the same order. Takes no memory. Of bodies of which it answers
    /// `false` nothing is promised.
    pub fn is_same(&self, other: &Body) -> bool
        ensures { result ≡ true → other.now ≡ self.now }
    {
        self.root.is_same(&other.root)
    }

    /// The places of the body are its root and what is at or above one of its points.
    pub fn points_tell_places(&self)
        ensures { PointsTellPlaces self.now }
    {
        let _root = self.root();
    }

    /// Where all the points of the body stay, by themselves or by a path below, all of it stays.
    pub fn points_keep_all(&self)
        ensures { PointsKeepAll self.now }
    {
        let _root = self.root();
    }

    /// Where two sets have paths at or below the same places of the body, the same part of it stays.
    pub fn parts_are_of_places(&self)
        ensures { PartsAreOfPlaces self.now }
    {
        let _root = self.root();
    }

    /// The same body, with new memory but for key fields, which both hold.
    pub fn clone(&self, alloc: Global) -> Result<Body, AllocError>
        ensures { IfOk result (λ b. b ≡ self.now) }
    {
        let root = self.root.copy(alloc)?;
        Ok(Body { root })
    }

    /// The configuration over this body: its content where it has the place, else this body's.
    ///
    /// In a list that both have, the places that hold items of both are refilled with these items in the configuration's order; this
    /// body's other items keep their places, and what the configuration alone has follows in its order.
    /// Takes about n log n comparisons for n children of a place. What the configuration has is moved
    /// and what it lacks is copied; where both have the same places in the same order, no memory is
    /// taken.
    pub fn over(&self, alloc: Global, config: Body) -> Result<Body, AllocError>
        requires { AreAlike self.now config }
        ensures { IfOk result (λ b. b ≡ over self.now config) }
    {
        let Body { mut root } = config;
        over_node(alloc, &self.root, &mut root)?;
        Ok(Body { root })
    }

    /// Whether, wherever both bodies have a list, the items of both stand in one order.
    ///
    /// One walk over the branches that both have. Where the children of a place stand alike, and in records and Dicts, nothing
    /// is put in order and no memory is taken; for another list of n items it takes about n log n comparisons.
    pub fn keeps_order(&self, alloc: Global, config: &Body) -> Result<bool, AllocError>
        ensures { IfOk result (λ b. IsTrue b ↔ KeepsItemOrder self.now config.now) }
    {
        let keeps = keeps_order(alloc, &self.root, &config.root)?;
        Ok(keeps)
    }

    /// The paths of a set at which the body has nothing.
    ///
    /// One walk over the set and what the body has of it; takes about n log n comparisons for n
    /// children of a place.
    pub fn lacking(&self, alloc: Global, set: &FieldSet) -> Result<FieldSet, AllocError>
        ensures { IfOk result (λ s. s ≡ set_of (paths set.now) (λ p. not (has self.now p))) }
    {
        let root = lacking_paths(alloc, &self.root, set.root())?;
        Ok(FieldSet::from_root(root))
    }

    /// The places of this body that go where a configuration is put over it and the paths of `gone` are given up: these,
    /// what is below them, and the records that this leaves without points, unless the configuration has them or a path of
    /// `held` is at or below them. Nothing is merged for it: one walk along the paths of `gone`.
    pub fn lost_with(
        &self,
        alloc: Global,
        config: &Body,
        gone: &FieldSet,
        held: &FieldSet,
    ) -> Result<FieldSet, AllocError>
        requires alike { AreAlike self.now config.now }
        requires free { AreFree config.now gone.now held.now }
        ensures { IfOk result (λ s. s ≡ removed self.now (left_with self.now config.now gone.now held.now)) }
    {
        let root = fallen_paths(alloc, &self.root, &config.root, gone.root(), held.root())?;
        Ok(FieldSet::from_root(root))
    }

    /// The body without these places. What stays is moved, with no copies; a child that has none of them at or below it is
    /// moved whole.
    pub fn without(self, alloc: Global, gone: &FieldSet) -> Result<Body, AllocError>
        requires inner { has gone.now [] ≡ false }
        requires whole { (p q : model.Path) → has gone.now p ≡ true → under p q ≡ true → has self q ≡ true → has gone.now q ≡ true }
        requires rooted { IsRooted (restricted self (λ p. not (has gone.now p))) }
        ensures { IfOk result (λ b. b ≡ restricted self (λ p. not (has gone.now p))) }
    {
        let root = node_without(alloc, self.root, &gone.root().below)?;
        Ok(Body { root })
    }

    /// The body's root, with what is of the part. Takes no memory.
    pub fn into_part(self, part: Part) -> Body
        ensures { result ≡ part_of (part_view part) self }
    {
        let root = into_part(self.root, part);
        Body { root }
    }

    /// This body in the part, and the other one outside it, with the orders of each.
    ///
    /// What is taken of this body is moved, and what is taken of the other is copied: of a body without `status` nothing for
    /// [`Part::Main`], and for [`Part::Status`] all but `status`.
    pub fn splice(self, alloc: Global, rest: &Body, part: Part) -> Result<Body, AllocError>
        ensures { IfOk result (λ b. b ≡ spliced (part_view part) self rest.now) }
    {
        let root = splice(alloc, self.root, &rest.root, part)?;
        Ok(Body { root })
    }

    /// How the body `after`, which comes after this one, differs from it.
    pub fn compare(&self, alloc: Global, after: &Body) -> Result<Comparison, AllocError>
        ensures { IfOk result (λ c. IsComparison self.now after.now c) }
    {
        let told = differing_parts(alloc, Scope::Whole, &self.root, &after.root)?;
        Ok(Comparison {
            added: FieldSet::from_root(told.added),
            modified: FieldSet::from_root(told.modified),
            removed: FieldSet::from_root(told.removed),
        })
    }

    /// How a part that is put over this body differs from it, how many places it brings, and whether the body stays as it is but
    /// for the order of items. No merged body is made for it.
    pub fn compare_part(&self, alloc: Global, part: &Body) -> Result<PartComparison, AllocError>
        ensures { IfOk result (λ c. IsPartComparison self.now part.now c) }
    {
        let told = differing_parts(alloc, Scope::Part, &self.root, &part.root)?;
        Ok(PartComparison {
            added: FieldSet::from_root(told.added),
            modified: FieldSet::from_root(told.modified),
            new_places: told.new_places,
            repeats: told.repeats,
        })
    }

    /// The body's tree, in whose place an empty record is left.
    pub fn take_root(&mut self, alloc: Global) -> Node
        ensures seen { body_of result ≡ self.old }
        ensures tree { is_tree result ≡ true }
        ensures rooted { IsRooted (body_of result) }
        ensures left { self.new ≡ from_entries (([], record_branch) ∷ []) }
    {
        mem::replace(&mut self.root, Node::Branch(Vec::new(alloc)))
    }

    /// Puts a tree in place of the body's.
    pub fn set_root(&mut self, root: Node)
        requires tree { is_tree root ≡ true }
        requires rooted { IsRooted (body_of root) }
        ensures { self.new ≡ body_of root }
    {
        self.root = root;
    }
}
