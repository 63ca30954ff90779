//! What one body has otherwise than another that comes before it.
ghost use Rattle.std.specs.Prelude.{◌≡◌, ◌&&◌, ◌+◌, ◌-◌, ◌^◌, min, true, drop, [], IfOk, OnOk};
ghost use Rattle.ssa_model.specs.definitions.Body.{Body};
ghost use Rattle.ssa_model.specs.definitions.PathMap.{is_empty};
ghost use Rattle.ssa_path.specs.Children.{elements, heads_order, rises};
ghost use Rattle.ssa_path.specs.Combine.{IsGrown};
ghost use Rattle.ssa_path.specs.Trie.{is_trie};
ghost use Rattle.ssa_path.specs.View.{element_view};
ghost use Rattle.ssa_typed.specs.Alike.{are_branches_alike};
ghost use Rattle.ssa_typed.specs.declared.compare.Scope.{Scope};
ghost use Rattle.ssa_typed.specs.declared.node.Node.{Leaf as LeafOf};
ghost use Rattle.ssa_typed.specs.Differences.{AreDifferences, AreDiffering, AreToldBoth, IsComparison, IsToldAlone, IsToldLost};
ghost use Rattle.ssa_typed.specs.Ordered.{lent_children};
ghost use Rattle.ssa_typed.specs.Repeating.{ChildrenRepeat, TreeRepeats};
ghost use Rattle.ssa_typed.specs.Rows.{below, is_tree, own_content};
ghost use Rattle.ssa_typed.specs.Same.{AreLeft};

use crate::in_order::stand_alike;
use crate::node::{Leaf, Node};
use crate::ordered::{Ordered, items_in_order};
use crate::points::{Collected, collect_child};
use crate::same_ends::between_same;
use crate::same_items::are_same_items;
use ssa_path::combine::push_filled;
use ssa_path::element::Elem;
use ssa_path::field_set::FieldSet;
use ssa_path::trie::Trie;
use std::alloc::{AllocError, Global};
use std::cmp::Ordering;

/// How two bodies differ, one of which comes after the other.
///
/// `added` has the points of the body after at whose paths nothing stood, `modified` the paths at
/// which both have leaves of one sort with other contents, and `removed` all the paths at which
/// nothing stands any more. The order of a list's items makes no difference.
#[derive(Drop)]
pub struct Comparison {
    pub added: FieldSet,
    pub modified: FieldSet,
    pub removed: FieldSet,
}

impl Comparison {
    /// What a body differs in from itself: nothing. Takes no memory.
    pub fn of_same(alloc: Global) -> Comparison
        ensures { (b : Body) → IsComparison b b result }
    {
        Comparison {
            added: FieldSet::new(alloc),
            modified: FieldSet::new(alloc),
            removed: FieldSet::new(alloc),
        }
    }

    /// Whether nothing differs but the order of lists.
    pub fn is_empty(&self) -> bool
        ensures { result ≡ (is_empty self.now.added && (is_empty self.now.modified && is_empty self.now.removed)) }
    {
        self.added.is_empty() && (self.modified.is_empty() && self.removed.is_empty())
    }
}

// What the tree after is: all that then stands, so that the other places are removed, or a part that
// is put over the tree before and removes none.
#[derive(Clone, Copy, Drop)]
pub(crate) enum Scope {
    Whole,
    Part,
}

// What differs at and below two places, by what the comparison tells of it. `new_places` counts the places at which nothing stood
// before, or is `usize::MAX` where there are more; `repeats` is set only where the tree after, put over the tree before, leaves it
// as it is.
#[derive(Drop)]
pub(crate) struct Parts {
    pub(crate) added: Trie,
    pub(crate) modified: Trie,
    pub(crate) removed: Trie,
    pub(crate) new_places: usize,
    pub(crate) repeats: bool,
}

// What differs below two places, each child's behind the child's element.
#[derive(Drop)]
struct PartsBelow {
    added: Vec<(Elem, Trie)>,
    modified: Vec<(Elem, Trie)>,
    removed: Vec<(Elem, Trie)>,
    new_places: usize,
    repeats: bool,
}

impl PartsBelow {
    // What is told of no children.
    #[inline(always)]
    fn of_none(alloc: Global) -> PartsBelow
        ensures added { result.added.items ≡ [] }
        ensures modified { result.modified.items ≡ [] }
        ensures removed { result.removed.items ≡ [] }
        ensures places { result.new_places ≡ 0 }
        ensures repeats { result.repeats ≡ true }
    {
        PartsBelow {
            added: Vec::new(alloc),
            modified: Vec::new(alloc),
            removed: Vec::new(alloc),
            new_places: 0,
            repeats: true,
        }
    }
}

// How the next children compare: where one list has no more, the other's is first.
fn order_at(own: &Ordered, i: usize, others: &Ordered, j: usize) -> Option<Ordering>
    ensures { result ≡ heads_order (drop i (lent_children own.now)) (drop j (lent_children others.now)) }
{
    if i < own.len() {
        if j < others.len() {
            Some(own.at(i).0.order(&others.at(j).0))
        } else {
            Some(Ordering::Less)
        }
    } else if j < others.len() {
        Some(Ordering::Greater)
    } else {
        None
    }
}

// Adds what is collected of a child that only one of the trees has.
fn push_alone(
    alloc: Global,
    told: &mut Vec<(Elem, Trie)>,
    child: &(Elem, Node),
    in_dict: bool,
    what: Collected,
) -> Result<(), AllocError>
    requires { is_tree child.now.1 ≡ true }
    ensures { OnOk result (IsToldAlone (Some what) in_dict child.now told.old.items told.new.items) }
{
    let trie = collect_child(alloc, child, in_dict, what)?;
    push_filled(alloc, told, &child.0, trie)?;
    Ok(())
}

// Adds all that a child has which only the tree before has, unless the other is a part.
#[inline(always)]
fn push_lost(
    alloc: Global,
    scope: Scope,
    told: &mut Vec<(Elem, Trie)>,
    child: &(Elem, Node),
    in_dict: bool,
) -> Result<(), AllocError>
    requires { is_tree child.now.1 ≡ true }
    ensures { OnOk result (IsToldLost scope in_dict child.now told.old.items told.new.items) }
{
    match scope {
        Scope::Whole => push_alone(alloc, told, child, in_dict, Collected::All)?,
        Scope::Part => {}
    }
    Ok(())
}

// Adds what is told of a child behind the others, where it is some path. Mostly it is none, and
// nothing is called.
#[inline(always)]
fn push_told(
    alloc: Global,
    told: &mut Vec<(Elem, Trie)>,
    element: &Elem,
    trie: Trie,
) -> Result<(), AllocError>
    requires { is_trie trie ≡ true }
    ensures { OnOk result (IsGrown (element_view element.now) trie told.old.items told.new.items) }
{
    if trie.has_paths() {
        push_filled(alloc, told, element, trie)?;
    }
    Ok(())
}

// Adds a leaf of both trees where it has other contents, with no walk below it.
#[inline(always)]
fn push_leaf(
    alloc: Global,
    told: &mut PartsBelow,
    element: &Elem,
    own: &Leaf,
    other: &Leaf,
) -> Result<(), AllocError>
    ensures told { OnOk result ((scope : Scope) → AreToldBoth scope (element.now, LeafOf own.now) (LeafOf other.now) told.old told.new) }
    ensures repeats { OnOk result (told.new.repeats ≡ true → (told.old.repeats ≡ true) × TreeRepeats (LeafOf own.now) (LeafOf other.now)) }
{
    if own.is_same(other) {
        return Ok(());
    }
    told.repeats = false;
    if own.is_other(other) {
        let here = Trie {
            here: true,
            below: Vec::new(alloc),
        };
        push_filled(alloc, &mut told.modified, element, here)?;
    }
    Ok(())
}

// Adds what differs in a child that both trees have. Leaves, as most are, are compared here, with no
// call; for what is plainly the same nothing is made ready.
#[cycle(differing)]
#[inline(always)]
fn push_differing(
    alloc: Global,
    scope: Scope,
    told: &mut PartsBelow,
    child: &(Elem, Node),
    after: &Node,
) -> Result<(), AllocError>
    requires before { is_tree child.now.1 ≡ true }
    requires after { is_tree after.now ≡ true }
    ensures told { OnOk result (AreToldBoth scope child.now after.now told.old told.new) }
    ensures repeats { OnOk result (told.new.repeats ≡ true → (told.old.repeats ≡ true) × TreeRepeats child.now.1 after.now) }
{
    if let (Node::Leaf(own), Node::Leaf(other)) = (&child.1, after) {
        return push_leaf(alloc, told, &child.0, own, other);
    }
    push_branches(alloc, scope, told, child, after)?;
    Ok(())
}

// Adds what differs in a child that both trees have, by a walk below it. Apart from leaves, since what it holds on the
// stack would be cleared for each of them.
#[cycle(differing)]
#[inline(never)]
fn push_branches(
    alloc: Global,
    scope: Scope,
    told: &mut PartsBelow,
    child: &(Elem, Node),
    after: &Node,
) -> Result<(), AllocError>
    requires before { is_tree child.now.1 ≡ true }
    requires after { is_tree after.now ≡ true }
    ensures told { OnOk result (AreToldBoth scope child.now after.now told.old told.new) }
    ensures repeats { OnOk result (told.new.repeats ≡ true → (told.old.repeats ≡ true) × TreeRepeats child.now.1 after.now) }
{
    if child.1.are_lists(after) {
        return push_items(alloc, scope, told, child, after);
    }
    let parts = differing_parts(alloc, scope, &child.1, after)?;
    push_parts(alloc, told, &child.0, parts)
}

// Adds what differs in a list that both trees have. Items that are the same at both ends of the lists
// are passed by, so that only those between them are put in order; and of a part, which mostly repeats what is there, these only
// where they are not the same in another order.
#[cycle(differing)]
fn push_items(
    alloc: Global,
    scope: Scope,
    told: &mut PartsBelow,
    child: &(Elem, Node),
    after: &Node,
) -> Result<(), AllocError>
    requires before { is_tree child.now.1 ≡ true }
    requires after { is_tree after.now ≡ true }
    requires lists { are_branches_alike (own_content child.now.1) (own_content after.now) ≡ true }
    ensures told { OnOk result (AreToldBoth scope child.now after.now told.old told.new) }
    ensures repeats { OnOk result (told.new.repeats ≡ true → (told.old.repeats ≡ true) × TreeRepeats child.now.1 after.now) }
{
    let (own, others) = between_same(child.1.children(), after.children());
    if own.is_empty() && others.is_empty() {
        return Ok(());
    }
    if matches!(scope, Scope::Part) && are_same_items(alloc, own, others)? {
        return Ok(());
    }
    let parts = differing_items(alloc, scope, &child.1, after, own, others)?;
    push_parts(alloc, told, &child.0, parts)
}

// Adds what is told of a child that both trees have.
#[inline(always)]
fn push_parts(
    alloc: Global,
    told: &mut PartsBelow,
    element: &Elem,
    parts: Parts,
) -> Result<(), AllocError>
    requires added { is_trie parts.added ≡ true }
    requires modified { is_trie parts.modified ≡ true }
    requires removed { is_trie parts.removed ≡ true }
    ensures added { OnOk result (IsGrown (element_view element.now) parts.added told.old.added.items told.new.added.items) }
    ensures modified { OnOk result (IsGrown (element_view element.now) parts.modified told.old.modified.items told.new.modified.items) }
    ensures removed { OnOk result (IsGrown (element_view element.now) parts.removed told.old.removed.items told.new.removed.items) }
    ensures places { OnOk result (told.new.new_places ≡ min (told.old.new_places + parts.new_places) (2 ^ 64 - 1)) }
    ensures repeats { OnOk result (told.new.repeats ≡ (told.old.repeats && parts.repeats)) }
{
    push_told(alloc, &mut told.added, element, parts.added)?;
    push_told(alloc, &mut told.modified, element, parts.modified)?;
    push_told(alloc, &mut told.removed, element, parts.removed)?;
    told.new_places = told.new_places.saturating_add(parts.new_places);
    told.repeats = told.repeats && parts.repeats;
    Ok(())
}

// What differs below two nodes, found by one walk over those children of both that may differ, in the
// order of their elements.
#[cycle(differing)]
fn differing_beside(
    alloc: Global,
    scope: Scope,
    before: &Node,
    after: &Node,
    own: &Ordered,
    others: &Ordered,
) -> Result<PartsBelow, AllocError>
    requires before { is_tree before.now ≡ true }
    requires after { is_tree after.now ≡ true }
    requires own { rises (elements (lent_children own.now)) ≡ true }
    requires others { rises (elements (lent_children others.now)) ≡ true }
    requires left { AreLeft (below before.now) (below after.now) (lent_children own.now) (lent_children others.now) }
    ensures told { IfOk result (λ v. AreDiffering scope before.now after.now v) }
    ensures repeats { IfOk result (λ v. v.repeats ≡ true → ChildrenRepeat (below before.now) (below after.now)) }
{
    let in_dict = after.is_dict();
    let (mut i, mut j) = (0, 0);
    let mut told = PartsBelow::of_none(alloc);
    while let Some(order) = order_at(own, i, others, j) {
        match order {
            Ordering::Less => {
                push_lost(alloc, scope, &mut told.removed, own.at(i), in_dict)?;
                i += 1;
            }
            Ordering::Greater => {
                let child = others.at(j);
                push_alone(alloc, &mut told.added, child, in_dict, Collected::Points)?;
                told.new_places = told.new_places.saturating_add(child.1.size());
                told.repeats = false;
                j += 1;
            }
            Ordering::Equal => {
                push_differing(alloc, scope, &mut told, own.at(i), &others.at(j).1)?;
                i += 1;
                j += 1;
            }
        }
    }
    Ok(told)
}

// Whether both nodes have children of the same elements, which stand in the order of these.
#[inline(always)]
fn stand_in_order_alike(before: &Node, after: &Node) -> bool
    requires { is_tree before.now ≡ true }
    ensures same { result ≡ true → elements (below before.now) ≡ elements (below after.now) }
    ensures rise { result ≡ true → rises (elements (below before.now)) ≡ true }
{
    match before {
        Node::Branch(own) => stand_alike(own, after.children()),
        Node::Dict(own) => stand_alike(own, after.children()),
        Node::Leaf(_) => false,
        Node::List(_) => false,
    }
}

// What differs below two nodes with children of the same elements, which stand in the order of these:
// each child and the one beside it are compared, and no elements.
#[cycle(differing)]
fn differing_alike(
    alloc: Global,
    scope: Scope,
    before: &Node,
    after: &Node,
) -> Result<PartsBelow, AllocError>
    requires before { is_tree before.now ≡ true }
    requires after { is_tree after.now ≡ true }
    requires same { elements (below before.now) ≡ elements (below after.now) }
    requires rise { rises (elements (below before.now)) ≡ true }
    ensures told { IfOk result (λ v. AreDiffering scope before.now after.now v) }
    ensures repeats { IfOk result (λ v. v.repeats ≡ true → ChildrenRepeat (below before.now) (below after.now)) }
{
    let (own, others) = (before.children(), after.children());
    let mut told = PartsBelow::of_none(alloc);
    for (i, child) in own.iter().enumerate() {
        push_differing(alloc, scope, &mut told, child, &others[i].1)?;
    }
    Ok(told)
}

// What differs below two nodes. Records and Dicts mostly have children of the same elements, whose
// orders are not compared.
#[cycle(differing)]
#[inline(always)]
fn differing_below(
    alloc: Global,
    scope: Scope,
    before: &Node,
    after: &Node,
) -> Result<PartsBelow, AllocError>
    requires before { is_tree before.now ≡ true }
    requires after { is_tree after.now ≡ true }
    ensures told { IfOk result (λ v. AreDiffering scope before.now after.now v) }
    ensures repeats { IfOk result (λ v. v.repeats ≡ true → ChildrenRepeat (below before.now) (below after.now)) }
{
    if stand_in_order_alike(before, after) {
        return differing_alike(alloc, scope, before, after);
    }
    differing_apart(alloc, scope, before, after)
}

// What differs below two nodes, whose children are first put in the order of their elements. Apart, since both lists of
// them would stand on the stack, and be cleared, for nodes that have no need of them.
#[cycle(differing)]
#[inline(never)]
fn differing_apart(
    alloc: Global,
    scope: Scope,
    before: &Node,
    after: &Node,
) -> Result<PartsBelow, AllocError>
    requires before { is_tree before.now ≡ true }
    requires after { is_tree after.now ≡ true }
    ensures told { IfOk result (λ v. AreDiffering scope before.now after.now v) }
    ensures repeats { IfOk result (λ v. v.repeats ≡ true → ChildrenRepeat (below before.now) (below after.now)) }
{
    let own = &before.ordered(alloc)?;
    let others = &after.ordered(alloc)?;
    let told = differing_beside(alloc, scope, before, after, own, others)?;
    Ok(told)
}

// What is told of two trees, by what is told of their children.
#[inline(always)]
fn parts_of(before: &Node, after: &Node, told: PartsBelow) -> Parts
    requires before { is_tree before.now ≡ true }
    requires after { is_tree after.now ≡ true }
    ensures told { (scope : Scope) → AreDiffering scope before.now after.now told → AreDifferences scope before.now after.now result }
    ensures repeats { (told.repeats ≡ true → ChildrenRepeat (below before.now) (below after.now)) → result.repeats ≡ true → TreeRepeats before.now after.now }
{
    let here = before.is_other_leaf(after);
    let repeats = told.repeats && before.is_branch_like(after);
    Parts {
        added: Trie {
            here: false,
            below: told.added,
        },
        modified: Trie {
            here,
            below: told.modified,
        },
        removed: Trie {
            here: false,
            below: told.removed,
        },
        new_places: told.new_places,
        repeats,
    }
}

// What differs between two trees, of whose children these alone may differ.
#[cycle(differing)]
fn differing_items(
    alloc: Global,
    scope: Scope,
    before: &Node,
    after: &Node,
    own: &[(Elem, Node)],
    others: &[(Elem, Node)],
) -> Result<Parts, AllocError>
    requires before { is_tree before.now ≡ true }
    requires after { is_tree after.now ≡ true }
    requires left { AreLeft (below before.now) (below after.now) own.now others.now }
    ensures told { IfOk result (λ v. AreDifferences scope before.now after.now v) }
    ensures repeats { IfOk result (λ v. v.repeats ≡ true → TreeRepeats before.now after.now) }
{
    let own = &items_in_order(alloc, own)?;
    let others = &items_in_order(alloc, others)?;
    let told = differing_beside(alloc, scope, before, after, own, others)?;
    Ok(parts_of(before, after, told))
}

// What differs between two trees, found by one walk over both.
#[cycle(differing)]
pub(crate) fn differing_parts(
    alloc: Global,
    scope: Scope,
    before: &Node,
    after: &Node,
) -> Result<Parts, AllocError>
    requires before { is_tree before.now ≡ true }
    requires after { is_tree after.now ≡ true }
    ensures told { IfOk result (λ v. AreDifferences scope before.now after.now v) }
    ensures repeats { IfOk result (λ v. v.repeats ≡ true → TreeRepeats before.now after.now) }
{
    let told = differing_below(alloc, scope, before, after)?;
    Ok(parts_of(before, after, told))
}
