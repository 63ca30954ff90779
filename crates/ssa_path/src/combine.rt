//! Two sets of paths put together, by one walk over both tries, or by a search for each of few children among many others.
ghost use Rattle.std.specs.Prelude.{◌≡◌, [], true, false, IfOk, OnOk, OnErr};
ghost use Rattle.std.specs.Bool.{OnTrue};
ghost use Rattle.ssa_path.specs.Children.{elements, rises};
ghost use Rattle.ssa_path.specs.View.{element_view};
ghost use Rattle.ssa_path.specs.Trie.{is_trie, is_filled, are_filled_tries, paths};
ghost use Rattle.ssa_path.specs.Combine.{is_concerned, keeps, IsCombination, IsCombined, IsKept, IsGrown};

use crate::children::{find_child, order_at};
use crate::element::Elem;
use crate::trie::{Trie, push_copy};
use std::alloc::{AllocError, Global};
use std::cmp::Ordering;

// Among more than so many children for each of the own, a search for each of these is taken to cost less than a walk over all.
const FEW_AMONG: usize = 16;

/// How two sets are put together.
#[derive(Clone, Copy, Drop)]
pub enum Combination {
    Union,
    Minus,
    Meet,
    /// The paths that have none of the other set's at or below them.
    WithoutOver,
    /// The paths that have one of the other set's at or below them.
    Over,
}

impl Combination {
    // Whether the other set concerns the place that the trie stands at.
    fn is_concerned(self, other: &Trie) -> bool
        requires { is_trie other.now ≡ true }
        ensures { result ≡ is_concerned self (paths other.now) [] }
    {
        match self {
            Combination::Union => other.here,
            Combination::Minus => other.here,
            Combination::Meet => other.here,
            Combination::WithoutOver => other.has_paths(),
            Combination::Over => other.has_paths(),
        }
    }

    // Whether the combination has what is in the sets as told.
    fn keeps(self, own: bool, other: bool) -> bool
        ensures { result ≡ keeps self own other }
    {
        match self {
            Combination::Union => own || other,
            Combination::Minus => own && !other,
            Combination::Meet => own && other,
            Combination::WithoutOver => own && !other,
            Combination::Over => own && other,
        }
    }

    // Whether nothing is kept below two places, told where nothing is below one of them.
    #[inline(always)]
    fn leaves_none(self, own: &[(Elem, Trie)], others: &[(Elem, Trie)]) -> bool
        ensures { OnTrue result (IsCombined self own.now others.now []) }
    {
        if own.is_empty() {
            others.is_empty() || !self.keeps(false, true)
        } else {
            others.is_empty() && !self.keeps(true, false)
        }
    }

    // Whether the counterparts of so few children are searched for among so many others.
    pub(crate) fn searches(self, own: usize, others: usize) -> bool
        ensures { OnTrue result (keeps self false true ≡ false) }
    {
        !self.keeps(false, true) && own < others / FEW_AMONG
    }
}

// Adds a copy of the child, where it is kept.
#[inline(always)]
fn push_kept(
    alloc: Global,
    children: &mut Vec<(Elem, Trie)>,
    child: &(Elem, Trie),
    kept: bool,
) -> Result<(), AllocError>
    ensures { OnOk result (IsKept kept child.now children.old.items children.new.items) }
{
    if kept {
        push_copy(alloc, child, children)?;
    }
    Ok(())
}

// Adds a child that has some path behind the others. On `Err` the others are as they were.
#[inline(always)]
fn push_child(
    alloc: Global,
    children: &mut Vec<(Elem, Trie)>,
    element: &Elem,
    child: Trie,
) -> Result<(), AllocError>
    requires trie { is_trie child ≡ true }
    requires filled { is_filled child ≡ true }
    ensures ok { OnOk result (IsGrown (element_view element.now) child children.old.items children.new.items) }
    ensures err { OnErr result (children.new.items ≡ children.old.items) }
{
    match element {
        Elem::Field(name) if name.is_short() => {
            children.push((Elem::Field(name.copy_short()), child))?;
        }
        _ => push_long_child(alloc, children, element, child)?,
    }
    Ok(())
}

// Adds a child that has some path behind the others. On `Err` the others are as they were.
#[inline(never)]
fn push_long_child(
    alloc: Global,
    children: &mut Vec<(Elem, Trie)>,
    element: &Elem,
    child: Trie,
) -> Result<(), AllocError>
    requires trie { is_trie child ≡ true }
    requires filled { is_filled child ≡ true }
    ensures ok { OnOk result (IsGrown (element_view element.now) child children.old.items children.new.items) }
    ensures err { OnErr result (children.new.items ≡ children.old.items) }
{
    let own = element.copy(alloc)?;
    children.push((own, child))?;
    Ok(())
}

/// Adds a child behind the others, unless it has no path. On `Err` the others are as they were.
#[inline(always)]
pub fn push_filled(
    alloc: Global,
    children: &mut Vec<(Elem, Trie)>,
    element: &Elem,
    child: Trie,
) -> Result<(), AllocError>
    requires { is_trie child ≡ true }
    ensures ok { OnOk result (IsGrown (element_view element.now) child children.old.items children.new.items) }
    ensures err { OnErr result (children.new.items ≡ children.old.items) }
{
    if child.has_paths() {
        push_child(alloc, children, element, child)?;
    }
    Ok(())
}

// The combination of what is below two places, which mostly is nothing, and then nothing is called.
#[cycle(combine)]
#[inline(always)]
fn combine_below(
    alloc: Global,
    own: &[(Elem, Trie)],
    others: &[(Elem, Trie)],
    how: Combination,
) -> Result<Vec<(Elem, Trie)>, AllocError>
    requires own_rise { rises (elements own.now) ≡ true }
    requires own_tries { are_filled_tries own.now ≡ true }
    requires others_rise { rises (elements others.now) ≡ true }
    requires others_tries { are_filled_tries others.now ≡ true }
    ensures { IfOk result (λ v. IsCombined how own.now others.now v.items) }
{
    if how.leaves_none(own, others) {
        return Ok(Vec::new(alloc));
    }
    combine_many(alloc, own, others, how)
}

// The combination of what is below two places, of which one mostly has something below.
#[cycle(combine)]
#[inline(never)]
fn combine_many(
    alloc: Global,
    own: &[(Elem, Trie)],
    others: &[(Elem, Trie)],
    how: Combination,
) -> Result<Vec<(Elem, Trie)>, AllocError>
    requires own_rise { rises (elements own.now) ≡ true }
    requires own_tries { are_filled_tries own.now ≡ true }
    requires others_rise { rises (elements others.now) ≡ true }
    requires others_tries { are_filled_tries others.now ≡ true }
    ensures { IfOk result (λ v. IsCombined how own.now others.now v.items) }
{
    if how.searches(own.len(), others.len()) {
        combine_found(alloc, own, others, how)
    } else {
        combine_children(alloc, own, others, how)
    }
}

// The combination of what is below two places.
#[cycle(combine)]
#[inline(always)]
fn combine_children(
    alloc: Global,
    own: &[(Elem, Trie)],
    others: &[(Elem, Trie)],
    how: Combination,
) -> Result<Vec<(Elem, Trie)>, AllocError>
    requires own_rise { rises (elements own.now) ≡ true }
    requires own_tries { are_filled_tries own.now ≡ true }
    requires others_rise { rises (elements others.now) ≡ true }
    requires others_tries { are_filled_tries others.now ≡ true }
    ensures { IfOk result (λ v. IsCombined how own.now others.now v.items) }
{
    let mut combined = Vec::new(alloc);
    let mut i = 0;
    let mut j = 0;
    while let Some(order) = order_at(own, i, others, j) {
        match order {
            Ordering::Less => {
                push_kept(alloc, &mut combined, &own[i], how.keeps(true, false))?;
                i += 1;
            }
            Ordering::Greater => {
                push_kept(alloc, &mut combined, &others[j], how.keeps(false, true))?;
                j += 1;
            }
            Ordering::Equal => {
                let mine = &own[i];
                let theirs = &others[j];
                let child = combine(alloc, &mine.1, &theirs.1, how)?;
                push_filled(alloc, &mut combined, &mine.0, child)?;
                i += 1;
                j += 1;
            }
        }
    }
    Ok(combined)
}

// The combination of what is below two places, where nothing that the other place has alone is kept: each child finds its
// counterpart, so that few children among many others cost a search each.
#[cycle(combine)]
#[inline(never)]
fn combine_found(
    alloc: Global,
    own: &[(Elem, Trie)],
    others: &[(Elem, Trie)],
    how: Combination,
) -> Result<Vec<(Elem, Trie)>, AllocError>
    requires own_rise { rises (elements own.now) ≡ true }
    requires own_tries { are_filled_tries own.now ≡ true }
    requires others_rise { rises (elements others.now) ≡ true }
    requires others_tries { are_filled_tries others.now ≡ true }
    requires own_alone { keeps how false true ≡ false }
    ensures { IfOk result (λ v. IsCombined how own.now others.now v.items) }
{
    let mut combined = Vec::new(alloc);
    for mine in own {
        match find_child(others, &mine.0) {
            None => push_kept(alloc, &mut combined, mine, how.keeps(true, false))?,
            Some(theirs) => {
                let child = combine(alloc, &mine.1, theirs, how)?;
                push_filled(alloc, &mut combined, &mine.0, child)?;
            }
        }
    }
    Ok(combined)
}

/// The paths that the combination keeps of those of two tries.
#[cycle(combine)]
#[inline(always)]
pub fn combine(
    alloc: Global,
    own: &Trie,
    other: &Trie,
    how: Combination,
) -> Result<Trie, AllocError>
    requires own { is_trie own.now ≡ true }
    requires other { is_trie other.now ≡ true }
    ensures { IfOk result (λ t. IsCombination how own.now other.now t) }
{
    let below = combine_below(alloc, &own.below, &other.below, how)?;
    let concerned = how.is_concerned(other);
    Ok(Trie {
        here: how.keeps(own.here, concerned),
        below,
    })
}
