//! Paths that are told by a place and an element at it, without a copy of either.
ghost use Rattle.std.specs.Prelude.{◌≡◌, [], ◌∷◌, ◌++◌, map, OnOk, IfOk};
ghost use Rattle.ssa_model.specs.definitions.Path.{path_cmp};
ghost use Rattle.ssa_model.specs.definitions.Replies.{path_json};
ghost use Rattle.ssa_json.specs.View.{view};
ghost use Rattle.ssa_path.specs.TopPaths.{last_view, lent_path, text_of};
ghost use Rattle.ssa_path.specs.View.{element_view, path_view};

use crate::element::Elem;
use ssa_json::value::{Json, Scalar};
use ssa_members::SmallText;
use std::alloc::{AllocError, Global};
use std::cmp::Ordering;

/// The path of a place, or of the child of an element there. What it is made of is lent.
#[derive(Clone, Copy)]
pub struct LentPath<'a> {
    pub place: &'a [Elem],
    pub last: Option<&'a Elem>,
}

// Puts the text of an element behind others.
fn push_text(alloc: Global, element: &Elem, texts: &mut Vec<Json>) -> Result<(), AllocError>
    ensures { OnOk result (map view texts.new.items ≡ map view texts.old.items ++ text_of (element_view element.now) ∷ []) }
{
    let name = element.name(alloc)?;
    let text = SmallText::from_string(alloc, name)?;
    texts.push(Json::Scalar(Scalar::Text(text)))?;
    Ok(())
}

// Puts the text of an element, if there is one, behind others.
fn push_last(alloc: Global, last: Option<&Elem>, texts: &mut Vec<Json>) -> Result<(), AllocError>
    ensures { OnOk result (map view texts.new.items ≡ map view texts.old.items ++ map text_of (last_view last.entry)) }
{
    match last {
        Some(element) => push_text(alloc, element, texts),
        None => Ok(()),
    }
}

// Puts the texts of elements behind others.
fn push_texts(alloc: Global, elements: &[Elem], texts: &mut Vec<Json>) -> Result<(), AllocError>
    ensures { OnOk result (map view texts.new.items ≡ map view texts.old.items ++ map text_of (path_view elements.now)) }
{
    for element in elements {
        push_text(alloc, element, texts)?;
    }
    Ok(())
}

/// The list of the elements' texts.
pub fn path_value(alloc: Global, elements: &[Elem]) -> Result<Json, AllocError>
    ensures { IfOk result (λ v. view v ≡ path_json (path_view elements.now)) }
{
    let mut texts = Vec::with_capacity(alloc, elements.len())?;
    push_texts(alloc, elements, &mut texts)?;
    Ok(Json::List(texts))
}

// The order of an element, or of no element, and a list of elements with one more behind it or none.
fn order_last(last: Option<&Elem>, other: &[Elem], other_last: Option<&Elem>) -> Ordering
    ensures { result ≡ path_cmp (last_view last.entry) (path_view other.now ++ last_view other_last.entry) }
{
    match (last, other) {
        (None, []) => match other_last {
            None => Ordering::Equal,
            Some(_) => Ordering::Less,
        },
        (None, [_first, ..]) => Ordering::Less,
        (Some(own), []) => match other_last {
            None => Ordering::Greater,
            Some(other) => own.order(other),
        },
        (Some(own), [first, rest @ ..]) => match own.order(first) {
            Ordering::Equal => order_last(None, rest, other_last),
            found => found,
        },
    }
}

// The order of a list of elements with one more behind it or none, and an element or no element.
fn order_before(place: &[Elem], last: Option<&Elem>, other_last: Option<&Elem>) -> Ordering
    ensures { result ≡ path_cmp (path_view place.now ++ last_view last.entry) (last_view other_last.entry) }
{
    match (place, other_last) {
        ([], None) => match last {
            None => Ordering::Equal,
            Some(_) => Ordering::Greater,
        },
        ([_first, ..], None) => Ordering::Greater,
        ([], Some(other)) => match last {
            None => Ordering::Less,
            Some(own) => own.order(other),
        },
        ([first, rest @ ..], Some(other)) => match first.order(other) {
            Ordering::Equal => order_before(rest, last, None),
            found => found,
        },
    }
}

// The order of the lists of elements, each with one more behind it or none.
fn order_lent(
    place: &[Elem],
    last: Option<&Elem>,
    other: &[Elem],
    other_last: Option<&Elem>,
) -> Ordering
    ensures { result ≡ path_cmp (path_view place.now ++ last_view last.entry) (path_view other.now ++ last_view other_last.entry) }
{
    match (place, other) {
        ([], _) => order_last(last, other, other_last),
        ([_first, ..], []) => order_before(place, last, other_last),
        ([first, rest @ ..], [other_first, other_rest @ ..]) => match first.order(other_first) {
            Ordering::Equal => order_lent(rest, last, other_rest, other_last),
            found => found,
        },
    }
}

impl<'a> LentPath<'a> {
    /// The list of the elements' texts.
    pub fn to_json(&self, alloc: Global) -> Result<Json, AllocError>
        ensures { IfOk result (λ v. view v ≡ path_json (lent_path self.now)) }
    {
        let mut texts = Vec::with_capacity(alloc, self.place.len())?;
        push_texts(alloc, self.place, &mut texts)?;
        push_last(alloc, self.last, &mut texts)?;
        Ok(Json::List(texts))
    }
}

impl<'a> PartialEq for LentPath<'a> {
    ghost use Rattle.std.specs.Ordering.{eq_by_cmp, on};
    ghost use Rattle.std.specs.Cmp.{eq_by_cmp_equiv, on_total, partial_equiv_from_equiv};
    ghost use Rattle.ssa_model.specs.definitions.Path.{path_cmp, path_cmp_total};
    ghost use Rattle.ssa_path.specs.TopPaths.{lent_path};

    ghost eq = { eq_by_cmp (on lent_path path_cmp) };

    ghost laws = { partial_equiv_from_equiv (eq_by_cmp_equiv (on_total lent_path path_cmp_total)) };

    fn eq(&self, other: &LentPath<'a>) -> bool {
        order_lent(self.place, self.last, other.place, other.last).is_eq()
    }
}

impl<'a> Eq for LentPath<'a> {
    ghost use Rattle.std.specs.Cmp.{eq_by_cmp_equiv, on_total};
    ghost use Rattle.ssa_model.specs.definitions.Path.{path_cmp_total};
    ghost use Rattle.ssa_path.specs.TopPaths.{lent_path};

    ghost laws = { eq_by_cmp_equiv (on_total lent_path path_cmp_total) };
}

impl<'a> PartialOrd for LentPath<'a> {
    ghost use Rattle.std.proofs.Common.{refl};
    ghost use Rattle.std.specs.Ordering.{as_partial_cmp, eq_by_cmp, on};
    ghost use Rattle.std.specs.Cmp.{on_total, partial_order_from_agreeing_total};
    ghost use Rattle.ssa_model.specs.definitions.Path.{path_cmp, path_cmp_total};
    ghost use Rattle.ssa_path.specs.TopPaths.{lent_path};

    ghost partial_cmp = { as_partial_cmp (on lent_path path_cmp) };

    ghost laws = { partial_order_from_agreeing_total (on lent_path path_cmp) (on_total lent_path path_cmp_total) (λ a b. refl) (λ a b. refl) };

    fn partial_cmp(&self, other: &LentPath<'a>) -> Option<Ordering> {
        Some(self.cmp(other))
    }
}

impl<'a> Ord for LentPath<'a> {
    ghost use Rattle.std.proofs.Common.{refl};
    ghost use Rattle.std.specs.Ordering.{on};
    ghost use Rattle.std.specs.Cmp.{on_total};
    ghost use Rattle.ssa_model.specs.definitions.Path.{path_cmp, path_cmp_total};
    ghost use Rattle.ssa_path.specs.TopPaths.{lent_path};

    ghost cmp = { on lent_path path_cmp };

    ghost total = { on_total lent_path path_cmp_total };

    ghost matches_partial_cmp = { λ a b. refl };

    ghost matches_eq = { λ a b. refl };

    fn cmp(&self, other: &LentPath<'a>) -> Ordering {
        order_lent(self.place, self.last, other.place, other.last)
    }
}
