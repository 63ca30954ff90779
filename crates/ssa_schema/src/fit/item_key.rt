//! What tells the items of a list apart.
ghost use Rattle.std.specs.Prelude.{◌≡◌};
ghost use Rattle.ssa_schema.specs.Repeats.{row_cmp, same_row, scalars_view, row_view};
ghost use Rattle.ssa_schema.specs.Tags.{row_tag};

use crate::fit::tag::{row_tag, scalar_tag};
use ssa_json::value::Scalar;
use ssa_path::order::order_values;
use std::cmp::Ordering;

/// The scalars that tell an item from the others of its list: its value in a set, and its key fields
/// in a map list.
#[derive(Drop)]
pub enum ItemKey<'a> {
    One(&'a Scalar),
    Many(Vec<&'a Scalar>),
}

// The order of the first scalars that differ.
fn order_rows(scalars: &[&Scalar], others: &[&Scalar]) -> Ordering
    ensures { result ≡ row_cmp (scalars_view scalars.now) (scalars_view others.now) }
{
    match (scalars, others) {
        ([], []) => Ordering::Equal,
        ([], [_other, ..]) => Ordering::Less,
        ([_first, ..], []) => Ordering::Greater,
        ([first, rest @ ..], [other, others @ ..]) => match order_values(first, other) {
            Ordering::Equal => order_rows(rest, others),
            found => found,
        },
    }
}

// Whether the scalars are the same, one by one.
fn are_same_rows(scalars: &[&Scalar], others: &[&Scalar]) -> bool
    ensures { result ≡ same_row (scalars_view scalars.now) (scalars_view others.now) }
{
    match (scalars, others) {
        ([], []) => true,
        ([], [_other, ..]) => false,
        ([_first, ..], []) => false,
        ([first, rest @ ..], [other, others @ ..]) => {
            first.same(other) && are_same_rows(rest, others)
        }
    }
}

impl<'a> ItemKey<'a> {
    /// Whether both have the same scalars. No number is written out for that, as for their order.
    #[inline(always)]
    #[tactic(auto, using(crate::proofs::Rows::same_rows_of_one))]
    pub fn is_same(&self, other: &ItemKey) -> bool
        ensures { result ≡ same_row (row_view self.now) (row_view other.now) }
    {
        match (self, other) {
            (ItemKey::One(scalar), ItemKey::One(other)) => scalar.same(other),
            (ItemKey::One(scalar), ItemKey::Many(others)) => are_same_rows(&[*scalar], others),
            (ItemKey::Many(scalars), ItemKey::One(other)) => are_same_rows(scalars, &[*other]),
            (ItemKey::Many(scalars), ItemKey::Many(others)) => are_same_rows(scalars, others),
        }
    }

    /// The order of the first scalars that differ, each by its text.
    pub fn order(&self, other: &ItemKey) -> Ordering
        ensures { result ≡ row_cmp (row_view self.now) (row_view other.now) }
    {
        match (self, other) {
            (ItemKey::One(scalar), ItemKey::One(other)) => order_values(scalar, other),
            (ItemKey::One(scalar), ItemKey::Many(others)) => order_rows(&[*scalar], others),
            (ItemKey::Many(scalars), ItemKey::One(other)) => order_rows(scalars, &[*other]),
            (ItemKey::Many(scalars), ItemKey::Many(others)) => order_rows(scalars, others),
        }
    }
    /// A number that keys that are one share, and others mostly do not.
    pub fn tag(&self) -> u64
        ensures { result ≡ row_tag (row_view self.now) }
    {
        match self {
            ItemKey::One(scalar) => scalar_tag(scalar),
            ItemKey::Many(scalars) => row_tag(scalars),
        }
    }
}
