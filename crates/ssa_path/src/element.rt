//! One step of a path.
ghost use Rattle.std.specs.Prelude.{◌≡◌, IfOk};
ghost use Rattle.ssa_model.specs.definitions.Path.{element_cmp, is_item_element, same_element};
ghost use Rattle.ssa_path.specs.OwnText.{OwnTextsAreRead};
ghost use Rattle.ssa_path.specs.View.{element_view};

use crate::keys::{SharedKeys, are_same_members};
use crate::order::{order_keys, order_values};
use ssa_json::value::Scalar;
use ssa_members::SmallText;
use std::alloc::{AllocError, Global};
use std::cmp::Ordering;

/// A field of a record or an entry of a Dict, or an item of a list by its key fields or its value.
#[derive(Debug, Drop)]
pub enum Elem {
    Field(SmallText),
    Key(SharedKeys),
    Value(Scalar),
}

impl Elem {
    /// Whether the element names an item of a list.
    pub fn is_item(&self) -> bool
        ensures { result ≡ is_item_element (element_view self.now) }
    {
        match self {
            Elem::Field(_) => false,
            Elem::Key(_) => true,
            Elem::Value(_) => true,
        }
    }

    /// The order of the elements' texts, byte by byte.
    ///
    /// Fields stand before keys and keys before values. Numbers go by their digits, so `v:10`
    /// stands before `v:9`.
    #[inline(always)]
    pub fn order(&self, other: &Elem) -> Ordering
        ensures { result ≡ element_cmp (element_view self.now) (element_view other.now) }
    {
        match (self, other) {
            (Elem::Field(name), Elem::Field(other_name)) => name.order(other_name),
            _ => self.order_of_sorts(other),
        }
    }

    // The order of elements of which mostly one or both are items.
    #[inline(always)]
    fn order_of_sorts(&self, other: &Elem) -> Ordering
        ensures { result ≡ element_cmp (element_view self.now) (element_view other.now) }
    {
        match (self, other) {
            (Elem::Field(name), Elem::Field(other_name)) => name.order(other_name),
            (Elem::Key(keys), Elem::Key(others)) => order_keys(keys.members(), others.members()),
            (Elem::Value(scalar), Elem::Value(other_scalar)) => order_values(scalar, other_scalar),
            (Elem::Field(_), Elem::Key(_)) => Ordering::Less,
            (Elem::Field(_), Elem::Value(_)) => Ordering::Less,
            (Elem::Key(_), Elem::Value(_)) => Ordering::Less,
            (Elem::Key(_), Elem::Field(_)) => Ordering::Greater,
            (Elem::Value(_), Elem::Field(_)) => Ordering::Greater,
            (Elem::Value(_), Elem::Key(_)) => Ordering::Greater,
        }
    }

    /// Whether both are one element.
    #[inline(always)]
    #[tactic(auto, using(ssa_json::proofs::SameTexts::by_bytes))]
    pub fn is_same(&self, other: &Elem) -> bool
        ensures { result ≡ same_element (element_view self.now) (element_view other.now) }
    {
        match (self, other) {
            (Elem::Field(name), Elem::Field(other_name)) => name.is_same(other_name),
            _ => self.is_same_of_sorts(other),
        }
    }

    // Whether elements of which mostly one or both are items are one element.
    #[tactic(auto, using(ssa_json::proofs::SameTexts::by_bytes, crate::proofs::Sameness::same_values, crate::proofs::Sameness::same_keys))]
    #[inline(always)]
    fn is_same_of_sorts(&self, other: &Elem) -> bool
        ensures { result ≡ same_element (element_view self.now) (element_view other.now) }
    {
        match (self, other) {
            (Elem::Field(name), Elem::Field(other_name)) => name.is_same(other_name),
            (Elem::Key(keys), Elem::Key(others)) => {
                are_same_members(keys.members(), others.members())
            }
            (Elem::Value(scalar), Elem::Value(other_scalar)) => scalar.same(other_scalar),
            (Elem::Field(_), Elem::Key(_)) => false,
            (Elem::Field(_), Elem::Value(_)) => false,
            (Elem::Key(_), Elem::Value(_)) => false,
            (Elem::Key(_), Elem::Field(_)) => false,
            (Elem::Value(_), Elem::Field(_)) => false,
            (Elem::Value(_), Elem::Key(_)) => false,
        }
    }

    /// The same element. A name or a value is in new memory; key fields are held by one more, and
    /// `Err` comes as well where too many hold them.
    #[inline(always)]
    pub fn copy(&self, alloc: Global) -> Result<Elem, AllocError>
        ensures { IfOk result (λ e. element_view e ≡ element_view self.now) }
    {
        match self {
            Elem::Field(name) => Ok(Elem::Field(name.copy(alloc)?)),
            _ => self.copy_of_sorts(alloc),
        }
    }

    // The same element, which is mostly an item.
    #[inline(always)]
    fn copy_of_sorts(&self, alloc: Global) -> Result<Elem, AllocError>
        ensures { IfOk result (λ e. element_view e ≡ element_view self.now) }
    {
        match self {
            Elem::Field(name) => Ok(Elem::Field(name.copy(alloc)?)),
            Elem::Key(keys) => {
                let shared = keys.share()?;
                Ok(Elem::Key(shared))
            }
            Elem::Value(scalar) => {
                let copied = scalar.copy(alloc)?;
                Ok(Elem::Value(copied))
            }
        }
    }
}

/// Reading an element's own text gives the element, where the names of its key fields rise by bytes,
/// its numbers fit 64 bits and its texts are UTF-8, as in each `Elem`.
pub fn own_texts_are_read()
    ensures { OwnTextsAreRead }
{}
