//! Equality of JSON values, without memory.
ghost use Rattle.std.specs.Prelude.{◌≡◌, ◌↔◌, IsTrue};
ghost use Rattle.ssa_model.specs.definitions.Json.{same_text, same_scalar, same_json, same_items, same_members};
ghost use Rattle.ssa_json.specs.View.{view, items_view, members_view, scalar_view};

use crate::text::is_same_text;
use crate::value::{Json, Scalar};
use ssa_members::Members;

impl Scalar {
    /// Whether the two are one scalar.
    #[inline(always)]
    #[tactic(auto, using(crate::proofs::SameTexts::by_bytes))]
    pub fn same(&self, other: &Scalar) -> bool
        ensures test { result ≡ same_scalar (scalar_view self.now) (scalar_view other.now) }
        ensures value { IsTrue result ↔ (scalar_view self.now ≡ scalar_view other.now) }
    {
        match (self, other) {
            (Scalar::Text(a), Scalar::Text(b)) => a.is_same(b),
            (Scalar::Int(a), Scalar::Int(b)) => *a == *b,
            (Scalar::Bool(a), Scalar::Bool(b)) => *a == *b,
            _ => false,
        }
    }
}

impl Json {
    /// Whether the two are one value.
    pub fn same(&self, other: &Json) -> bool
        ensures test { result ≡ same_json (view self.now) (view other.now) }
        ensures value { IsTrue result ↔ (view self.now ≡ view other.now) }
    {
        same_values(self, other)
    }
}

#[cycle(same)]
fn same_values(value: &Json, other: &Json) -> bool
    ensures { result ≡ same_json (view value.now) (view other.now) }
{
    match (value, other) {
        (Json::Scalar(a), Json::Scalar(b)) => a.same(b),
        (Json::List(a), Json::List(b)) => same_items(a, b),
        (Json::Object(a), Json::Object(b)) => same_members(a, b),
        _ => false,
    }
}

#[cycle(same)]
fn same_items(items: &Vec<Json>, others: &Vec<Json>) -> bool
    ensures { result ≡ same_items (items_view items.now.items) (items_view others.now.items) }
{
    let mut rest = others.iter();
    for item in items {
        let Some(other) = rest.next() else {
            return false;
        };
        if !same_values(item, other) {
            return false;
        }
    }
    rest.next().is_none()
}

#[cycle(same)]
fn same_members(members: &Members<Json>, others: &Members<Json>) -> bool
    ensures { result ≡ same_members (members_view members.now.entries) (members_view others.now.entries) }
{
    let mut rest = others.entries().iter();
    for (name, member) in members.entries() {
        let Some((other_name, other)) = rest.next() else {
            return false;
        };
        if !is_same_text(name.as_str(), other_name.as_str()) || !same_values(member, other) {
            return false;
        }
    }
    rest.next().is_none()
}
