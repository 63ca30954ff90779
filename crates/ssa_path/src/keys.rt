//! The key fields that name an item of a list.
ghost use Rattle.std.specs.Prelude.{◌≡◌, true, IfOk};
ghost use Rattle.std.specs.Cmp.Lexicographic.{pointwise};
ghost use Rattle.ssa_members.specs.Texts.{text_bytes};
ghost use Rattle.ssa_json.specs.View.{scalar_view};
ghost use Rattle.ssa_path.specs.Keys.{are_keys, keys_of, members_view, names_rise_after, same_key};

use ssa_json::value::Scalar;
use ssa_members::SmallText;
use std::alloc::{AllocError, Global};
use std::marker::Model;
use std::rc::Rc;

/// The key fields of an item of a list, at least one, in the order of their names' bytes.
///
/// FieldsV1 writes an item of a map list by them, as `k:{"name":"web"}`.
#[derive(Debug, Drop)]
pub struct Keys {
    members: Vec<(SmallText, Scalar)>,
}

impl Model for Keys {
    ghost use Rattle.std.specs.Prelude.{◌≡◌, true};
    ghost use Rattle.ssa_path.specs.Keys.{Members, coded_members, are_keys, members_view};

    ghost Value = { Members };

    ghost coded = { coded_members };

    ghost view = { λ k. members_view k.members.items };

    ghost invariant = { λ k. are_keys (members_view k.members.items) ≡ true };
}

/// Key fields that several hold at once. They are never changed, and go with the last who holds them.
#[derive(Debug, Drop)]
pub struct SharedKeys {
    keys: Rc<Keys>,
}

impl Model for SharedKeys {
    ghost use Rattle.std.specs.Prelude.{◌≡◌, true};
    ghost use Rattle.ssa_path.specs.Keys.{Members, coded_members, are_keys};

    ghost Value = { Members };

    ghost coded = { coded_members };

    ghost view = { λ k. k.keys.value };

    ghost invariant = { λ k. are_keys k.keys.value ≡ true };
}

// Whether each name stands behind the one before it.
fn do_names_rise(first: &str, members: &[(SmallText, Scalar)]) -> bool
    ensures { result ≡ names_rise_after first.now (members_view members.now) }
{
    let mut last = first.as_bytes();
    for member in members {
        let name = member.0.as_str().as_bytes();
        if last.cmp(name).is_ge() {
            return false;
        }
        last = name;
    }
    true
}

// Whether there is a member, and the names rise.
fn are_keys(members: &[(SmallText, Scalar)]) -> bool
    ensures { result ≡ are_keys (members_view members.now) }
{
    match members {
        [] => false,
        [first, rest @ ..] => do_names_rise(first.0.as_str(), rest),
    }
}

// Whether both members have one name and one value. The names are mostly one, so the values are compared first.
#[tactic(auto, using(ssa_json::proofs::SameTexts::by_bytes))]
fn is_same_member(member: &(SmallText, Scalar), other: &(SmallText, Scalar)) -> bool
    ensures { result ≡ same_key (text_bytes member.now.0, scalar_view member.now.1) (text_bytes other.now.0, scalar_view other.now.1) }
{
    member.1.same(&other.1) && member.0.is_same(&other.0)
}

/// Whether both have the same names and values. Takes no memory.
pub fn are_same_members(members: &[(SmallText, Scalar)], others: &[(SmallText, Scalar)]) -> bool
    ensures { result ≡ pointwise same_key (members_view members.now) (members_view others.now) }
{
    match (members, others) {
        ([], []) => true,
        ([], [_other, ..]) => false,
        ([_first, ..], []) => false,
        ([first, rest @ ..], [other, others @ ..]) => {
            is_same_member(first, other) && are_same_members(rest, others)
        }
    }
}

impl Keys {
    /// The key fields with these names and values, where there is one and the names rise by bytes. Takes no memory.
    pub fn new(members: Vec<(SmallText, Scalar)>) -> Option<Keys>
        ensures { result ≡ keys_of (members_view members.items) }
    {
        if !are_keys(&members) {
            return None;
        }
        Some(Keys { members })
    }

    /// The names and values, in the order of the names.
    pub fn members(&self) -> &[(SmallText, Scalar)]
        ensures same { members_view result.now ≡ self.now }
        ensures rise { are_keys self.now ≡ true }
    {
        &self.members
    }
}

impl SharedKeys {
    /// The key fields, held by one.
    pub fn of(alloc: Global, keys: Keys) -> Result<SharedKeys, AllocError>
        ensures { IfOk result (λ k. k ≡ keys) }
    {
        match Rc::new(alloc, keys) {
            Ok(keys) => Ok(SharedKeys { keys }),
            Err(_) => Err(AllocError),
        }
    }

    /// The names and values, in the order of the names.
    pub fn members(&self) -> &[(SmallText, Scalar)]
        ensures same { members_view result.now ≡ self.now }
        ensures rise { are_keys self.now ≡ true }
    {
        self.keys.members()
    }

    /// The same key fields for one more who holds them. Takes no memory; `Err` comes where too many
    /// hold them.
    #[inline(always)]
    pub fn share(&self) -> Result<SharedKeys, AllocError>
        ensures { IfOk result (λ k. k ≡ self.now) }
    {
        let keys = self.keys.clone()?;
        Ok(SharedKeys { keys })
    }
}
