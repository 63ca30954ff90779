//! Trees of values that are tested while they are made.
ghost use Rattle.std.specs.Prelude.{◌≡◌, List, [], ◌∷◌, ◌++◌, true, Some, IfOk, string_bytes};
ghost use Rattle.ssa_model.specs.definitions.Path.{field, key, Path};
ghost use Rattle.ssa_model.specs.definitions.Kind as kinds;
ghost use Rattle.ssa_model.specs.definitions.Body.{field_places, entry_places, item_places, key_order, places};
ghost use Rattle.ssa_model.specs.definitions.Lawful.{are_key_names, are_keyed, is_keyed};
ghost use Rattle.ssa_json.specs.View.{view, items_view, members_view};
ghost use Rattle.ssa_schema.specs.Finds.{Finds};
ghost use Rattle.ssa_schema.specs.Kinds.{kind_view, fields_view, names_view};
ghost use Rattle.ssa_typed.specs.Flats.{member_places, AreListed, AreNamed, IsChild, IsItem, IsTreeOf};
ghost use Rattle.ssa_typed.specs.Tested.{is_fitting_scalar, is_plain, member_faults, own_item_faults, IsTested, PushesTested};

use crate::build::plain_tree;
use crate::item_keys::keys_of;
use crate::node::{Leaf, Node};
use crate::parts::into_scalar;
use ssa_json::value::Json;
use ssa_members::{Members, Name};
use ssa_path::element::Elem;
use ssa_path::element_text::key_name;
use ssa_path::keys::SharedKeys;
use ssa_schema::kind::Kind;
use ssa_schema::{Found, Misfit, field_name, is_other, keys_misfit, repeated_item, value_fault};
use std::alloc::{AllocError, Global};

/// What was made of a value that fits, or the value's first fault.
#[derive(Drop)]
pub(crate) enum Tested<T> {
    Fits(T),
    Breaks(Found),
}

// A fault below the member of a name, seen from the object.
fn below_name(alloc: Global, found: Found, name: &str) -> Result<Found, AllocError>
    ensures { IfOk result (λ f. (inner : Path → List kinds.FaultAt) → Finds (Some found) inner → Finds (Some f) (λ p. inner (p ++ field name.now ∷ []))) }
{
    found.below(field_name(alloc, name)?)
}

// A fault below the item of a key, seen from the list.
fn below_key(alloc: Global, found: Found, own: SharedKeys) -> Result<Found, AllocError>
    ensures { IfOk result (λ f. (inner : Path → List kinds.FaultAt) → Finds (Some found) inner → Finds (Some f) (λ p. inner (p ++ key own ∷ []))) }
{
    found.below(key_name(alloc, own.members())?)
}

// The tree of a value of a kind that has no fields and no entries: it is tested before it is made.
fn tested_plain(alloc: Global, kind: &Kind, value: Json) -> Result<Tested<Node>, AllocError>
    requires { is_plain (kind_view kind.now) ≡ true }
    ensures { IfOk result (λ t. IsTested (kinds.faults (kind_view kind.now) (view value)) (IsTreeOf (kind_view kind.now) (view value)) t) }
{
    if let Some(found) = value_fault(alloc, &value, kind)? {
        return Ok(Tested::Breaks(found));
    }
    Ok(Tested::Fits(plain_tree(alloc, kind, value)?))
}

// The tree of a value, or its first fault. Members and items are tested one by one, and each is made a child at once.
#[cycle(tested)]
#[inline(always)]
pub(crate) fn tested_tree(
    alloc: Global,
    kind: &Kind,
    value: Json,
) -> Result<Tested<Node>, AllocError>
    requires { is_keyed (kind_view kind.now) ≡ true }
    ensures { IfOk result (λ t. IsTested (kinds.faults (kind_view kind.now) (view value)) (IsTreeOf (kind_view kind.now) (view value)) t) }
{
    match (kind, value) {
        (Kind::Record(fields), Json::Object(members)) => {
            match tested_fields(alloc, fields, members)? {
                Tested::Fits(children) => Ok(Tested::Fits(Node::Branch(children))),
                Tested::Breaks(found) => Ok(Tested::Breaks(found)),
            }
        }
        (Kind::Dict(inside), Json::Object(members)) => {
            match tested_entries(alloc, inside, members)? {
                Tested::Fits(children) => Ok(Tested::Fits(Node::Dict(children))),
                Tested::Breaks(found) => Ok(Tested::Breaks(found)),
            }
        }
        (Kind::ItemsOf { keys, fields }, Json::List(items)) => {
            match tested_items(alloc, fields, keys, items)? {
                Tested::Fits(children) => Ok(Tested::Fits(Node::List(children))),
                Tested::Breaks(found) => Ok(Tested::Breaks(found)),
            }
        }
        (Kind::Record(_) | Kind::Dict(_), Json::List(_) | Json::Scalar(_))
        | (Kind::ItemsOf { .. }, Json::Object(_) | Json::Scalar(_)) => {
            Ok(Tested::Breaks(Found::here(alloc, Misfit::WrongType)))
        }
        // (taken out of the result of the call, so that what the frequent ways make need not stand where a call writes)
        (Kind::Scalar(_) | Kind::AtomicOf(_) | Kind::SetOf(_), value) => {
            let plain = tested_plain(alloc, kind, value)?;
            Ok(plain)
        }
    }
}

// The child that a value of a kind makes under a name, or the value's first fault.
#[cycle(tested)]
#[inline(always)]
fn tested_child(
    alloc: Global,
    kind: &Kind,
    name: Name,
    member: Json,
) -> Result<Tested<(Elem, Node)>, AllocError>
    requires { is_keyed (kind_view kind.now) ≡ true }
    ensures { IfOk result (λ t. IsTested (λ p. kinds.faults (kind_view kind.now) (view member) (p ++ field (string_bytes name) ∷ [])) (IsChild (field (string_bytes name)) (places (kind_view kind.now) (view member))) t) }
{
    match tested_tree(alloc, kind, member)? {
        Tested::Fits(child) => Ok(Tested::Fits((Elem::Field(name.into_text()), child))),
        Tested::Breaks(found) => Ok(Tested::Breaks(below_name(alloc, found, name.as_str())?)),
    }
}

// Puts the child that a value of a kind makes under a name behind the others, or tells the value's first fault.
#[cycle(tested)]
#[inline(never)]
fn push_tree(
    alloc: Global,
    kind: &Kind,
    name: Name,
    member: Json,
    children: &mut Vec<(Elem, Node)>,
) -> Result<Option<Found>, AllocError>
    requires { is_keyed (kind_view kind.now) ≡ true }
    ensures { IfOk result (PushesTested (λ p. kinds.faults (kind_view kind.now) (view member) (p ++ field (string_bytes name) ∷ [])) (IsChild (field (string_bytes name)) (places (kind_view kind.now) (view member))) children.old.items children.new.items) }
{
    match tested_child(alloc, kind, name, member)? {
        Tested::Fits(child) => {
            children.push(child)?;
            Ok(None)
        }
        Tested::Breaks(found) => Ok(Some(found)),
    }
}

// Whether the value is a scalar of a kind that takes it.
#[inline(always)]
fn is_fitting_scalar(kind: &Kind, value: &Json) -> bool
    ensures { result ≡ is_fitting_scalar (kind_view kind.now) (view value.now) }
{
    match (kind, value) {
        (Kind::Scalar(wanted), Json::Scalar(scalar)) => wanted.has(scalar),
        _ => false,
    }
}

// Puts the child that a value of a kind makes under a name behind the others, or tells the value's first fault. Most
// members are scalars that fit, and are made where they stand.
#[cycle(tested)]
#[inline(always)]
fn push_child(
    alloc: Global,
    kind: &Kind,
    name: Name,
    member: Json,
    children: &mut Vec<(Elem, Node)>,
) -> Result<Option<Found>, AllocError>
    requires { is_keyed (kind_view kind.now) ≡ true }
    ensures { IfOk result (PushesTested (λ p. kinds.faults (kind_view kind.now) (view member) (p ++ field (string_bytes name) ∷ [])) (IsChild (field (string_bytes name)) (places (kind_view kind.now) (view member))) children.old.items children.new.items) }
{
    if !is_fitting_scalar(kind, &member) {
        // (taken out of the result of the call, so that what the frequent way tells need not stand where a call writes)
        let told = push_tree(alloc, kind, name, member, children)?;
        return Ok(told);
    }
    let scalar = into_scalar(member);
    let leaf = Node::Leaf(Leaf::Scalar(scalar));
    children.push((Elem::Field(name.into_text()), leaf))?;
    Ok(None)
}

// The fault of a member whose name the record has no field of. It is rare, and apart: what it holds on the stack would be
// cleared for each member.
#[inline(never)]
fn unknown_field(alloc: Global, name: &str) -> Result<Found, AllocError>
    ensures { IfOk result (λ f. Finds (Some f) (λ p. kinds.fault_at kinds.unknown_field (p ++ field name.now ∷ []) ∷ [])) }
{
    let unknown = Found::here(alloc, Misfit::UnknownField);
    below_name(alloc, unknown, name)
}

// Puts the field of a record that a member makes behind the others, or tells the member's first fault.
#[cycle(tested)]
#[inline(always)]
fn push_field(
    alloc: Global,
    fields: &Members<Kind>,
    near: &mut usize,
    name: Name,
    member: Json,
    children: &mut Vec<(Elem, Node)>,
) -> Result<Option<Found>, AllocError>
    requires { are_keyed (fields_view fields.now.entries) ≡ true }
    ensures { IfOk result (PushesTested (member_faults (fields_view fields.now.entries) (string_bytes name) (view member)) (IsChild (field (string_bytes name)) (member_places (fields_view fields.now.entries) (string_bytes name) (view member))) children.old.items children.new.items) }
{
    let Some(kind) = fields.get_near(near, name.as_str()) else {
        return Ok(Some(unknown_field(alloc, name.as_str())?));
    };
    push_child(alloc, kind, name, member, children)
}

/// The fields of a record, in the order of their names, or the first fault of the members.
#[cycle(tested)]
pub(crate) fn tested_fields(
    alloc: Global,
    fields: &Members<Kind>,
    members: Members<Json>,
) -> Result<Tested<Vec<(Elem, Node)>>, AllocError>
    requires { are_keyed (fields_view fields.now.entries) ≡ true }
    ensures { IfOk result (λ t. IsTested (kinds.field_faults (fields_view fields.now.entries) (members_view members.entries)) (λ cs. AreNamed (field_places (fields_view fields.now.entries) (members_view members.entries)) cs.items) t) }
{
    let mut children = Vec::with_capacity(alloc, members.len())?;
    let mut near = 0;
    for (name, member) in members.into_entries() {
        if let Some(found) = push_field(alloc, fields, &mut near, name, member, &mut children)? {
            return Ok(Tested::Breaks(found));
        }
    }
    Ok(Tested::Fits(children))
}

// The entries of a Dict, in the order of their names, or their first fault.
#[cycle(tested)]
fn tested_entries(
    alloc: Global,
    inside: &Kind,
    members: Members<Json>,
) -> Result<Tested<Vec<(Elem, Node)>>, AllocError>
    requires { is_keyed (kind_view inside.now) ≡ true }
    ensures { IfOk result (λ t. IsTested (kinds.entry_faults (kind_view inside.now) (members_view members.entries)) (λ cs. AreNamed (entry_places (kind_view inside.now) (members_view members.entries)) cs.items) t) }
{
    let mut children = Vec::with_capacity(alloc, members.len())?;
    for (name, member) in members.into_entries() {
        if let Some(found) = push_child(alloc, inside, name, member, &mut children)? {
            return Ok(Tested::Breaks(found));
        }
    }
    Ok(Tested::Fits(children))
}

// An item of a map list, or its first fault. An item that is not new has the keys of an earlier one.
#[cycle(tested)]
#[inline(always)]
fn tested_item(
    alloc: Global,
    fields: &Members<Kind>,
    keys: &[String],
    item: Json,
    is_new: bool,
) -> Result<Tested<(Elem, Node)>, AllocError>
    requires names { are_key_names (names_view keys.now) ≡ true }
    requires keyed { are_keyed (fields_view fields.now.entries) ≡ true }
    ensures { IfOk result (λ t. IsTested (own_item_faults is_new (names_view keys.now) (fields_view fields.now.entries) (view item)) (IsItem (names_view keys.now) (fields_view fields.now.entries) (view item)) t) }
{
    let Json::Object(members) = item else {
        return Ok(Tested::Breaks(Found::here(alloc, Misfit::WrongType)));
    };
    if let Some(misfit) = keys_misfit(&members, keys, fields) {
        return Ok(Tested::Breaks(Found::here(alloc, misfit)));
    }
    let key = keys_of(alloc, keys, fields, &members)?;
    if !is_new {
        let twice = Found::here(alloc, Misfit::DuplicateItem);
        return Ok(Tested::Breaks(below_key(alloc, twice, key)?));
    }
    match tested_fields(alloc, fields, members)? {
        Tested::Fits(below) => Ok(Tested::Fits((Elem::Key(key), Node::Branch(below)))),
        Tested::Breaks(found) => Ok(Tested::Breaks(below_key(alloc, found, key)?)),
    }
}

// The items of a map list, in their order, or their first fault.
#[cycle(tested)]
fn tested_items(
    alloc: Global,
    fields: &Members<Kind>,
    keys: &[String],
    items: Vec<Json>,
) -> Result<Tested<Vec<(Elem, Node)>>, AllocError>
    requires names { are_key_names (names_view keys.now) ≡ true }
    requires keyed { are_keyed (fields_view fields.now.entries) ≡ true }
    ensures { IfOk result (λ t. IsTested (kinds.item_faults (names_view keys.now) (fields_view fields.now.entries) [] (items_view items.items)) (λ cs. AreListed (key_order (names_view keys.now) (items_view items.items)) (item_places (names_view keys.now) (fields_view fields.now.entries) (items_view items.items)) cs.items) t) }
{
    let repeated = repeated_item(alloc, &items, keys)?;
    let mut children = Vec::with_capacity(alloc, items.len())?;
    let mut place: usize = 0;
    for item in items {
        match tested_item(alloc, fields, keys, item, is_other(repeated, place))? {
            Tested::Fits(child) => children.push(child)?,
            Tested::Breaks(found) => return Ok(Tested::Breaks(found)),
        }
        place += 1;
    }
    Ok(Tested::Fits(children))
}
