//! The value that a tree shows.
ghost use Rattle.std.specs.Prelude.{◌≡◌, true, IfOk, OnErr, OnOk};
ghost use Rattle.ssa_json.specs.View.{view, items_view, members_view};
ghost use Rattle.ssa_path.specs.Children.{elements, rises};
ghost use Rattle.ssa_path.specs.View.{element_view};
ghost use Rattle.ssa_typed.specs.Rows.{is_tree, are_trees};
ghost use Rattle.ssa_typed.specs.Values.{IsShownThere, items_of, leaf_value, members_of, value_of, values_of, with_member_under};

use crate::node::{Leaf, Node};
use ssa_json::value::Json;
use ssa_members::{Members, Name};
use ssa_path::element::Elem;
use std::alloc::{AllocError, Global};

impl Node {
    /// The value of this place with all that is below it, in memory of its own.
    pub fn to_json(&self, alloc: Global) -> Result<Json, AllocError>
        requires { is_tree self.now ≡ true }
        ensures value { IfOk result (λ v. view v ≡ value_of self.now) }
        ensures shown { IfOk result (λ v. IsShownThere self.now (view v)) }
    {
        let value = value_of(alloc, self)?;
        Ok(value)
    }
}

/// The value of a leaf.
pub fn leaf_value(alloc: Global, leaf: &Leaf) -> Result<Json, AllocError>
    ensures { IfOk result (λ v. view v ≡ leaf_value leaf.now) }
{
    match leaf {
        Leaf::Scalar(scalar) => Ok(Json::Scalar(scalar.copy(alloc)?)),
        Leaf::Atomic(value) => value.copy(alloc),
    }
}

/// Puts a value among the members, where the element is a field.
pub fn put_under(
    alloc: Global,
    members: &mut Members<Json>,
    element: &Elem,
    value: Json,
) -> Result<(), AllocError>
    ensures put { OnOk result (members_view members.new.entries ≡ with_member_under (element_view element.now) (view value) (members_view members.old.entries)) }
    ensures err { OnErr result (members.new ≡ members.old) }
{
    match element {
        Elem::Field(name) => {
            let key = Name::from_str(alloc, name.as_str())?;
            drop(members.insert(key, value)?);
            Ok(())
        }
        Elem::Key(_) => Ok(()),
        Elem::Value(_) => Ok(()),
    }
}

#[cycle(values)]
fn value_of(alloc: Global, node: &Node) -> Result<Json, AllocError>
    requires { is_tree node.now ≡ true }
    ensures { IfOk result (λ v. view v ≡ value_of node.now) }
{
    match node {
        Node::Leaf(leaf) => leaf_value(alloc, leaf),
        Node::Branch(fields) => Ok(Json::Object(members_of(alloc, fields)?)),
        Node::Dict(entries) => Ok(Json::Object(members_of(alloc, entries)?)),
        Node::List(items) => Ok(Json::List(items_of(alloc, items)?)),
    }
}

// The values of the fields of a record, or of the entries of a Dict.
#[cycle(values)]
fn members_of(alloc: Global, children: &[(Elem, Node)]) -> Result<Members<Json>, AllocError>
    requires rise { rises (elements children.now) ≡ true }
    requires trees { are_trees children.now ≡ true }
    ensures { IfOk result (λ m. members_view m.entries ≡ members_of (values_of children.now)) }
{
    let mut members = Members::new(alloc);
    for (element, child) in children {
        let value = value_of(alloc, child)?;
        put_under(alloc, &mut members, element, value)?;
    }
    Ok(members)
}

// The values of the items of a list, in their order.
#[cycle(values)]
fn items_of(alloc: Global, children: &[(Elem, Node)]) -> Result<Vec<Json>, AllocError>
    requires { are_trees children.now ≡ true }
    ensures { IfOk result (λ v. items_view v.items ≡ items_of (values_of children.now)) }
{
    let mut items = Vec::new(alloc);
    for child in children {
        items.push(value_of(alloc, &child.1)?)?;
    }
    Ok(items)
}
