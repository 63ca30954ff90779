//! Copies of trees.
ghost use Rattle.std.specs.Prelude.{◌≡◌, true, IfOk, IfSome, OnOk};
ghost use Rattle.ssa_members.specs.Texts.{is_short, text_bytes};
ghost use Rattle.ssa_model.specs.definitions.Path.{field};
ghost use Rattle.ssa_path.specs.View.{element_view};
ghost use Rattle.ssa_typed.specs.Copies.{kept, kept_below, leaf_of, AddsCopy};
ghost use Rattle.ssa_typed.specs.Rows.{leaf_content};

use crate::node::{Leaf, Node};
use ssa_json::value::Scalar;
use ssa_members::SmallText;
use ssa_path::element::Elem;
use std::alloc::{AllocError, Global};

impl Leaf {
    /// The same leaf, with new memory.
    pub fn copy(&self, alloc: Global) -> Result<Leaf, AllocError>
        ensures { IfOk result (λ l. leaf_content l ≡ leaf_content self.now) }
    {
        match self {
            Leaf::Scalar(scalar) => Ok(Leaf::Scalar(scalar.copy(alloc)?)),
            Leaf::Atomic(value) => Ok(Leaf::Atomic(value.copy(alloc)?)),
        }
    }
}

impl Node {
    /// The same tree, with new memory but for key fields, which both hold.
    pub fn copy(&self, alloc: Global) -> Result<Node, AllocError>
        ensures { IfOk result (λ n. kept n ≡ kept self.now) }
    {
        copied(alloc, self)
    }

    // The scalar that the node is, where it is one.
    #[inline(always)]
    fn scalar(&self) -> Option<&Scalar>
        ensures { IfSome result (λ s. self.now ≡ leaf_of s.now) }
    {
        match self {
            Node::Leaf(leaf) => match leaf {
                Leaf::Scalar(scalar) => Some(scalar),
                Leaf::Atomic(_) => None,
            },
            _ => None,
        }
    }
}

// Adds a copy of a scalar under a short name behind the others.
#[inline(never)]
fn push_long_scalar(
    alloc: Global,
    name: &SmallText,
    scalar: &Scalar,
    copies: &mut Vec<(Elem, Node)>,
) -> Result<(), AllocError>
    requires { is_short name.now ≡ true }
    ensures { OnOk result (AddsCopy (field (text_bytes name.now)) (leaf_of scalar.now) copies.old.items copies.new.items) }
{
    let leaf = Leaf::Scalar(scalar.copy(alloc)?);
    copies.push((Elem::Field(name.copy_short()), Node::Leaf(leaf)))?;
    Ok(())
}

// The same, where a short text or a number is put together at its place with no call.
#[inline(always)]
fn push_scalar(
    alloc: Global,
    name: &SmallText,
    scalar: &Scalar,
    copies: &mut Vec<(Elem, Node)>,
) -> Result<(), AllocError>
    requires { is_short name.now ≡ true }
    ensures { OnOk result (AddsCopy (field (text_bytes name.now)) (leaf_of scalar.now) copies.old.items copies.new.items) }
{
    match scalar {
        Scalar::Text(text) if text.is_short() => {
            let leaf = Leaf::Scalar(Scalar::Text(text.copy_short()));
            copies.push((Elem::Field(name.copy_short()), Node::Leaf(leaf)))?;
        }
        Scalar::Int(n) => {
            let leaf = Leaf::Scalar(Scalar::Int(*n));
            copies.push((Elem::Field(name.copy_short()), Node::Leaf(leaf)))?;
        }
        _ => push_long_scalar(alloc, name, scalar, copies)?,
    }
    Ok(())
}

// Adds a copy of a child behind the others. Most are fields with a short name.
#[cycle(copy)]
#[inline(always)]
pub(crate) fn push_copy(
    alloc: Global,
    element: &Elem,
    node: &Node,
    copies: &mut Vec<(Elem, Node)>,
) -> Result<(), AllocError>
    ensures { OnOk result (AddsCopy (element_view element.now) node.now copies.old.items copies.new.items) }
{
    match element {
        Elem::Field(name) if name.is_short() => push_under(alloc, name, node, copies)?,
        _ => push_long_copy(alloc, element, node, copies)?,
    }
    Ok(())
}

// Adds a copy of a node under a short name behind the others.
#[cycle(copy)]
#[inline(always)]
fn push_under(
    alloc: Global,
    name: &SmallText,
    node: &Node,
    copies: &mut Vec<(Elem, Node)>,
) -> Result<(), AllocError>
    requires { is_short name.now ≡ true }
    ensures { OnOk result (AddsCopy (field (text_bytes name.now)) node.now copies.old.items copies.new.items) }
{
    match node.scalar() {
        Some(scalar) => push_scalar(alloc, name, scalar, copies)?,
        None => push_tree(alloc, name, node, copies)?,
    }
    Ok(())
}

// Adds a copy of a tree under a short name behind the others.
#[cycle(copy)]
#[inline(always)]
fn push_tree(
    alloc: Global,
    name: &SmallText,
    node: &Node,
    copies: &mut Vec<(Elem, Node)>,
) -> Result<(), AllocError>
    requires { is_short name.now ≡ true }
    ensures { OnOk result (AddsCopy (field (text_bytes name.now)) node.now copies.old.items copies.new.items) }
{
    let copy = copied(alloc, node)?;
    copies.push((Elem::Field(name.copy_short()), copy))?;
    Ok(())
}

// Adds a copy of a child behind the others.
#[cycle(copy)]
#[inline(never)]
fn push_long_copy(
    alloc: Global,
    element: &Elem,
    node: &Node,
    copies: &mut Vec<(Elem, Node)>,
) -> Result<(), AllocError>
    ensures { OnOk result (AddsCopy (element_view element.now) node.now copies.old.items copies.new.items) }
{
    let element = element.copy(alloc)?;
    let node = copied(alloc, node)?;
    copies.push((element, node))?;
    Ok(())
}

#[cycle(copy)]
fn copied(alloc: Global, node: &Node) -> Result<Node, AllocError>
    ensures { IfOk result (λ n. kept n ≡ kept node.now) }
{
    match node {
        Node::Leaf(leaf) => Ok(Node::Leaf(leaf.copy(alloc)?)),
        Node::Branch(children) => Ok(Node::Branch(copied_children(alloc, children)?)),
        Node::Dict(children) => Ok(Node::Dict(copied_children(alloc, children)?)),
        Node::List(children) => Ok(Node::List(copied_children(alloc, children)?)),
    }
}

#[cycle(copy)]
fn copied_children(
    alloc: Global,
    children: &Vec<(Elem, Node)>,
) -> Result<Vec<(Elem, Node)>, AllocError>
    ensures { IfOk result (λ v. kept_below v.items ≡ kept_below children.now.items) }
{
    let mut copies = Vec::with_capacity(alloc, children.len())?;
    for child in children {
        push_copy(alloc, &child.0, &child.1, &mut copies)?;
    }
    Ok(copies)
}
