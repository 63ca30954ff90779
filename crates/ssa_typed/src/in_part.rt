//! The part of a tree that a command reaches, and a tree put together of one's part and of another's rest.
ghost use Rattle.std.specs.Prelude.{◌≡◌, ◌∷◌, true, IfOk, OnOk};
ghost use Rattle.ssa_path.specs.Children.{elements, rises};
ghost use Rattle.ssa_path.specs.Subresources.{in_part, other_part, part_view};
ghost use Rattle.ssa_typed.specs.Copies.{kept_below};
ghost use Rattle.ssa_typed.specs.InPart.{AreSpliced, IsInPart, IsNew, IsPut, IsRecord, IsSpliced};

use crate::copy::push_copy;
use crate::node::Node;
use ssa_path::children::search;
use ssa_path::element::Elem;
use ssa_path::part::Part;
use std::alloc::{AllocError, Global};

// Takes out those children of a root that are not of the part.
fn keep_children(children: &mut Vec<(Elem, Node)>, part: Part)
    ensures { children.new.items ≡ in_part (part_view part) children.old.items }
{
    match part {
        Part::Main => children.retain(|child| Part::Main.has(&child.0)),
        Part::Status => children.retain(|child| Part::Status.has(&child.0)),
    }
}

// The record's root, with what is of the part. Takes no memory.
pub(crate) fn into_part(root: Node, part: Part) -> Node
    requires { IsRecord root }
    ensures { IsInPart (part_view part) root result }
{
    let Node::Branch(children) = root else {
        unreachable!("the root is a record");
    };
    let mut own = children;
    keep_children(&mut own, part);
    Node::Branch(own)
}

// Copies of the children that are not of the part.
fn copies_outside(
    alloc: Global,
    children: &[(Elem, Node)],
    part: Part,
) -> Result<Vec<(Elem, Node)>, AllocError>
    ensures { IfOk result (λ v. kept_below v.items ≡ kept_below (in_part (other_part (part_view part)) children.now)) }
{
    let mut copies = Vec::new(alloc);
    for (element, node) in children {
        if !part.has(element) {
            push_copy(alloc, element, node, &mut copies)?;
        }
    }
    Ok(copies)
}

// Puts a child, if there is one, at its place among the others.
fn put_child(
    children: &mut Vec<(Elem, Node)>,
    child: Option<(Elem, Node)>,
) -> Result<(), AllocError>
    requires rise { rises (elements children.old.items) ≡ true }
    requires new { IsNew child children.old.items }
    ensures { OnOk result (IsPut child children.old.items children.new.items) }
{
    let Some(child) = child else {
        return Ok(());
    };
    match search(children, &child.0) {
        Err(place) => children.insert(place, child)?,
        Ok(_) => unreachable!("the child is new"),
    }
    Ok(())
}

// The record of the object's children in the part, and of the live ones outside it.
fn spliced_children(
    alloc: Global,
    object: Vec<(Elem, Node)>,
    live: &[(Elem, Node)],
    part: Part,
) -> Result<Vec<(Elem, Node)>, AllocError>
    requires object { rises (elements object.items) ≡ true }
    requires live { rises (elements live.now) ≡ true }
    ensures { IfOk result (λ v. AreSpliced (part_view part) object.items live.now v.items) }
{
    let mut own = object;
    keep_children(&mut own, part);
    let mut rest = copies_outside(alloc, live, part)?;
    // Only the field `status` can be of the one part: it is put among the fields of the other.
    match part {
        Part::Main => {
            put_child(&mut own, rest.pop())?;
            Ok(own)
        }
        Part::Status => {
            put_child(&mut rest, own.pop())?;
            Ok(rest)
        }
    }
}

// The object's tree in the part, and the live one's outside it. What is of the object is moved, and what is live is copied.
pub(crate) fn splice(
    alloc: Global,
    object: Node,
    live: &Node,
    part: Part,
) -> Result<Node, AllocError>
    requires object { IsRecord object }
    requires live { IsRecord live.now }
    ensures { IfOk result (λ n. IsSpliced (part_view part) object live.now n) }
{
    let Node::Branch(own) = object else {
        unreachable!("the root is a record");
    };
    let Node::Branch(others) = live else {
        unreachable!("the root is a record");
    };
    let children = spliced_children(alloc, own, others, part)?;
    Ok(Node::Branch(children))
}
