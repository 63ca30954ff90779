//! Where the children of one place stand at another, found side by side where the children of both rise.
ghost use Rattle.std.specs.Prelude.{◌≡◌, true, IfOk};
ghost use Rattle.ssa_path.specs.Children.{elements, rises};
ghost use Rattle.ssa_typed.specs.Rows.{below, is_tree, own_content};
ghost use Rattle.ssa_turn_body.specs.Found.{AreFound};
ghost use Rattle.ssa_turn_body.specs.Marks.{may_stand};

use crate::found::places_in;
use ssa_path::children::order_at;
use ssa_path::element::Elem;
use ssa_typed::node::Node;
use std::alloc::{AllocError, Global};
use std::cmp::Ordering;

// Where the children of these elements stand among others, in one pass along both, which rise.
fn places_beside(
    alloc: Global,
    own: &[(Elem, Node)],
    others: &[(Elem, Node)],
) -> Result<Vec<Option<usize>>, AllocError>
    requires own { rises (elements own.now) ≡ true }
    requires others { rises (elements others.now) ≡ true }
    ensures { IfOk result (λ v. AreFound own.now others.now v.items) }
{
    let mut found = Vec::with_capacity(alloc, others.len())?;
    let (mut i, mut j) = (0, 0);
    while let Some(order) = order_at(own, i, others, j) {
        match order {
            Ordering::Less => i += 1,
            Ordering::Greater => {
                found.push(None)?;
                j += 1;
            }
            Ordering::Equal => {
                found.push(Some(i))?;
                i += 1;
                j += 1;
            }
        }
    }
    Ok(found)
}

/// Where the child of each of these elements stands at a place, if it has one. They may stand there:
/// the fields of a record and the entries of a Dict rise.
pub fn places_of(
    alloc: Global,
    own: &Node,
    others: &[(Elem, Node)],
) -> Result<Vec<Option<usize>>, AllocError>
    requires own { is_tree own.now ≡ true }
    requires stand { may_stand (own_content own.now) (elements others.now) ≡ true }
    ensures { IfOk result (λ v. AreFound (below own.now) others.now v.items) }
{
    match own {
        Node::Leaf(_) => places_in(alloc, own, others),
        Node::Branch(children) => places_beside(alloc, children, others),
        Node::Dict(children) => places_beside(alloc, children, others),
        Node::List(_) => places_in(alloc, own, others),
    }
}
