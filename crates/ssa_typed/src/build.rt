//! The trees of fitting scalars, atomic values and sets.
ghost use Rattle.std.specs.Prelude.{◌≡◌, true, IfOk};
ghost use Rattle.ssa_model.specs.definitions.Body.{value_places, value_order};
ghost use Rattle.ssa_json.specs.View.{view, items_view};
ghost use Rattle.ssa_schema.specs.Kinds.{kind_view, scalar_kind_view};
ghost use Rattle.ssa_model.specs.laws.Faultless.{Fits, IsScalar, ValuesFit};
ghost use Rattle.ssa_typed.specs.Flats.{AreListed, IsTreeOf, IsValue};
ghost use Rattle.ssa_typed.specs.Tested.{is_plain};

use crate::node::{Leaf, Node};
use crate::parts::{into_items, into_scalar};
use ssa_json::value::Json;
use ssa_path::element::Elem;
use ssa_schema::kind::{Kind, ScalarKind};
use std::alloc::{AllocError, Global};

// An item of a set, under its value.
fn value_child(alloc: Global, item: Json) -> Result<(Elem, Node), AllocError>
    requires { IsScalar (view item) }
    ensures { IfOk result (λ c. IsValue (view item) c) }
{
    let scalar = into_scalar(item);
    let element = Elem::Value(scalar.copy(alloc)?);
    Ok((element, Node::Leaf(Leaf::Scalar(scalar))))
}

// The items of a set, in their order.
fn value_children(
    alloc: Global,
    kind: &ScalarKind,
    items: Vec<Json>,
) -> Result<Vec<(Elem, Node)>, AllocError>
    requires { ValuesFit (scalar_kind_view kind.now) (items_view items.items) }
    ensures { IfOk result (λ cs. AreListed (value_order (items_view items.items)) (value_places (items_view items.items)) cs.items) }
{
    let _kind = kind;
    let mut children = Vec::with_capacity(alloc, items.len())?;
    for item in items {
        children.push(value_child(alloc, item)?)?;
    }
    Ok(children)
}

/// The tree of a scalar, an atomic value or a set, where the value fits the kind. Its texts and its items are moved into it.
pub fn plain_tree(alloc: Global, kind: &Kind, value: Json) -> Result<Node, AllocError>
    requires plain { is_plain (kind_view kind.now) ≡ true }
    requires fits { Fits (kind_view kind.now) (view value) }
    ensures { IfOk result (λ n. IsTreeOf (kind_view kind.now) (view value) n) }
{
    match kind {
        Kind::Scalar(_) => Ok(Node::Leaf(Leaf::Scalar(into_scalar(value)))),
        Kind::AtomicOf(_) => Ok(Node::Leaf(Leaf::Atomic(value))),
        Kind::SetOf(inside) => {
            let children = value_children(alloc, inside, into_items(value))?;
            Ok(Node::List(children))
        }
        Kind::Record(_) | Kind::Dict(_) | Kind::ItemsOf { .. } => unreachable!(),
    }
}
