//! The values of a body after a record: the tree of the body before it is walked along the paths that
//! the record touches.
ghost use Rattle.std.specs.Prelude.{◌≡◌, ◌∷◌, ◌++◌, [], true, map, option_map, IfOk, OnOk};
ghost use Rattle.std.specs.Option.{unwrap_or};
ghost use Rattle.ssa_model.specs.definitions.PathMap.{get};
ghost use Rattle.ssa_json.specs.View.{view, items_view, members_view};
ghost use Rattle.ssa_path.specs.View.{element_view, path_view};
ghost use Rattle.ssa_typed.specs.InOrder.{IsInOrder};
ghost use Rattle.ssa_typed.specs.MergedOrder.{lent_place, places};
ghost use Rattle.ssa_typed.specs.Rows.{below, is_tree, own_content};
ghost use Rattle.ssa_typed.specs.Values.{leaf_value};
ghost use Rattle.ssa_record.specs.LedValues.{has_items, has_members, AreKept, AreLedItems, ArePut, IsLed, IsLedItem};
ghost use Rattle.ssa_record.specs.Places.{maps_of, AllTouched, IsTouchedBelow};

use crate::order_after::order_after;
use crate::places::ToldPlaces;
use ssa_json::value::Json;
use ssa_members::Members;
use ssa_path::children::find_child;
use ssa_path::element::Elem;
use ssa_path::trie::Trie;
use ssa_typed::merged_order::{find_place, places_in_order};
use ssa_typed::node::{Leaf, Node};
use ssa_typed::value::{leaf_value, put_under};
use std::alloc::{AllocError, Global};

// The value of a leaf after the record.
fn led_leaf(
    alloc: Global,
    told: &ToldPlaces<'_>,
    path: &[Elem],
    leaf: &Leaf,
) -> Result<Json, AllocError>
    ensures { IfOk result (λ v. view v ≡ unwrap_or (get (maps_of told.now).leaves (path_view path.now)) (leaf_value leaf.now)) }
{
    match told.leaf_at(path) {
        Some(value) => value.copy(alloc),
        None => leaf_value(alloc, leaf),
    }
}

// Puts what the record puts right below a path among the members.
fn put_members(
    alloc: Global,
    told: &ToldPlaces<'_>,
    touched: &Trie,
    path: &[Elem],
    members: &mut Members<Json>,
) -> Result<(), AllocError>
    requires touched { IsTouchedBelow (maps_of told.now) (path_view path.now) touched.now }
    requires all { AllTouched (maps_of told.now) }
    ensures { OnOk result (ArePut (maps_of told.now) (path_view path.now) (members_view members.old.entries) (members_view members.new.entries)) }
{
    for child in &touched.below {
        match told.put_at(path, &child.0) {
            Some(put) => {
                let value = put.value.copy(alloc)?;
                put_under(alloc, members, &child.0, value)?;
            }
            None => (),
        }
    }
    Ok(())
}

// The value of a child after the record.
#[cycle(led)]
fn led_child(
    alloc: Global,
    told: &ToldPlaces<'_>,
    touched: &Trie,
    path: &mut Vec<Elem>,
    child: &(Elem, Node),
) -> Result<Option<Json>, AllocError>
    requires tree { is_tree child.now.1 ≡ true }
    requires touched { IsTouchedBelow (maps_of told.now) (path_view path.old.items) touched.now }
    requires all { AllTouched (maps_of told.now) }
    ensures path { OnOk result (path.new.items ≡ path.old.items) }
    ensures led { IfOk result (λ o. IsLed (maps_of told.now) (path_view path.old.items ++ element_view child.now.0 ∷ []) child.now.1 o) }
{
    match find_child(&touched.below, &child.0) {
        None => Ok(Some(child.1.to_json(alloc)?)),
        Some(below) => {
            let element = child.0.copy(alloc)?;
            path.push(element)?;
            let value = led_value(alloc, told, below, path, &child.1)?;
            path.pop();
            Ok(value)
        }
    }
}

// The members of what stays right below a place, each with its value after the record.
#[cycle(led)]
fn kept_members(
    alloc: Global,
    told: &ToldPlaces<'_>,
    touched: &Trie,
    path: &mut Vec<Elem>,
    node: &Node,
) -> Result<Option<Members<Json>>, AllocError>
    requires tree { is_tree node.now ≡ true }
    requires touched { IsTouchedBelow (maps_of told.now) (path_view path.old.items) touched.now }
    requires all { AllTouched (maps_of told.now) }
    ensures path { OnOk result (path.new.items ≡ path.old.items) }
    ensures kept { IfOk result (λ o. AreKept (maps_of told.now) (path_view path.old.items) node.now (option_map (λ m. members_view m.entries) o)) }
{
    let mut members = Members::new(alloc);
    for child in node.children() {
        if told.is_cut(path, &child.0) {
            continue;
        }
        match led_child(alloc, told, touched, path, child)? {
            Some(value) => put_under(alloc, &mut members, &child.0, value)?,
            None => return Ok(None),
        }
    }
    Ok(Some(members))
}

// The value of a record or a Dict after the record.
#[cycle(led)]
fn led_object(
    alloc: Global,
    told: &ToldPlaces<'_>,
    touched: &Trie,
    path: &mut Vec<Elem>,
    node: &Node,
) -> Result<Option<Json>, AllocError>
    requires tree { is_tree node.now ≡ true }
    requires members { has_members (own_content node.now) ≡ true }
    requires touched { IsTouchedBelow (maps_of told.now) (path_view path.old.items) touched.now }
    requires all { AllTouched (maps_of told.now) }
    ensures path { OnOk result (path.new.items ≡ path.old.items) }
    ensures led { IfOk result (λ o. IsLed (maps_of told.now) (path_view path.old.items) node.now o) }
{
    let Some(mut members) = kept_members(alloc, told, touched, path, node)? else {
        return Ok(None);
    };
    put_members(alloc, told, touched, path, &mut members)?;
    Ok(Some(Json::Object(members)))
}

// The value of an item after the record, where it is put or stays.
#[cycle(led)]
fn led_item(
    alloc: Global,
    told: &ToldPlaces<'_>,
    touched: &Trie,
    path: &mut Vec<Elem>,
    node: &Node,
    sorted: &[(&Elem, usize)],
    element: &Elem,
) -> Result<Option<Json>, AllocError>
    requires tree { is_tree node.now ≡ true }
    requires sorted { IsInOrder (places (below node.now)) (map lent_place sorted.now) }
    requires touched { IsTouchedBelow (maps_of told.now) (path_view path.old.items) touched.now }
    requires all { AllTouched (maps_of told.now) }
    ensures path { OnOk result (path.new.items ≡ path.old.items) }
    ensures led { IfOk result (λ o. IsLedItem (maps_of told.now) (path_view path.old.items) node.now (element_view element.now) o) }
{
    match told.put_at(path, element) {
        Some(put) => Ok(Some(put.value.copy(alloc)?)),
        None => match find_place(sorted, element) {
            Some(place) => led_child(alloc, told, touched, path, &node.children()[place]),
            None => Ok(None),
        },
    }
}

// The values of these items after the record.
#[cycle(led)]
fn led_items(
    alloc: Global,
    told: &ToldPlaces<'_>,
    touched: &Trie,
    path: &mut Vec<Elem>,
    node: &Node,
    order: &[Elem],
) -> Result<Option<Vec<Json>>, AllocError>
    requires tree { is_tree node.now ≡ true }
    requires touched { IsTouchedBelow (maps_of told.now) (path_view path.old.items) touched.now }
    requires all { AllTouched (maps_of told.now) }
    ensures path { OnOk result (path.new.items ≡ path.old.items) }
    ensures led { IfOk result (λ o. AreLedItems (maps_of told.now) (path_view path.old.items) node.now (path_view order.now) (option_map (λ vs. items_view vs.items) o)) }
{
    let sorted = places_in_order(alloc, node.children())?;
    let mut items = Vec::with_capacity(alloc, order.len())?;
    for element in order {
        match led_item(alloc, told, touched, path, node, &sorted, element)? {
            Some(value) => items.push(value)?,
            None => return Ok(None),
        }
    }
    Ok(Some(items))
}

// The value of a list after the record.
#[cycle(led)]
fn led_list(
    alloc: Global,
    told: &ToldPlaces<'_>,
    touched: &Trie,
    path: &mut Vec<Elem>,
    node: &Node,
) -> Result<Option<Json>, AllocError>
    requires tree { is_tree node.now ≡ true }
    requires items { has_items (own_content node.now) ≡ true }
    requires touched { IsTouchedBelow (maps_of told.now) (path_view path.old.items) touched.now }
    requires all { AllTouched (maps_of told.now) }
    ensures path { OnOk result (path.new.items ≡ path.old.items) }
    ensures led { IfOk result (λ o. IsLed (maps_of told.now) (path_view path.old.items) node.now o) }
{
    let Some(order) = order_after(alloc, node.children(), told, touched, path)? else {
        return Ok(None);
    };
    match led_items(alloc, told, touched, path, node, &order)? {
        Some(items) => Ok(Some(Json::List(items))),
        None => Ok(None),
    }
}

/// The value after the record of what stands at a path of the body, or none where no record of the
/// body tells this. A walk along the touched paths: the rest is copied as it stands.
#[cycle(led)]
pub fn led_value(
    alloc: Global,
    told: &ToldPlaces<'_>,
    touched: &Trie,
    path: &mut Vec<Elem>,
    node: &Node,
) -> Result<Option<Json>, AllocError>
    requires tree { is_tree node.now ≡ true }
    requires touched { IsTouchedBelow (maps_of told.now) (path_view path.old.items) touched.now }
    requires all { AllTouched (maps_of told.now) }
    ensures path { OnOk result (path.new.items ≡ path.old.items) }
    ensures led { IfOk result (λ o. IsLed (maps_of told.now) (path_view path.old.items) node.now o) }
{
    match node {
        Node::Leaf(leaf) => Ok(Some(led_leaf(alloc, told, path, leaf)?)),
        Node::Branch(_) => led_object(alloc, told, touched, path, node),
        Node::Dict(_) => led_object(alloc, told, touched, path, node),
        Node::List(_) => led_list(alloc, told, touched, path, node),
    }
}
