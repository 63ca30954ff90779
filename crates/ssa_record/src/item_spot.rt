//! The way to a field of an item of a map list.
ghost use Rattle.std.specs.Prelude.{◌≡◌, true, IfOk, IfSome};
ghost use Rattle.ssa_model.specs.definitions.Path.{field, key, names_key};
ghost use Rattle.ssa_path.specs.Keys.{members_view};
ghost use Rattle.ssa_path.specs.View.{path_view};
ghost use Rattle.ssa_typed.specs.Rows.{is_tree};
ghost use Rattle.ssa_record.specs.Places.{maps_of};
ghost use Rattle.ssa_record.specs.Spots.{IsDown, IsFieldBelow, IsItemBelow};

use crate::places::ToldPlaces;
use crate::spot::{Item, Spot, only_child};
use ssa_json::text::is_same_text;
use ssa_json::value::Scalar;
use ssa_members::SmallText;
use ssa_path::element::Elem;
use ssa_schema::kind::{Kind, find_field};
use std::alloc::{AllocError, Global};

// Whether one of the key fields has the name.
fn have_name(keys: &[(SmallText, Scalar)], name: &str) -> bool
    ensures { result ≡ names_key (key (members_view keys.now)) (field name.now) }
{
    for member in keys {
        if is_same_text(name, member.0.as_str()) {
            return true;
        }
    }
    false
}

// The item below which is all that is touched at and below a list, with its element.
fn item_below<'a>(spot: &Spot<'a>) -> Option<(&'a Elem, Item<'a>)>
    requires { is_tree spot.now.node.now ≡ true }
    ensures { IfSome result (λ x. IsItemBelow spot.now x.0.now x.1) }
{
    let (element, touched) = only_child(spot.touched)?;
    match (spot.kind, element) {
        (Kind::ItemsOf { keys: _, fields }, Elem::Key(keys)) => {
            let node = spot.node.child(element)?;
            let item = Item {
                touched,
                node,
                keys: keys.members(),
                fields,
            };
            Some((element, item))
        }
        _ => None,
    }
}

// The field of an item at and below which is all that is touched below the item, with its element.
// It is no key field, and neither cut nor put.
fn field_below<'a>(
    told: &ToldPlaces<'_>,
    path: &[Elem],
    item: &Item<'a>,
) -> Option<(&'a Elem, Spot<'a>)>
    requires { is_tree item.now.node.now ≡ true }
    ensures { IfSome result (λ x. IsFieldBelow (maps_of told.now) (path_view path.now) item.now x.0.now x.1) }
{
    let (element, touched) = only_child(item.touched)?;
    let Elem::Field(name) = element else {
        return None;
    };
    if have_name(item.keys, name.as_str()) {
        return None;
    }
    let kind = find_field(item.fields, name.as_str())?;
    let node = item.node.child(element)?;
    if told.is_cut(path, element) || told.put_at(path, element).is_some() {
        return None;
    }
    let below = Spot {
        touched,
        node,
        kind,
    };
    Some((element, below))
}

/// The field of an item at and below which is all that is touched at and below a map list, to which
/// the path is led.
pub fn into_item<'a>(
    alloc: Global,
    told: &ToldPlaces<'_>,
    path: &mut Vec<Elem>,
    spot: &Spot<'a>,
) -> Result<Option<Spot<'a>>, AllocError>
    requires { is_tree spot.now.node.now ≡ true }
    ensures { IfOk result (λ o. IsDown (maps_of told.now) (path_view path.old.items) spot.now (path_view path.new.items) o) }
{
    let Some((element, item)) = item_below(spot) else {
        return Ok(None);
    };
    let copied = element.copy(alloc)?;
    path.push(copied)?;
    match field_below(told, path, &item) {
        Some((element, below)) => {
            let copied = element.copy(alloc)?;
            path.push(copied)?;
            Ok(Some(below))
        }
        None => {
            path.pop();
            Ok(None)
        }
    }
}
