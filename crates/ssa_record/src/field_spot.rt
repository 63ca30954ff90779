//! The way to a field of a record or an entry of a Dict.
ghost use Rattle.std.specs.Prelude.{◌≡◌, true, Some, IfOk, IfSome};
ghost use Rattle.ssa_model.specs.definitions.Fitting.{of_kind, place_below};
ghost use Rattle.ssa_path.specs.View.{element_view, path_view};
ghost use Rattle.ssa_schema.specs.Kinds.{kind_view};
ghost use Rattle.ssa_typed.specs.Rows.{is_tree};
ghost use Rattle.ssa_record.specs.Places.{maps_of};
ghost use Rattle.ssa_record.specs.Spots.{IsDown, IsSpotBelow};

use crate::places::ToldPlaces;
use crate::spot::{Spot, only_child};
use ssa_path::element::Elem;
use ssa_schema::kind::{Kind, find_field};
use std::alloc::{AllocError, Global};

// The kind of a field of a record or of an entry of a Dict.
fn kind_below<'a>(kind: &'a Kind, element: &Elem) -> Option<&'a Kind>
    ensures { IfSome result (λ k. place_below (of_kind (kind_view kind.now)) (element_view element.now) ≡ Some (of_kind (kind_view k.now))) }
{
    match (kind, element) {
        (Kind::Record(fields), Elem::Field(name)) => find_field(fields, name.as_str()),
        (Kind::Dict(inside), Elem::Field(_)) => Some(inside),
        _ => None,
    }
}

// The field or the entry at and below which is all that is touched at and below a place, with its
// element. It is neither cut nor put.
fn spot_below<'a>(
    told: &ToldPlaces<'_>,
    path: &[Elem],
    spot: &Spot<'a>,
) -> Option<(&'a Elem, Spot<'a>)>
    requires { is_tree spot.now.node.now ≡ true }
    ensures { IfSome result (λ x. IsSpotBelow (maps_of told.now) (path_view path.now) spot.now x.0.now x.1) }
{
    let (element, touched) = only_child(spot.touched)?;
    let kind = kind_below(spot.kind, element)?;
    let node = spot.node.child(element)?;
    if told.is_cut(path, element) || told.put_at(path, element).is_some() {
        return None;
    }
    let below = Spot {
        touched,
        node,
        kind,
    };
    Some((element, below))
}

/// The field or the entry at and below which is all that is touched at and below a place, to which
/// the path is led.
pub fn into_field<'a>(
    alloc: Global,
    told: &ToldPlaces<'_>,
    path: &mut Vec<Elem>,
    spot: &Spot<'a>,
) -> Result<Option<Spot<'a>>, AllocError>
    requires { is_tree spot.now.node.now ≡ true }
    ensures { IfOk result (λ o. IsDown (maps_of told.now) (path_view path.old.items) spot.now (path_view path.new.items) o) }
{
    match spot_below(told, path, spot) {
        Some((element, below)) => {
            let copied = element.copy(alloc)?;
            path.push(copied)?;
            Ok(Some(below))
        }
        None => Ok(None),
    }
}
