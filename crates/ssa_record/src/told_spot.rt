//! The place at and below which is all that a record touches of a body.
ghost use Rattle.std.specs.Prelude.{◌≡◌, true, IfOk};
ghost use Rattle.ssa_path.specs.View.{path_view};
ghost use Rattle.ssa_typed.specs.Rows.{is_tree};
ghost use Rattle.ssa_record.specs.Places.{maps_of};
ghost use Rattle.ssa_record.specs.Spots.{IsDown, LeadsDown};

use crate::field_spot::into_field;
use crate::item_spot::into_item;
use crate::places::ToldPlaces;
use crate::spot::Spot;
use ssa_path::element::Elem;
use std::alloc::{AllocError, Global};

// The next place of a kind at and below which is all that is touched.
fn step_down<'a>(
    alloc: Global,
    told: &ToldPlaces<'_>,
    path: &mut Vec<Elem>,
    spot: &Spot<'a>,
) -> Result<Option<Spot<'a>>, AllocError>
    requires { is_tree spot.now.node.now ≡ true }
    ensures { IfOk result (λ o. IsDown (maps_of told.now) (path_view path.old.items) spot.now (path_view path.new.items) o) }
{
    match into_field(alloc, told, path, spot)? {
        Some(below) => Ok(Some(below)),
        None => into_item(alloc, told, path, spot),
    }
}

/// The lowest place of a kind from this one on at and below which is all that is touched. The path is
/// led there. Of a list all items before the one on the way are compared with it.
pub fn spot_from<'a>(
    alloc: Global,
    told: &ToldPlaces<'_>,
    path: &mut Vec<Elem>,
    spot: Spot<'a>,
) -> Result<Spot<'a>, AllocError>
    requires { is_tree spot.node.now ≡ true }
    ensures { IfOk result (λ r. LeadsDown (maps_of told.now) (path_view path.old.items) spot.entry (path_view path.new.items) r) }
{
    match step_down(alloc, told, path, &spot)? {
        Some(below) => spot_from(alloc, told, path, below),
        None => Ok(spot),
    }
}
