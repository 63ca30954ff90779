//! The lists of what the value of a record tells of a body.
ghost use Rattle.std.specs.Prelude.{◌≡◌, Some, false, IfOk, MatchOption, codes};
ghost use Rattle.ssa_json.specs.Readings.{readings};
ghost use Rattle.ssa_json.specs.View.{members_view};
ghost use Rattle.ssa_model.specs.definitions.Json.{member_of};
ghost use Rattle.ssa_model.specs.definitions.RecordReading.{is_path, is_put, order_in, path_in};
ghost use Rattle.ssa_told.specs.Shapes.{are_body_lists, is_leaf, is_order, TellsBody};
ghost use Rattle.ssa_told.specs.Telling.{TellsList};
ghost use Rattle.ssa_told.specs.Told.{told_leaf, told_order, told_put, said_leaf, said_put};

use crate::body_reading::{read_leaf, read_order, read_put};
use crate::told::{ToldBody, ToldLeaf, ToldOrder, ToldPut};
use crate::told_parts::told_path;
use crate::value_shape::list_of;
use ssa_json::reading_room::ReadingRoom;
use ssa_json::value::Json;
use ssa_members::Members;
use ssa_path::path::Path;
use std::alloc::{AllocError, Global};

// The paths of the member `cut`.
fn told_cut(
    alloc: Global,
    room: &mut ReadingRoom,
    members: &Members<Json>,
) -> Result<Option<Vec<Path>>, AllocError>
    ensures { IfOk result (λ t. TellsList (is_path readings) (λ p. p) (λ v. path_in readings (Some v)) t
        (member_of (codes "cut") (members_view members.now.entries))) }
{
    let Some(items) = list_of(members, "cut") else {
        return Ok(None);
    };
    let mut told = Vec::new(alloc);
    for item in items {
        let Some(path) = told_path(alloc, room, item)? else {
            return Ok(None);
        };
        told.push(path)?;
    }
    Ok(Some(told))
}

// The leaves of the member `leaves`.
fn told_leaves(
    alloc: Global,
    room: &mut ReadingRoom,
    members: &Members<Json>,
) -> Result<Option<Vec<ToldLeaf>>, AllocError>
    ensures { IfOk result (λ t. TellsList is_leaf told_leaf (said_leaf readings) t (member_of (codes "leaves") (members_view members.now.entries))) }
{
    let Some(items) = list_of(members, "leaves") else {
        return Ok(None);
    };
    let mut told = Vec::new(alloc);
    for item in items {
        let Some(leaf) = read_leaf(alloc, room, item)? else {
            return Ok(None);
        };
        told.push(leaf)?;
    }
    Ok(Some(told))
}

// The orders of the member `order`.
fn told_orders(
    alloc: Global,
    room: &mut ReadingRoom,
    members: &Members<Json>,
) -> Result<Option<Vec<ToldOrder>>, AllocError>
    ensures { IfOk result (λ t. TellsList is_order told_order (order_in readings) t (member_of (codes "order") (members_view members.now.entries))) }
{
    let Some(items) = list_of(members, "order") else {
        return Ok(None);
    };
    let mut told = Vec::new(alloc);
    for item in items {
        let Some(order) = read_order(alloc, room, item)? else {
            return Ok(None);
        };
        told.push(order)?;
    }
    Ok(Some(told))
}

// What is put, of the member `put`.
fn told_puts(
    alloc: Global,
    room: &mut ReadingRoom,
    members: &Members<Json>,
) -> Result<Option<Vec<ToldPut>>, AllocError>
    ensures { IfOk result (λ t. TellsList (is_put readings) told_put (said_put readings) t (member_of (codes "put") (members_view members.now.entries))) }
{
    let Some(items) = list_of(members, "put") else {
        return Ok(None);
    };
    let mut told = Vec::new(alloc);
    for item in items {
        let Some(put) = read_put(alloc, room, item)? else {
            return Ok(None);
        };
        told.push(put)?;
    }
    Ok(Some(told))
}

// What the members tell of a body.
pub fn body_of(
    alloc: Global,
    room: &mut ReadingRoom,
    members: &Members<Json>,
) -> Result<Option<ToldBody>, AllocError>
    ensures { IfOk result (λ t. MatchOption t (are_body_lists (members_view members.now.entries) ≡ false)
        (λ b. TellsBody b (members_view members.now.entries))) }
{
    let Some(cut) = told_cut(alloc, room, members)? else {
        return Ok(None);
    };
    let Some(leaves) = told_leaves(alloc, room, members)? else {
        return Ok(None);
    };
    let Some(order) = told_orders(alloc, room, members)? else {
        return Ok(None);
    };
    let Some(put) = told_puts(alloc, room, members)? else {
        return Ok(None);
    };
    Ok(Some(ToldBody {
        cut,
        leaves,
        order,
        put,
    }))
}
