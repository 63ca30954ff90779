//! Which JSON values have the shape of a record, and what they tell.
ghost use Rattle.std.specs.Prelude.{◌≡◌, IfOk, IfSome, Some, is_some};
ghost use Rattle.ssa_json.specs.Readings.{readings};
ghost use Rattle.ssa_json.specs.View.{view, members_view};
ghost use Rattle.ssa_model.specs.definitions.Json.{object};
ghost use Rattle.ssa_model.specs.definitions.RecordReading.{is_record_shape};
ghost use Rattle.ssa_told.specs.Telling.{Tells};
ghost use Rattle.ssa_told.specs.Told.{said_body, said_record, said_table, told_body, told_record, told_table};

use crate::body_lists::body_of;
use crate::member_names::{Shape, have_names_of};
use crate::table_reading::table_of;
use crate::told::ToldRecord;
use ssa_json::reading_room::ReadingRoom;
use ssa_json::value::Json;
use ssa_members::Members;
use std::alloc::{AllocError, Global};

// What these members tell.
fn record_of(
    alloc: Global,
    room: &mut ReadingRoom,
    members: &Members<Json>,
) -> Result<Option<ToldRecord>, AllocError>
    ensures { IfOk result (λ t. Tells (is_record_shape readings) told_record (said_record readings) t (Some (object (members_view members.now.entries)))) }
{
    if !have_names_of(Shape::Record, members) {
        return Ok(None);
    }
    let Some(body) = body_of(alloc, room, members)? else {
        return Ok(None);
    };
    let Some(table) = table_of(alloc, room, members)? else {
        return Ok(None);
    };
    Ok(Some(ToldRecord { body, table }))
}

/// What the value of a record tells, where it has the shape of one: an object of the members `changed`,
/// `cut`, `gone`, `here`, `leaves`, `order` and `put` and no others, each a list of what its name says.
///
/// Whether the record is one of a state, or of any state, is another question. `Err` where memory is
/// refused.
pub fn told_record(alloc: Global, value: &Json) -> Result<Option<ToldRecord>, AllocError>
    ensures shape { IfOk result (λ t. is_some t ≡ is_record_shape readings (view value.now)) }
    ensures body { IfOk result (λ t. IfSome t (λ r. told_body r.body ≡ said_body readings (view value.now))) }
    ensures table { IfOk result (λ t. IfSome t (λ r. told_table r.table ≡ said_table readings (view value.now))) }
{
    match value {
        Json::Object(members) => {
            let mut room = ReadingRoom::new(alloc);
            record_of(alloc, &mut room, members)
        }
        Json::List(_) | Json::Scalar(_) => Ok(None),
    }
}
