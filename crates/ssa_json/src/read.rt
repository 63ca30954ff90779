//! A value of JSON text, read straight or by `serde_json`.
ghost use Rattle.std.specs.Prelude.{◌≡◌, ◌<◌, length};
ghost use Rattle.serde_json.specs.View.{view as data_view, items_view as data_items, members_view as data_members};
ghost use Rattle.ssa_json.specs.View.{view, items_view, members_view};
ghost use Rattle.ssa_json.specs.Reading.{Answers, Converts, value_of, items_value, members_value};

use crate::fault::JsonFault;
use crate::reading_room::ReadingRoom;
use crate::straight::read_straight;
use crate::value::{Json, Scalar};
use serde_json::{Map, Value};
use ssa_members::{Members, Name, SmallText};
use std::alloc::Global;

impl Json {
    /// Reads a text of at most `most` bytes. Which bytes are JSON is `serde_json`'s reading of
    /// RFC 8259: the last of two members with one name stays. Of the parts that are left out here,
    /// the first is told, with members in the order of their names' bytes.
    pub fn read(alloc: Global, bytes: &[u8], most: usize) -> Result<Json, JsonFault>
        ensures answers { Answers result bytes.now most }
        ensures too_long { most < length bytes.now → result ≡ Err JsonFault.TooLong }
    {
        let mut room = ReadingRoom::new(alloc);
        Json::read_in(alloc, &mut room, bytes, most)
    }

    /// Reads a text as [`read`](Json::read) does, in room that is kept from one text to the next.
    pub fn read_in(
        alloc: Global,
        room: &mut ReadingRoom,
        bytes: &[u8],
        most: usize,
    ) -> Result<Json, JsonFault>
        ensures answers { Answers result bytes.now most }
        ensures too_long { most < length bytes.now → result ≡ Err JsonFault.TooLong }
    {
        if bytes.len() > most {
            return Err(JsonFault::TooLong);
        }
        if let Some(value) = read_straight(alloc, room, bytes) {
            return Ok(value);
        }
        match Value::from_slice(alloc, bytes) {
            Ok(value) => converted(alloc, value),
            Err(e) if e.is_memory() => Err(JsonFault::OutOfMemory),
            Err(_) => Err(JsonFault::NotJson),
        }
    }
}

#[cycle(convert)]
fn converted(alloc: Global, value: Value) -> Result<Json, JsonFault>
    ensures { Converts view result (value_of (data_view value)) }
{
    match value {
        Value::Null => Err(JsonFault::NullValue),
        Value::Bool(b) => Ok(Json::Scalar(Scalar::Bool(b))),
        Value::Number(number) => match number.as_i64() {
            Some(n) => Ok(Json::Scalar(Scalar::Int(n))),
            None => Err(JsonFault::NumberOutside),
        },
        Value::String(text) => Ok(Json::Scalar(Scalar::Text(SmallText::from_string(alloc, text)?))),
        Value::Array(items) => Ok(Json::List(converted_items(alloc, items)?)),
        Value::Object(members) => Ok(Json::Object(converted_members(alloc, members)?)),
    }
}

#[cycle(convert)]
fn converted_items(alloc: Global, items: Vec<Value>) -> Result<Vec<Json>, JsonFault>
    ensures { Converts (λ v. items_view v.items) result (items_value (data_items items.items)) }
{
    let mut found = Vec::with_capacity(alloc, items.len())?;
    for item in items {
        found.push(converted(alloc, item)?)?;
    }
    Ok(found)
}

#[cycle(convert)]
fn converted_members(alloc: Global, members: Map<String, Value>) -> Result<Members<Json>, JsonFault>
    ensures { Converts (λ m. members_view m.entries) result (members_value (data_members members.entries)) }
{
    let mut found = Members::new(alloc);
    for (name, member) in members {
        let key = Name::from_string(alloc, name)?;
        drop(found.insert(key, converted(alloc, member)?)?);
    }
    Ok(found)
}
