//! The element of a text.
ghost use Rattle.std.specs.Prelude.{◌≡◌, Ok, IfOk, IfErr, OnOk, option_map};
ghost use Rattle.std.specs.Result.{result_ok};
ghost use Rattle.ssa_model.specs.definitions.Json.{object, same_text};
ghost use Rattle.ssa_model.specs.definitions.Path.{element_text, key};
ghost use Rattle.ssa_model.specs.definitions.ElementTexts.{after_beginning, key_element, value_element, spelled_element};
ghost use Rattle.ssa_json.specs.Reading.{json_reading};
ghost use Rattle.ssa_json.specs.View.{view, members_view, scalar_view};
ghost use Rattle.ssa_path.specs.ElementReading.{ReadsElement, as_scalar};
ghost use Rattle.ssa_path.specs.OwnText.{IsElementOfProgram, IsOwnText, IsOwnTextOfNone};
ghost use Rattle.ssa_path.specs.View.{element_view};

use crate::element::Elem;
use crate::element_fault::ElemFault;
use crate::keys::{Keys, SharedKeys};
use ssa_json::fault::JsonFault;
use ssa_json::reading_room::ReadingRoom;
use ssa_json::value::{Json, Scalar};
use ssa_members::{Members, SmallText};
use std::alloc::{AllocError, Global};

impl Elem {
    /// The element that has this very text, as `Elem::text` writes it. A fault other than want of
    /// memory tells that no element has it.
    ///
    /// FieldsV1 of the Kubernetes API names fields and items of lists by such texts. It also names
    /// items by their places, as `i:0`; those are refused.
    pub fn read(alloc: Global, text: &str) -> Result<Elem, ElemFault>
        ensures answers { ReadsElement result text.now }
        ensures own { IfOk result (λ e. IsOwnText text.now (element_view e)) }
        ensures of_none { IfErr result (λ fault. IsOwnTextOfNone fault text.now) }
    {
        let mut room = ReadingRoom::new(alloc);
        Elem::read_in(alloc, &mut room, text)
    }

    /// Reads a text as [`read`](Elem::read) does, in room that is kept from one element to the next.
    pub fn read_in(alloc: Global, room: &mut ReadingRoom, text: &str) -> Result<Elem, ElemFault>
        ensures answers { ReadsElement result text.now }
        ensures own { IfOk result (λ e. IsOwnText text.now (element_view e)) }
        ensures of_none { IfErr result (λ fault. IsOwnTextOfNone fault text.now) }
    {
        if after_beginning(text, "i:").is_some() {
            return Err(ElemFault::IndexElement);
        }
        let Some(element) = spelled_element(alloc, room, text)? else {
            return Err(ElemFault::BadElement);
        };
        if has_text(alloc, &element, text)? {
            Ok(element)
        } else {
            Err(ElemFault::NotCanonical)
        }
    }
}

// What follows the beginning, where the text has it.
fn after_beginning<'a>(text: &'a str, beginning: &str) -> Option<&'a str>
    ensures { option_map (λ t. t.now) result ≡ after_beginning beginning.now text.now }
{
    text.strip_prefix(beginning)
}

// Whether the text is the element's own.
fn has_text(alloc: Global, element: &Elem, text: &str) -> Result<bool, AllocError>
    ensures same { IfOk result (λ b. b ≡ same_text (element_text (element_view element.now)) text.now) }
    ensures of_program { OnOk result (IsElementOfProgram (element_view element.now)) }
{
    let own = element.text(alloc)?;
    Ok(own.as_slice() == text.as_bytes())
}

// The element that a text spells, in its own way or another.
fn spelled_element(
    alloc: Global,
    room: &mut ReadingRoom,
    text: &str,
) -> Result<Option<Elem>, AllocError>
    ensures { IfOk result (λ o. option_map element_view o ≡ spelled_element json_reading text.now) }
{
    if let Some(name) = after_beginning(text, "f:") {
        let name = SmallText::from_str(alloc, name)?;
        return Ok(Some(Elem::Field(name)));
    }
    if let Some(json) = after_beginning(text, "v:") {
        return value_element(alloc, room, json);
    }
    match after_beginning(text, "k:") {
        Some(json) => key_element(alloc, room, json),
        None => Ok(None),
    }
}

// The value, where the text is one of JSON.
fn read_json(alloc: Global, room: &mut ReadingRoom, json: &str) -> Result<Option<Json>, AllocError>
    ensures { IfOk result (λ o. option_map view o ≡ result_ok (json_reading json.now)) }
{
    match Json::read_in(alloc, room, json.as_bytes(), json.len()) {
        Ok(value) => Ok(Some(value)),
        Err(JsonFault::NotJson) => Ok(None),
        Err(JsonFault::NullValue) => Ok(None),
        Err(JsonFault::NumberOutside) => Ok(None),
        Err(JsonFault::TooLong) => unreachable!("the limit is the text's own length"),
        Err(JsonFault::OutOfMemory) => Err(AllocError),
    }
}

// The scalar, where the value is one.
fn into_scalar(value: Json) -> Option<Scalar>
    ensures { option_map scalar_view result ≡ as_scalar (view value) }
{
    match value {
        Json::Scalar(scalar) => Some(scalar),
        Json::List(_) | Json::Object(_) => None,
    }
}

// The element that a scalar's JSON text spells.
fn value_element(
    alloc: Global,
    room: &mut ReadingRoom,
    json: &str,
) -> Result<Option<Elem>, AllocError>
    ensures { IfOk result (λ o. option_map element_view o ≡ value_element (json_reading json.now)) }
{
    let Some(value) = read_json(alloc, room, json)? else {
        return Ok(None);
    };
    match into_scalar(value) {
        Some(scalar) => Ok(Some(Elem::Value(scalar))),
        None => Ok(None),
    }
}

// The element that the JSON text of its key fields spells.
fn key_element(
    alloc: Global,
    room: &mut ReadingRoom,
    json: &str,
) -> Result<Option<Elem>, AllocError>
    ensures { IfOk result (λ o. option_map element_view o ≡ key_element (json_reading json.now)) }
{
    let Some(value) = read_json(alloc, room, json)? else {
        return Ok(None);
    };
    let Json::Object(members) = value else {
        return Ok(None);
    };
    match keys_of(alloc, members)? {
        Some(keys) => {
            let keys = SharedKeys::of(alloc, keys)?;
            Ok(Some(Elem::Key(keys)))
        }
        None => Ok(None),
    }
}

// The members as key fields, where there is one and all are scalars.
fn keys_of(alloc: Global, members: Members<Json>) -> Result<Option<Keys>, AllocError>
    ensures { IfOk result (λ o. option_map key o ≡ key_element (Ok (object (members_view members.entries)))) }
{
    let mut found = Vec::new(alloc);
    for (name, member) in members.into_entries() {
        let Some(scalar) = into_scalar(member) else {
            return Ok(None);
        };
        found.push((name.into_text(), scalar))?;
    }
    Ok(Keys::new(found))
}
