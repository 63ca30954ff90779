//! What is wrong with an object under a schema, and where.

use crate::atomic::wrong_in;
use crate::items::{wrong_item, wrong_value};
use crate::near::Nearest;
use crate::part::part_at;
use crate::way::push_element;
use crate::wrong::{Wrong, kind_words};
use ssa_json::value::Json;
use ssa_path::element::Elem;
use ssa_schema::body_fault::BodyFault;
use ssa_schema::kind::{Kind, find_field};
use ssa_schema::schema::Schema;
use std::alloc::{AllocError, Global};

// A part of an object, and the kind of what is wanted there. An item of a map list stands under the kind of its list.
#[derive(Clone, Copy, Drop)]
struct Place<'a> {
    value: &'a Json,
    kind: &'a Kind,
}

// The kind of the part that an element names.
fn kind_at<'a>(kind: &'a Kind, element: &Elem) -> Option<&'a Kind> {
    match (kind, element) {
        (Kind::Record(fields), Elem::Field(name)) => find_field(fields, name.as_str()),
        (Kind::ItemsOf { fields, .. }, Elem::Field(name)) => find_field(fields, name.as_str()),
        (Kind::ItemsOf { .. }, Elem::Key(_)) => Some(kind),
        (Kind::Dict(inside), Elem::Field(_)) => Some(inside),
        _ => None,
    }
}

impl<'a> Place<'a> {
    // The part that an element names, where it is there and the schema has it.
    fn below(&self, element: &Elem) -> Option<Place<'a>> {
        match (part_at(self.value, element), kind_at(self.kind, element)) {
            (Some(value), Some(kind)) => Some(Place { value, kind }),
            _ => None,
        }
    }
}

// The last place of a path that is there and that the schema has.
fn last_place<'a>(object: &'a Json, schema: &'a Schema, path: &[Elem]) -> Place<'a> {
    let mut here = Place {
        value: object,
        kind: schema.kind(),
    };
    for element in path {
        let Some(next) = here.below(element) else {
            break;
        };
        here = next;
    }
    here
}

// The field of an object of the kind whose name is the nearest.
fn near_field<'a>(kind: &'a Kind, name: &'a str) -> Option<&'a str> {
    let (Kind::Record(fields) | Kind::ItemsOf { fields, .. }) = kind else {
        return None;
    };
    let mut nearest = Nearest::to(name);
    for (field, _) in fields.entries() {
        nearest.look_at(field.as_str());
    }
    nearest.found()
}

// What is wrong with a field that the schema has not: the last of the path, or inside the atomic value that is there.
fn wrong_field(
    alloc: Global,
    place: &Place<'_>,
    path: &[Elem],
) -> Result<Option<Wrong>, AllocError> {
    if let Kind::AtomicOf(shape) = place.kind {
        return wrong_in(alloc, place.value, shape);
    }
    let near = match path.last() {
        Some(Elem::Field(name)) => near_field(place.kind, name.as_str()),
        _ => None,
    };
    Ok(Some(Wrong::unknown_field(alloc, near)?))
}

// What is wrong at a place with a value of another type, or with an item without a key.
fn wrong_value_at(alloc: Global, place: &Place<'_>) -> Result<Option<Wrong>, AllocError> {
    match (place.kind, place.value) {
        (Kind::AtomicOf(shape), value) => wrong_in(alloc, value, shape),
        (Kind::SetOf(wanted), Json::List(items)) => wrong_value(alloc, items, *wanted),
        (Kind::ItemsOf { keys, .. }, Json::List(items)) => {
            wrong_item(alloc, items, place.kind, keys)
        }
        (kind, value) => Ok(Some(Wrong::other_type(alloc, value, kind_words(kind))?)),
    }
}

// What is wrong at the end of the path of a fault.
fn wrong_at(
    alloc: Global,
    object: &Json,
    schema: &Schema,
    fault: &BodyFault,
    path: &[Elem],
) -> Result<Option<Wrong>, AllocError> {
    let place = last_place(object, schema, path);
    match fault {
        BodyFault::UnknownField(_) => wrong_field(alloc, &place, path),
        BodyFault::WrongType(_) | BodyFault::MissingKey(_) => wrong_value_at(alloc, &place),
        BodyFault::DuplicateItem(_) => Ok(Some(Wrong::repeated_item(alloc)?)),
    }
}

// The elements whose texts a fault's path has.
fn path_of(alloc: Global, fault: &BodyFault) -> Result<Vec<Elem>, AllocError> {
    let mut path = Vec::new(alloc);
    for text in fault.path() {
        let Ok(element) = Elem::read(alloc, text.as_str()) else {
            return Err(AllocError);
        };
        path.push(element)?;
    }
    Ok(path)
}

// Appends the way to the end of a path.
fn push_way(alloc: Global, text: &mut Vec<u8>, path: &[Elem]) -> Result<(), AllocError> {
    if path.is_empty() {
        return text.extend_from_slice(b"the root");
    }
    for element in path {
        push_element(alloc, text, element)?;
    }
    Ok(())
}

/// Appends where the first fault of an object under a schema is, inside a list or an atomic value too, and what is wrong
/// there.
pub fn push_body_fault(
    alloc: Global,
    text: &mut Vec<u8>,
    schema: &Schema,
    object: &Json,
    fault: &BodyFault,
) -> Result<(), AllocError> {
    let path = path_of(alloc, fault)?;
    push_way(alloc, text, &path)?;
    match wrong_at(alloc, object, schema, fault, &path)? {
        Some(wrong) => wrong.push_text(text),
        None => Ok(()),
    }
}
