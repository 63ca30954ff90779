//! Which text of a path is no element's.

use crate::way::push_place;
use ssa_json::value::Json;
use ssa_path::element::Elem;
use std::alloc::{AllocError, Global};

// Whether the value is the text of an element.
fn is_element(alloc: Global, value: &Json) -> bool {
    match value.as_text() {
        Some(text) => Elem::read(alloc, text).is_ok(),
        None => false,
    }
}

// The place of the first item that is no text, or else of the first that is no element's.
fn refused_place(alloc: Global, items: &[Json]) -> Option<usize> {
    match items.iter().position(|item| item.as_text().is_none()) {
        Some(place) => Some(place),
        None => items.iter().position(|item| !is_element(alloc, item)),
    }
}

/// Appends which item of a path is no element's text; that it is no list where it is none.
pub fn push_refused_element(
    alloc: Global,
    text: &mut Vec<u8>,
    path: &Json,
) -> Result<(), AllocError> {
    let Json::List(items) = path else {
        return text.extend_from_slice(b"no list of texts");
    };
    match refused_place(alloc, items) {
        Some(place) => {
            text.extend_from_slice(b"at ")?;
            push_place(alloc, text, place)
        }
        None => Ok(()),
    }
}
