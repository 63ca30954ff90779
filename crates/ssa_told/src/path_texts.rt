//! Paths that are given by their elements' texts.
ghost use Rattle.std.specs.Prelude.{◌≡◌, true, is_some};
ghost use Rattle.ssa_json.specs.View.{items_view};
ghost use Rattle.ssa_model.specs.definitions.Values.{texts_of};
ghost use Rattle.ssa_told.specs.PathTexts.{ReadsElements, ReadsPath};

use ssa_json::reading_room::ReadingRoom;
use ssa_json::value::Json;
use ssa_path::element::Elem;
use ssa_path::element_fault::ElemFault;
use ssa_path::path::Path;
use std::alloc::Global;

/// The elements of these own texts, or the fault of the first text that is none.
pub fn elements_of_texts(
    alloc: Global,
    room: &mut ReadingRoom,
    texts: &[Json],
) -> Result<Vec<Elem>, ElemFault>
    requires { is_some (texts_of (items_view texts.now)) ≡ true }
    ensures { ReadsElements result (items_view texts.now) }
{
    let mut elements = Vec::new(alloc);
    for text in texts {
        let Some(text) = text.as_text() else {
            unreachable!("each item is a text");
        };
        let element = Elem::read_in(alloc, room, text)?;
        let Ok(()) = elements.push(element) else {
            return Err(ElemFault::OutOfMemory);
        };
    }
    Ok(elements)
}

/// The path of elements' own texts, or the fault of the first text that is none.
pub fn path_of_texts(alloc: Global, texts: &[Json]) -> Result<Path, ElemFault>
    requires { is_some (texts_of (items_view texts.now)) ≡ true }
    ensures { ReadsPath result (items_view texts.now) }
{
    let mut room = ReadingRoom::new(alloc);
    let elements = elements_of_texts(alloc, &mut room, texts)?;
    Ok(Path::new(elements))
}
