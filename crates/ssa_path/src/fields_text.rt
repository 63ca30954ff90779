//! Sets of paths, appended to JSON text as FieldsV1.
ghost use Rattle.std.specs.Prelude.{◌≡◌, [], ◌∷◌, ◌++◌, true, OnOk, if◌then◌else◌};
ghost use Rattle.ssa_model.specs.definitions.FieldsV1.{fields_json};
ghost use Rattle.ssa_model.specs.definitions.Json.{compact};
ghost use Rattle.ssa_model.specs.definitions.PathMap.{listed};
ghost use Rattle.ssa_json.specs.Writable.{IsOfProgram};
ghost use Rattle.ssa_path.specs.FieldsWriting.{below_json, dot_text, paths_json};
ghost use Rattle.ssa_path.specs.Trie.{is_filled, is_trie, paths};

use crate::path_text::push_element;
use crate::trie::Trie;
use ssa_json::write::push_comma;
use std::alloc::{AllocError, Global};

impl Trie {
    /// Appends the set of the trie's paths in FieldsV1 form, as [`Trie::to_fields_v1`] gives it, to a text. Where memory
    /// runs out, part of it may stand there.
    pub fn push_fields_v1(&self, alloc: Global, text: &mut Vec<u8>) -> Result<(), AllocError>
        requires { is_trie self.now ≡ true }
        ensures text { OnOk result (text.new.items ≡ text.old.items ++ compact (fields_json (listed (paths self.now)))) }
        ensures of_program { OnOk result (IsOfProgram (fields_json (listed (paths self.now)))) }
    {
        push_place(alloc, text, self)
    }
}

// Appends the member that says that the place itself is in the set, where it is.
fn push_dot(text: &mut Vec<u8>, here: bool) -> Result<(), AllocError>
    ensures { OnOk result (text.new.items ≡ text.old.items ++ dot_text here) }
{
    if here {
        text.extend_from_slice(b"\".\":{}")?;
    }
    Ok(())
}

// Appends the object of a place, with `.` where the place itself is in the set.
#[cycle(place)]
fn push_place(alloc: Global, text: &mut Vec<u8>, place: &Trie) -> Result<(), AllocError>
    requires { is_trie place.now ≡ true }
    ensures text { OnOk result (text.new.items ≡ text.old.items ++ compact (paths_json (paths place.now))) }
    ensures of_program { OnOk result (IsOfProgram (paths_json (paths place.now))) }
{
    text.push(b'{')?;
    push_dot(text, place.here)?;
    let mut is_later = place.here;
    for child in &place.below {
        push_comma(text, is_later)?;
        push_element(alloc, text, &child.0)?;
        text.push(b':')?;
        push_below(alloc, text, &child.1)?;
        is_later = true;
    }
    text.push(b'}')?;
    Ok(())
}

// Appends what stands under an element: `{}` where nothing below its place is in the set.
#[cycle(place)]
fn push_below(alloc: Global, text: &mut Vec<u8>, place: &Trie) -> Result<(), AllocError>
    requires trie { is_trie place.now ≡ true }
    requires filled { is_filled place.now ≡ true }
    ensures text { OnOk result (text.new.items ≡ text.old.items ++ compact (below_json (paths place.now))) }
    ensures of_program { OnOk result (IsOfProgram (below_json (paths place.now))) }
{
    let is_alone = place.below.is_empty();
    if is_alone {
        return text.extend_from_slice(b"{}");
    }
    push_place(alloc, text, place)
}
