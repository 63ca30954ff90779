//! Sets of paths read back from what they are written as.
ghost use Rattle.std.specs.Prelude.{◌≡◌, true};
ghost use Rattle.ssa_model.specs.definitions.Path.{key_members};
ghost use Rattle.ssa_json.specs.View.{scalar_view};
ghost use Rattle.ssa_json.specs.Written.{is_narrow_scalar, members_narrow};
ghost use Rattle.ssa_path.specs.FieldsBack.{AreReadBack, CanonicalIsRead, IsReadBack};
ghost use Rattle.ssa_path.specs.Keys.{members_view};
ghost use Rattle.ssa_path.specs.OwnText.{IsElementOfProgram};
ghost use Rattle.ssa_path.specs.Trie.{is_trie, paths};
ghost use Rattle.ssa_path.specs.View.{element_view};

use crate::element::Elem;
use crate::field_set::FieldSet;
use crate::trie::Trie;
use ssa_json::value::Scalar;
use ssa_members::SmallText;

impl FieldSet {
    /// What the set is written as by `FieldSet::to_fields_v1` has no fault as FieldsV1, and says the
    /// set: `FieldSet::from_fields_v1` reads it back.
    ///
    /// Looks at each number of the set, and changes nothing. Takes no memory.
    pub fn own_fields_are_read(&self)
        ensures { IsReadBack self.now }
    {
        place_is_read(self.root());
    }
}

impl Elem {
    /// The names of key fields rise by bytes, numbers fit 64 bits, and texts are UTF-8.
    ///
    /// Looks at each number of the element, and changes nothing. Takes no memory.
    pub fn is_of_program(&self)
        ensures { IsElementOfProgram (element_view self.now) }
    {
        match self {
            Elem::Field(_) => {}
            Elem::Key(keys) => numbers_fit(keys.members()),
            Elem::Value(scalar) => number_fits(scalar),
        }
    }
}

// A whole number fits 64 bits.
fn number_fits(scalar: &Scalar)
    ensures { is_narrow_scalar (scalar_view scalar.now) ≡ true }
{
    match scalar {
        Scalar::Int(number) => {
            let _number = *number;
        }
        Scalar::Text(_) | Scalar::Bool(_) => {}
    }
}

// Each number of key fields fits 64 bits.
fn numbers_fit(members: &[(SmallText, Scalar)])
    ensures { members_narrow (key_members (members_view members.now)) ≡ true }
{
    for member in members {
        number_fits(&member.1);
    }
}

// The paths of a place are read back from what they are written as.
fn place_is_read(place: &Trie)
    requires { is_trie place.now ≡ true }
    ensures { AreReadBack (paths place.now) }
{
    for child in &place.below {
        child.0.is_of_program();
        place_is_read(&child.1);
    }
}

/// A value each of whose members, at any depth, is `.` with `{}`, or an element's own text with an
/// object other than `{".":{}}`, has no fault as FieldsV1.
pub fn canonical_is_read()
    ensures { CanonicalIsRead }
{}
