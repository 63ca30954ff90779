//! What a schema says of each place of a value.
ghost use Rattle.std.specs.Prelude.{◌≡◌, option_map};
ghost use Rattle.ssa_model.specs.definitions.Kind.{kind_of, shape_of, is_of};
ghost use Rattle.ssa_json.specs.View.{scalar_view};
ghost use Rattle.ssa_schema.specs.Kinds.{scalar_kind_view, shape_view, shape_fields_view, kind_view, fields_view};

use ssa_json::value::Scalar;
use ssa_members::Members;

/// A kind of scalars.
#[derive(Clone, Copy, Debug, PartialEq, Eq)]
pub enum ScalarKind {
    Text,
    Whole,
    Truth,
}

/// What may stand in an atomic value: a scalar, named fields, any names of one shape, or a list of
/// one shape.
#[derive(Drop)]
pub enum Shape {
    Scalar(ScalarKind),
    Record(Members<Shape>),
    Dict(Box<Shape>),
    List(Box<Shape>),
}

/// What may stand at a place. The keys of a map list stand in the order of their names' bytes.
#[derive(Drop)]
pub enum Kind {
    /// A scalar.
    Scalar(ScalarKind),
    /// A value that is replaced and owned whole.
    AtomicOf(Shape),
    /// An object with named fields.
    Record(Members<Kind>),
    /// An object with any names and one kind of values.
    Dict(Box<Kind>),
    /// A list of scalars that differ.
    SetOf(ScalarKind),
    /// A list of objects that differ in the fields that `keys` names.
    ItemsOf {
        keys: Vec<String>,
        fields: Members<Kind>,
    },
}

impl ScalarKind {
    /// Whether the scalar is of the kind.
    pub fn has(&self, scalar: &Scalar) -> bool
        ensures { result ≡ is_of (scalar_kind_view self.now) (scalar_view scalar.now) }
    {
        match (self, scalar) {
            (ScalarKind::Text, Scalar::Text(_)) => true,
            (ScalarKind::Whole, Scalar::Int(_)) => true,
            (ScalarKind::Truth, Scalar::Bool(_)) => true,
            _ => false,
        }
    }
}

/// The kind of the field of a name, where there is one.
pub fn find_field<'a>(fields: &'a Members<Kind>, name: &str) -> Option<&'a Kind>
    ensures { option_map (λ k. kind_view k.now) result ≡ kind_of name.now (fields_view fields.now.entries) }
{
    fields.get(name)
}

/// The kind of the field of a name, where there is one, which is looked for first near the one that was found before
/// ([`Members::get_near`]).
pub fn find_field_near<'a>(
    fields: &'a Members<Kind>,
    near: &mut usize,
    name: &str,
) -> Option<&'a Kind>
    ensures { option_map (λ k. kind_view k.now) result ≡ kind_of name.now (fields_view fields.now.entries) }
{
    fields.get_near(near, name)
}

/// The shape of the field of a name, where there is one.
pub fn find_shape<'a>(fields: &'a Members<Shape>, name: &str) -> Option<&'a Shape>
    ensures { option_map (λ s. shape_view s.now) result ≡ shape_of name.now (shape_fields_view fields.now.entries) }
{
    fields.get(name)
}
