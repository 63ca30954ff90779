//! JSON values: what RFC 8259 has, but for nulls and for numbers that are not whole numbers of 64 bits.
ghost use Rattle.std.specs.Prelude.{◌≡◌, Some, None, option_map};
ghost use Rattle.ssa_json.specs.View.{view, members_view, as_object};
ghost use Rattle.ssa_json.specs.Lookups.{ObjectsAreMembers};
ghost use Rattle.ssa_model.specs.definitions.Json.{is_object, as_text, member_at};

use ssa_members::{Members, SmallText};

/// A text, a whole number of 64 bits with sign, or a truth value.
#[derive(Debug, Drop)]
pub enum Scalar {
    Text(SmallText),
    Int(i64),
    Bool(bool),
}

/// A JSON value. The members of an object stand in the order of their names' bytes, each name once.
#[derive(Drop)]
pub enum Json {
    Scalar(Scalar),
    List(Vec<Json>),
    Object(Members<Json>),
}

impl Json {
    /// Whether the value is an object.
    pub fn is_object(&self) -> bool
        ensures { result ≡ is_object (view self.now) }
    {
        matches!(self, Json::Object(_))
    }

    /// The members, where the value is an object.
    pub fn as_object(&self) -> Option<&Members<Json>>
        ensures { option_map (λ ms. members_view ms.now.entries) result ≡ as_object (view self.now) }
    {
        match self {
            Json::Object(members) => Some(members),
            _ => None,
        }
    }

    /// The text, where the value is one.
    pub fn as_text(&self) -> Option<&str>
        ensures { option_map (λ s. s.now) result ≡ as_text (view self.now) }
    {
        match self {
            Json::Scalar(Scalar::Text(text)) => Some(text.as_str()),
            _ => None,
        }
    }

    /// The member of a name, where the value is an object that has one.
    pub fn member(&self, name: &str) -> Option<&Json>
        ensures { option_map (λ v. view v.now) result ≡ member_at name.now (view self.now) }
    {
        match self {
            Json::Object(members) => members.get(name),
            _ => None,
        }
    }
}

/// An object is seen as the members of its map.
pub fn objects_are_members()
    ensures { ObjectsAreMembers }
{}
