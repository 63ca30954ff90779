//! What a record tells of a body, found by whole paths.
use crate::by_path::ByPath;
use ssa_json::value::Json;
use ssa_path::element::Elem;
use ssa_path::field_set::FieldSet;
use ssa_told::told::ToldPut;

/// What is told of the places of a body, each by its path. The paths are lent by the lists that tell
/// them.
#[derive(Drop)]
pub struct ToldPlaces<'a> {
    pub cut: ByPath<'a, ()>,
    pub leaves: ByPath<'a, &'a Json>,
    pub order: ByPath<'a, &'a [Elem]>,
    pub put: ByPath<'a, &'a ToldPut>,
    /// The paths of which anything is told.
    pub touched: FieldSet,
}
