//! Paths, ordered element by element.
ghost use Rattle.std.specs.Prelude.{◌≡◌, IfOk};
ghost use Rattle.ssa_model.specs.definitions.Path.{path_cmp};
ghost use Rattle.ssa_path.specs.Listing.{way_view};
ghost use Rattle.ssa_path.specs.View.{path_view};

use crate::element::Elem;
use std::alloc::{AllocError, Global};
use std::cmp::Ordering;
use std::marker::Model;

/// The way from the root of a value to a place in it.
#[derive(Debug, Drop)]
pub struct Path {
    elements: Vec<Elem>,
}

impl Model for Path {
    ghost use Rattle.ssa_model.specs.definitions.Path as model;
    ghost use Rattle.ssa_model.specs.codes.Codes.{coded_path};

    ghost Value = { model.Path };

    ghost coded = { coded_path };

    ghost use Rattle.ssa_path.specs.View.{path_view};

    ghost view = { λ p. path_view p.elements.items };
}

// The order of the lists of elements.
fn order_elements(elements: &[Elem], others: &[Elem]) -> Ordering
    ensures { result ≡ path_cmp (path_view elements.now) (path_view others.now) }
{
    match (elements, others) {
        ([], []) => Ordering::Equal,
        ([], [_other, ..]) => Ordering::Less,
        ([_first, ..], []) => Ordering::Greater,
        ([first, rest @ ..], [other_first, other_rest @ ..]) => match first.order(other_first) {
            Ordering::Equal => order_elements(rest, other_rest),
            found => found,
        },
    }
}

/// Copies of the elements, one after another.
pub fn copy_elements(alloc: Global, elements: &[Elem]) -> Result<Vec<Elem>, AllocError>
    ensures { IfOk result (λ es. path_view es.items ≡ path_view elements.now) }
{
    let mut copies = Vec::with_capacity(alloc, elements.len())?;
    for element in elements {
        let copied = element.copy(alloc)?;
        copies.push(copied)?;
    }
    Ok(copies)
}

/// References to the elements, one after another.
pub fn lent_way(alloc: Global, elements: &[Elem]) -> Result<Vec<&Elem>, AllocError>
    ensures { IfOk result (λ way. way_view way.items ≡ path_view elements.now) }
{
    let mut way = Vec::with_capacity(alloc, elements.len())?;
    for element in elements {
        way.push(element)?;
    }
    Ok(way)
}

/// Copies of the elements of a way, one after another.
pub fn copy_way(alloc: Global, way: &[&Elem]) -> Result<Vec<Elem>, AllocError>
    ensures { IfOk result (λ es. path_view es.items ≡ way_view way.now) }
{
    let mut elements = Vec::with_capacity(alloc, way.len())?;
    for element in way {
        let copied = element.copy(alloc)?;
        elements.push(copied)?;
    }
    Ok(elements)
}

impl Path {
    /// The path of these elements, the first of which stands at the root.
    pub fn new(elements: Vec<Elem>) -> Path
        ensures { result ≡ path_view elements.items }
    {
        Path { elements }
    }

    /// The elements from the root on.
    pub fn elements(&self) -> &[Elem]
        ensures { path_view result.now ≡ self.now }
    {
        &self.elements
    }

    /// The path as references to its elements.
    pub fn way(&self, alloc: Global) -> Result<Vec<&Elem>, AllocError>
        ensures { IfOk result (λ way. way_view way.items ≡ self.now) }
    {
        lent_way(alloc, &self.elements)
    }

    /// The order of the lists of elements, each by its text.
    pub fn order(&self, other: &Path) -> Ordering
        ensures { result ≡ path_cmp self.now other.now }
    {
        order_elements(&self.elements, &other.elements)
    }

    /// The same path, with new memory but for key fields, which both hold.
    pub fn copy(&self, alloc: Global) -> Result<Path, AllocError>
        ensures { IfOk result (λ p. p ≡ self.now) }
    {
        let elements = copy_elements(alloc, &self.elements)?;
        Ok(Path { elements })
    }
}
