//! What the walk of a value finds.
ghost use Rattle.std.specs.Prelude.{◌≡◌, List, [], ◌∷◌, ◌++◌, IfOk};
ghost use Rattle.ssa_model.specs.definitions.Path.{Path};
ghost use Rattle.ssa_model.specs.definitions.Kind.{FaultAt};
ghost use Rattle.ssa_schema.specs.Finds.{Finds, Breaks, found_at, told_view};

use crate::body_fault::BodyFault;
use std::alloc::{AllocError, Global};

/// What a value breaks.
#[derive(Clone, Copy, Debug, PartialEq, Eq)]
pub enum Misfit {
    UnknownField,
    WrongType,
    MissingKey,
    DuplicateItem,
}

/// A fault, and its way from the place where the walk stands: the texts of the elements, the
/// innermost first.
#[derive(Drop)]
pub struct Found {
    pub misfit: Misfit,
    pub path: Vec<String>,
}

impl Found {
    /// A fault at the place itself.
    pub fn here(alloc: Global, misfit: Misfit) -> Found
        ensures misfit { result.misfit ≡ misfit }
        ensures path { result.path.items ≡ [] }
    {
        Found {
            misfit,
            path: Vec::new(alloc),
        }
    }

    /// What is wrong at the place itself, where something is.
    pub fn at_place(alloc: Global, misfit: Option<Misfit>) -> Option<Found>
        ensures { (faults : Path → List FaultAt) → Breaks misfit faults → Finds result faults }
    {
        match misfit {
            Some(misfit) => Some(Found::here(alloc, misfit)),
            None => None,
        }
    }

    /// The fault, seen from the place above by the element that leads down.
    pub fn below(self, element: String) -> Result<Found, AllocError>
        ensures misfit { IfOk result (λ f. f.misfit ≡ self.misfit) }
        ensures path { IfOk result (λ f. f.path.items ≡ self.path.items ++ element ∷ []) }
    {
        let mut path = self.path;
        path.push(element)?;
        Ok(Found {
            misfit: self.misfit,
            path,
        })
    }
    /// The fault as it is told where the walk began: its path from the outermost element on.
    pub fn into_fault(self) -> BodyFault
        ensures { told_view result ≡ found_at [] self }
    {
        let mut path = self.path;
        path.reverse();
        match self.misfit {
            Misfit::UnknownField => BodyFault::UnknownField(path),
            Misfit::WrongType => BodyFault::WrongType(path),
            Misfit::MissingKey => BodyFault::MissingKey(path),
            Misfit::DuplicateItem => BodyFault::DuplicateItem(path),
        }
    }
}
