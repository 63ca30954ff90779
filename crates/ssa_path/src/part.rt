//! The parts of an object: what stands at and below its root's field `status`, and all else.
ghost use Rattle.std.specs.Prelude.{◌≡◌, [], ◌∷◌, true, option_copied};
ghost use Rattle.ssa_model.specs.definitions.Parts.{is_path_of, same_part, status};
ghost use Rattle.ssa_path.specs.Subresources.{are_in_part, in_part, other_part, part_view, subresource_text, IsPartOf, LiesIn};
ghost use Rattle.ssa_path.specs.Trie.{is_trie};
ghost use Rattle.ssa_path.specs.View.{element_view};

use crate::element::Elem;
use crate::trie::Trie;
use ssa_json::text::is_same_text;

/// The part of an object that a command reaches, and through which a manager owns its fields.
///
/// On a server `status` is a subresource of its own: a controller writes it there, and what stands beside it in the object that it
/// sends is disregarded. See the Kubernetes documentation, "Custom resources", on the status subresource.
#[derive(Clone, Copy, Debug, PartialEq, Eq)]
pub enum Part {
    /// All but `status`.
    Main,
    /// The root's field `status` with all that is below it.
    Status,
}

// Whether the element is the root's field `status`.
fn is_status(element: &Elem) -> bool
    ensures { result ≡ is_path_of status (element_view element.now ∷ []) }
{
    match element {
        Elem::Field(name) => is_same_text(name.as_str(), "status"),
        Elem::Key(_) => false,
        Elem::Value(_) => false,
    }
}

impl Part {
    /// Whether both are one part.
    pub fn is_same(self, other: Part) -> bool
        ensures { result ≡ same_part (part_view self) (part_view other) }
    {
        match (self, other) {
            (Part::Main, Part::Main) => true,
            (Part::Main, Part::Status) => false,
            (Part::Status, Part::Main) => false,
            (Part::Status, Part::Status) => true,
        }
    }

    /// The name of the subresource through which the part is reached, where it is one.
    pub fn subresource(self) -> Option<&'static str>
        ensures { option_copied result ≡ subresource_text (part_view self) }
    {
        match self {
            Part::Main => None,
            Part::Status => Some("status"),
        }
    }

    /// The part that this one is not.
    pub fn other(self) -> Part
        ensures { part_view result ≡ other_part (part_view self) }
    {
        match self {
            Part::Main => Part::Status,
            Part::Status => Part::Main,
        }
    }

    /// Whether the root is of the part.
    pub fn has_root(self) -> bool
        ensures { result ≡ is_path_of (part_view self) [] }
    {
        match self {
            Part::Main => true,
            Part::Status => false,
        }
    }

    /// Whether what stands at and below this element of the root is of the part.
    pub fn has(self, element: &Elem) -> bool
        ensures { result ≡ is_path_of (part_view self) (element_view element.now ∷ []) }
    {
        match self {
            Part::Main => !is_status(element),
            Part::Status => is_status(element),
        }
    }

    // Takes out those children of a root that are not of the part.
    fn keep(self, children: &mut Vec<(Elem, Trie)>)
        ensures { children.new.items ≡ in_part (part_view self) children.old.items }
    {
        match self {
            Part::Main => children.retain(|child| Part::Main.has(&child.0)),
            Part::Status => children.retain(|child| Part::Status.has(&child.0)),
        }
    }

    // Takes out those paths of a root's trie that are not of the part. Takes no memory.
    pub(crate) fn keep_paths(self, root: &mut Trie)
        requires { is_trie root.old ≡ true }
        ensures { IsPartOf (part_view self) root.old root.new }
    {
        let Trie { here, below } = root;
        *here = *here && self.has_root();
        self.keep(below);
    }

    // Whether all paths of a root's trie are of the part.
    pub(crate) fn has_all(self, root: &Trie) -> bool
        requires { is_trie root.now ≡ true }
        ensures { result ≡ true → LiesIn (part_view self) root.now }
    {
        if root.here && !self.has_root() {
            return false;
        }
        for child in &root.below {
            if !self.has(&child.0) {
                return false;
            }
        }
        true
    }
}
