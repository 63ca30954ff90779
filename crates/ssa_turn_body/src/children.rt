//! Changes of one place: another leaf, or children that go, come and move.
ghost use Rattle.std.specs.Prelude.{◌≡◌};

use crate::descent::Change;
use crate::reorder::reorder;
use crate::weave::weave;
use ssa_path::element::Elem;
use ssa_typed::node::{Leaf, Node};
use std::mem;

/// The leaf that is to stand at a place.
#[derive(Drop)]
pub struct LeafSwap {
    pub leaf: Leaf,
}

impl LeafSwap {
    /// The leaf: nothing else is kept. Takes no memory.
    pub fn into_parts(self) -> Leaf
        ensures { result ≡ self.leaf }
    {
        let LeafSwap { leaf } = self;
        leaf
    }
}

impl Change for LeafSwap {
    ghost use Rattle.ssa_turn_body.specs.Edits.{LeafFits, LeafGives};

    ghost fits = { LeafFits };

    ghost gives = { LeafGives };

    fn apply(&mut self, node: &mut Node) {
        match node {
            Node::Leaf(leaf) => mem::swap(leaf, &mut self.leaf),
            Node::Branch(_) => unreachable!(),
            Node::Dict(_) => unreachable!(),
            Node::List(_) => unreachable!(),
        }
    }
}

/// Some children of one place: where they stand among its children, and their elements, both in
/// the children's order. The places rise.
#[derive(Drop)]
pub struct Placed {
    pub places: Vec<usize>,
    pub elements: Vec<Elem>,
}

impl Placed {
    /// The places and the elements: nothing else is kept. Takes no memory.
    pub fn into_parts(self) -> (Vec<usize>, Vec<Elem>)
        ensures places { result.0 ≡ self.places }
        ensures elements { result.1 ≡ self.elements }
    {
        let Placed { places, elements } = self;
        (places, elements)
    }
}

/// The elements of all children of one place in their order, after an edit and before it. Both are
/// empty where no child is exchanged.
#[derive(Drop)]
pub struct Orders {
    pub after: Vec<Elem>,
    pub before: Vec<Elem>,
}

impl Orders {
    /// Both orders: nothing else is kept. Takes no memory.
    pub fn into_parts(self) -> (Vec<Elem>, Vec<Elem>)
        ensures after { result.0 ≡ self.after }
        ensures before { result.1 ≡ self.before }
    {
        let Orders { after, before } = self;
        (after, before)
    }
}

/// What changes among the children of one place: some go, some come, and others move.
///
/// The children are exchanged as `before` says, one pair of places after the other; then those of
/// `gone` go, and those of `come` come in; then all are exchanged as `after` says. The places of
/// `gone` are those before the pass and the places of `come` those after it. `order` names the
/// children as they stand before and after all of this. `held` has the children that come, in this
/// order. `out` is empty, with room for the children that go, and
/// `room` is empty, with room for all children afterwards, and with none where no child goes or
/// comes.
#[derive(Drop)]
pub struct ChildrenEdit {
    pub before: Vec<(usize, usize)>,
    pub gone: Placed,
    pub come: Placed,
    pub after: Vec<(usize, usize)>,
    pub order: Orders,
    pub held: Vec<(Elem, Node)>,
    pub out: Vec<(Elem, Node)>,
    pub room: Vec<(Elem, Node)>,
}

impl ChildrenEdit {
    ghost use Rattle.ssa_turn_body.specs.Edits.{is_idle, EditFitsIn, EditGivesIn};

    /// What goes, comes and moves, and the room: nothing else is kept. Takes no memory.
    pub fn into_parts(
        self,
    ) -> (
        Vec<(usize, usize)>,
        Placed,
        Placed,
        Vec<(usize, usize)>,
        Orders,
        Vec<(Elem, Node)>,
        Vec<(Elem, Node)>,
        Vec<(Elem, Node)>,
    )
        ensures before { result.0 ≡ self.before }
        ensures gone { result.1 ≡ self.gone }
        ensures come { result.2 ≡ self.come }
        ensures after { result.3 ≡ self.after }
        ensures order { result.4 ≡ self.order }
        ensures held { result.5 ≡ self.held }
        ensures out { result.6 ≡ self.out }
        ensures room { result.7 ≡ self.room }
    {
        let ChildrenEdit {
            before,
            gone,
            come,
            after,
            order,
            held,
            out,
            room,
        } = self;
        (before, gone, come, after, order, held, out, room)
    }

    /// Whether no child goes, comes or is exchanged. Takes no memory.
    pub fn is_idle(&self) -> bool
        ensures { result ≡ is_idle self.now }
    {
        self.before.is_empty()
            && self.after.is_empty()
            && self.gone.places.is_empty()
            && self.come.places.is_empty()
    }

    // Makes the edit, which becomes the one that leads back.
    fn turn(&mut self, children: &mut Vec<(Elem, Node)>)
        requires { EditFitsIn self.old children.old.items }
        ensures { EditGivesIn self.old children.old.items self.new children.new.items }
    {
        reorder(children, &self.before);
        weave(
            children,
            &self.gone.places,
            &self.come.places,
            &mut self.held,
            &mut self.out,
            &mut self.room,
        );
        reorder(children, &self.after);
        mem::swap(&mut self.gone, &mut self.come);
        mem::swap(&mut self.before, &mut self.after);
        mem::swap(&mut self.order.before, &mut self.order.after);
        self.before.reverse();
        self.after.reverse();
    }
}

impl Change for ChildrenEdit {
    ghost use Rattle.ssa_turn_body.specs.Edits.{EditFits, EditGives};

    ghost fits = { EditFits };

    ghost gives = { EditGives };

    fn apply(&mut self, node: &mut Node) {
        match node {
            Node::Leaf(_) => unreachable!(),
            Node::Branch(children) => self.turn(children),
            Node::Dict(children) => self.turn(children),
            Node::List(children) => self.turn(children),
        }
    }
}
