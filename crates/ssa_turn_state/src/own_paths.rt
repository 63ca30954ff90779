//! That the paths and the moments of programs' states are read from their texts.
ghost use Rattle.std.specs.Prelude.{◌≡◌, true};
ghost use Rattle.ssa_model.specs.definitions.RecordReading.{HasReadPaths, IsReadState};
ghost use Rattle.ssa_model.specs.definitions.Valid.{AllEntries};
ghost use Rattle.ssa_json.specs.Readings.{readings};
ghost use Rattle.ssa_merge.specs.Managers.{table_view};
ghost use Rattle.ssa_merge.specs.States.{state_view};
ghost use Rattle.ssa_typed.specs.Rows.{body_of};

use ssa_merge::managers::Entry;
use ssa_merge::state::State;
use ssa_typed::body::Body;
use ssa_typed::node::Node;

/// The paths of a body are read from their elements' texts.
///
/// Looks at each number of the elements, and changes nothing. Takes no memory.
pub fn own_paths_are_read(body: &Body)
    ensures { HasReadPaths readings body.now }
{
    node_is_read(body.root());
}

/// The paths of a state are read from their elements' texts, and its moments are moments.
///
/// Looks at each number of the body's elements, and changes nothing. Takes no memory.
pub fn own_state_is_read(state: &State)
    ensures { IsReadState readings (state_view state.now) }
{
    own_paths_are_read(&state.body);
    moments_are_read(state.managers.entries());
}

// The paths of a tree are read from their elements' texts.
fn node_is_read(node: &Node)
    ensures { HasReadPaths readings (body_of node.now) }
{
    for child in node.children() {
        child.0.is_of_program();
        match &child.1 {
            Node::Leaf(_) => {}
            _ => node_is_read(&child.1),
        }
    }
}

// The moment of each entry is one.
fn moments_are_read(entries: &[Entry])
    ensures { AllEntries (λ e. readings.moment e.moment ≡ true) (table_view entries.now) }
{
    for entry in entries {
        let _moment = entry.at.write();
    }
}
