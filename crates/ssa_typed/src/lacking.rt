//! The paths of a set at which nothing stands in a tree.
ghost use Rattle.std.specs.Prelude.{◌≡◌, true, IfOk};
ghost use Rattle.ssa_path.specs.Children.{elements, rises};
ghost use Rattle.ssa_path.specs.Trie.{are_filled_tries, is_trie};
ghost use Rattle.ssa_typed.specs.Lacking.{AreLacking, IsLacking};
ghost use Rattle.ssa_typed.specs.Rows.{is_tree};

use crate::node::Node;
use ssa_path::combine::push_filled;
use ssa_path::element::Elem;
use ssa_path::trie::Trie;
use std::alloc::{AllocError, Global};

// What is lacking below a node of these tries' paths, each child's behind its element.
#[cycle(lacking)]
fn lacking_below(
    alloc: Global,
    node: &Node,
    set: &[(Elem, Trie)],
) -> Result<Vec<(Elem, Trie)>, AllocError>
    requires tree { is_tree node.now ≡ true }
    requires rise { rises (elements set.now) ≡ true }
    requires tries { are_filled_tries set.now ≡ true }
    ensures { IfOk result (λ v. AreLacking node.now set.now v.items) }
{
    let own = &node.ordered(alloc)?;
    let mut lacking = Vec::new(alloc);
    for part in set {
        match own.find(&part.0) {
            Some(child) => {
                let trie = lacking_paths(alloc, child, &part.1)?;
                push_filled(alloc, &mut lacking, &part.0, trie)?;
            }
            None => {
                let trie = part.1.copy(alloc)?;
                push_filled(alloc, &mut lacking, &part.0, trie)?;
            }
        }
    }
    Ok(lacking)
}

// The paths of the trie at which nothing stands in the tree.
#[cycle(lacking)]
pub(crate) fn lacking_paths(alloc: Global, node: &Node, set: &Trie) -> Result<Trie, AllocError>
    requires tree { is_tree node.now ≡ true }
    requires trie { is_trie set.now ≡ true }
    ensures { IfOk result (λ t. IsLacking node.now set.now t) }
{
    let below = lacking_below(alloc, node, &set.below)?;
    Ok(Trie { here: false, below })
}
