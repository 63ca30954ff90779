//! The paths that a record gains or loses.
ghost use Rattle.std.specs.Prelude.{◌≡◌};

use ssa_path::trie::Trie;
use std::marker::Model;
use std::rc::Rc;

// Who holds the trie.
#[derive(Drop)]
enum Holder {
    Own(Trie),
    Shared(Rc<Trie>),
}

/// A trie of paths, that of one record alone or one that several records share.
///
/// In contracts it is the trie, whoever holds it.
#[derive(Drop)]
pub struct KeptPaths {
    holder: Holder,
}

impl Model for KeptPaths {
    ghost use Rattle.ssa_path.specs.contracts.trie.Trie as trie;
    ghost use Rattle.ssa_path.specs.declared.trie.Trie.{Trie};

    ghost Value = { Trie };

    ghost coded = { trie.the_row.coded };

    ghost use Rattle.ssa_turn_set.specs.Kept.{held};

    ghost view = { λ k. held k.holder };
}

impl KeptPaths {
    /// The paths of a trie that nobody else holds.
    pub fn of_trie(trie: Trie) -> KeptPaths
        ensures { result ≡ trie }
    {
        KeptPaths {
            holder: Holder::Own(trie),
        }
    }

    /// The paths of a trie that others hold as well.
    pub fn of_shared(trie: Rc<Trie>) -> KeptPaths
        ensures { result ≡ trie.value }
    {
        KeptPaths {
            holder: Holder::Shared(trie),
        }
    }

    /// The trie. Nothing else is kept.
    pub fn as_trie(&self) -> &Trie
        ensures { result.now ≡ self.now }
    {
        let KeptPaths { holder } = self;
        match holder {
            Holder::Own(trie) => trie,
            Holder::Shared(trie) => trie,
        }
    }
}
