ghost use Rattle.std.specs.Prelude.{◌≡◌, ℕ, List, Some, None, nat_eq, if◌then◌else◌, IfOk, OnOk, map};
ghost use lib.Pointwise.{pointwise};
ghost use Rattle.std.specs.Option.{option_or};
ghost use Rattle.tree_hash.specs.Nodes.{AreFirst, digest_in};
ghost use Rattle.tree_hash.specs.Places.{place_at};

use crate::node::Node;
use indexmap::IndexMap;
use std::alloc::Global;
use vm_field::{Memory, Word};

/// The places of digests in a list, of each its first one.
#[derive(Drop)]
pub struct Places {
    first: IndexMap<Word, usize>,
}

impl Places {
    // No places. It allocates nothing.
    fn new(alloc: Global) -> Places
        ensures { (digest : List ℕ) → place_at result digest ≡ None }
    {
        Places {
            first: IndexMap::new(alloc),
        }
    }

    // Gives a digest a place, unless it has one.
    fn add(&mut self, digest: Word, place: usize) -> Result<(), Memory>
        ensures { OnOk result ((other : List ℕ) → place_at self.new other
            ≡ option_or (place_at self.old other) (if pointwise nat_eq digest other then Some place else None)) }
    {
        if self.first.contains_key(&digest) {
            return Ok(());
        }
        self.first.insert(digest, place)?;
        Ok(())
    }

    /// The places of the digests of these nodes.
    pub(crate) fn of(alloc: Global, nodes: &[Node]) -> Result<Places, Memory>
        ensures { IfOk result (λ places. AreFirst places (map digest_in nodes.now)) }
    {
        let mut places = Places::new(alloc);
        for (place, node) in nodes.iter().enumerate() {
            places.add(node.digest(), place)?;
        }
        Ok(places)
    }

    /// The first place of a digest.
    pub fn place(&self, digest: &Word) -> Option<usize>
        ensures is { result ≡ place_at self.now digest.now }
    {
        self.first.get(digest).copied()
    }
}
