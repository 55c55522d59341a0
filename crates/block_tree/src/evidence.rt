use crate::tree::Tree;
use vm_field::Felts;

/// What an accepted trace shows.
#[derive(Drop)]
pub enum Evidence {
    /// A run of so many cycles of a tree, some blocks of which may be opaque, on a tape of advice.
    Run {
        cycles: u32,
        tree: Tree,
        tape: Felts,
    },
    /// Two places of the hasher table, the lower first, at which hashes of different inputs begin
    /// that have one digest.
    Pair {
        first: u32,
        second: u32,
    },
}
