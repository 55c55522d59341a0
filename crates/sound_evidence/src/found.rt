ghost use Rattle.std.specs.Prelude.{◌≡◌, IfOk, IfErr};
ghost use Rattle.tree_merge.specs.AddrView.{entries_of, placed_of};
ghost use Rattle.tree_merge.specs.Placed.{no_placed, placed, placed_from};

use std::alloc::Global;
use tree_merge::{AddrTree, AddrTrees, MergeStop, Target};
use vm_field::{Felts, Word};

/// The tree of a block, and the row of the block's END.
#[derive(Drop)]
pub struct Found {
    pub end: usize,
    pub tree: AddrTree,
}

/// What the rows of a whole trace show: the tree of its outermost block, and what they take from the tape.
#[derive(Drop)]
pub struct Walked {
    pub found: Found,
    pub tape: Felts,
}

// The tree in a box.
pub(crate) fn boxed(alloc: Global, tree: AddrTree) -> Result<Box<AddrTree>, MergeStop>
    ensures ok { IfOk result (λ b. b.value ≡ tree) }
    ensures err { IfErr result (λ stop. stop ≡ MergeStop.Memory) }
{
    match Box::new(alloc, tree) {
        Ok(tree) => Ok(tree),
        Err(_) => Err(MergeStop::Memory),
    }
}

// The tree as the only target of a dynamic block, with its digest.
pub(crate) fn only_target(
    alloc: Global,
    digest: Word,
    tree: AddrTree,
) -> Result<AddrTrees, MergeStop>
    ensures ok { IfOk result (λ targets. placed_from (entries_of targets.items) ≡ placed digest (placed_of tree) no_placed) }
    ensures err { IfErr result (λ stop. stop ≡ MergeStop.Memory) }
{
    let mut targets = AddrTrees::new(alloc);
    match targets.push(Target { digest, tree }) {
        Ok(()) => Ok(targets),
        Err(_) => Err(MergeStop::Memory),
    }
}
