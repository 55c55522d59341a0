ghost use Rattle.std.specs.Prelude.{◌≡◌, ◌+◌, ◌^◌, ◌<◌, IfOk, length};
ghost use Rattle.rpo_hash.specs.Constants.{constants_of};
ghost use Rattle.air_kit.specs.Hashes.{computation_at};
ghost use Rattle.block_tree.specs.Trees.{IsWhole, tree_digest};
ghost use Rattle.tree_hash.specs.Nodes.{IsHashed, node_tree};
ghost use Rattle.tree_merge.specs.AddrView.{placed_of};
ghost use Rattle.tree_merge.specs.Merging.{Good};
ghost use Rattle.tree_merge.specs.Placed.{placed_digest, plain};
ghost use Rattle.tree_merge.specs.Sides.{IsAcross};
ghost use Rattle.source_check.specs.Comparing.{IsClashOf, IsCompared};
ghost use Rattle.source_check.specs.Numbering.{blocks_in};

use crate::numbering::numbered_tree;
use crate::sourced::Sourced;
use air_kit::Trace;
use block_tree::Tree;
use rpo_hash::{Params, known_constants};
use std::alloc::Global;
use tree_hash::Node;
use tree_merge::{AddrTree, MergeStop, into_tree, merge_in};
use vm_field::Memory;

/// What comes of the tree of a run beside that of its source.
#[derive(Drop)]
pub(crate) enum Compared {
    /// One tree that refines both.
    Merged(Tree),
    /// An address of the trace and the number of a block of the source that are hashed of different
    /// inputs and have one digest.
    Clash { address: u32, node: u64 },
}

/// The tree of a run merged with that of its source, of one digest. The blocks of the source take the
/// addresses behind the last row of the hasher's table, so that a pair has one hash of each. These
/// addresses have 32 bits.
///
/// # Errors
///
/// `Memory` where the system gave none.
pub(crate) fn compare(
    alloc: Global,
    params: &Params,
    trace: &Trace,
    source: &Node,
    tree: AddrTree,
) -> Result<Compared, Memory>
    requires whole { IsWhole (node_tree source.now) }
    requires hashed { IsHashed (constants_of params.now) source.now }
    requires good { Good (constants_of params.now) (computation_at trace.now.hasher) (placed_of tree) }
    requires digest { placed_digest (constants_of params.now) (placed_of tree) ≡ tree_digest (constants_of params.now) (node_tree source.now) }
    requires room { length trace.now.hasher + blocks_in (constants_of params.now) (node_tree source.now) < 2 ^ 32 }
    ensures { IfOk result (λ c. IsCompared (constants_of params.now) trace.now (node_tree source.now) (plain (placed_of tree)) c) }
{
    known_constants(params);
    let rows = trace.hasher.rows() as u32;
    let mut blocks = Vec::new(alloc);
    let numbered = numbered_tree(alloc, params, rows, &mut blocks, source)?;
    let sourced = Sourced {
        params,
        trace,
        source,
        blocks,
    };
    match merge_in(params, &sourced, numbered, tree) {
        Ok(tree) => Ok(Compared::Merged(into_tree(alloc, tree)?)),
        Err(stop) => clash_of(rows, stop),
    }
}

// Of a pair, the second address is that of a block, behind these rows.
fn clash_of(rows: u32, stop: MergeStop) -> Result<Compared, Memory>
    requires { IsAcross rows stop }
    ensures { IfOk result (λ c. IsClashOf rows stop c) }
{
    match stop {
        MergeStop::Pair { first, second } => Ok(Compared::Clash {
            address: first,
            node: u64::from(second - rows),
        }),
        MergeStop::Memory => Err(Memory::Memory),
    }
}
