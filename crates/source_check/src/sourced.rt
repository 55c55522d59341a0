ghost use Rattle.std.specs.Prelude.{◌≡◌, map};
ghost use Rattle.rpo_hash.specs.Constants.{constants_of};
ghost use Rattle.source_check.specs.SourceNodes.{inputs_of, shown_block};
ghost use Rattle.tree_hash.specs.Nodes.{node_tree};

use air_kit::Trace;
use rpo_hash::Params;
use tree_hash::Node;
use tree_merge::Hashes;
use vm_field::Felt;

/// What is hashed in a trace, and behind the last address of its hasher's table what the blocks of a
/// source are hashed by, in preorder.
#[derive(Drop)]
pub(crate) struct Sourced<'a> {
    pub(crate) params: &'a Params,
    pub(crate) trace: &'a Trace,
    pub(crate) source: &'a Node,
    // the first block of each input, or eight zeros
    pub(crate) blocks: Vec<[Felt; 8]>,
    ghost blocks_right: { blocks.items ≡ map shown_block (inputs_of (constants_of params.now) (node_tree source.now)) },
}

impl Hashes for Sourced<'_> {
    ghost use Rattle.rpo_hash.specs.Constants.{constants_of};
    ghost use Rattle.source_check.specs.SourceNodes.{hashed_with, inputs_of};
    ghost use Rattle.tree_hash.specs.Nodes.{node_tree};

    ghost hashed_at = { λ s. hashed_with s.trace.now.hasher (inputs_of (constants_of s.params.now) (node_tree s.source.now)) };

    fn first_block(&self, address: u32) -> [Felt; 8] {
        let rows = self.trace.hasher.rows();
        if address as usize <= rows {
            return self.trace.first_block(address);
        }
        self.blocks[address as usize - rows - 1]
    }
}
