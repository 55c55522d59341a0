ghost use Rattle.std.specs.Prelude.{◌≡◌, ◌↔◌, IsTrue};
ghost use Rattle.tree_merge.specs.FirstBlocks.{HasBlock, first_block_of};

use crate::hashes::Hashes;

// Whether the first blocks that are hashed at two addresses agree.
pub(crate) fn same_block<H: Hashes>(hashes: &H, p: u32, q: u32) -> bool
    requires first { HasBlock (H.hashed_at hashes.now p) }
    requires second { HasBlock (H.hashed_at hashes.now q) }
    ensures is { IsTrue result ↔ (first_block_of (H.hashed_at hashes.now p) ≡ first_block_of (H.hashed_at hashes.now q)) }
{
    hashes.first_block(p) == hashes.first_block(q)
}
