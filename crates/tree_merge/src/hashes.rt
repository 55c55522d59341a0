use air_kit::Trace;
use chip_columns::HasherView;
use vm_field::Felt;

/// Where hashes stand: what is hashed at an address, if a hash begins there.
pub trait Hashes {
    ghost use Rattle.std.specs.Prelude.{◌≡◌, ℕ, Option};
    ghost use Rattle.vm_field.specs.Sponge.{HashInput};
    ghost use Rattle.tree_merge.specs.FirstBlocks.{HasBlock, first_block_of};

    ghost hashed_at: { Self → ℕ → Option HashInput };

    /// The first block that is hashed at an address.
    fn first_block(&self, address: u32) -> [Felt; 8]
        requires { HasBlock (hashed_at self.now address) }
        ensures { result ≡ first_block_of (hashed_at self.now address) };
}

impl Hashes for Trace {
    ghost use Rattle.air_kit.specs.Hashes.{computation_at};

    ghost hashed_at = { λ t. computation_at t.hasher };

    fn first_block(&self, address: u32) -> [Felt; 8] {
        let row = self.hasher.row(address as usize - 1);
        [
            row.x4(),
            row.x5(),
            row.x6(),
            row.x7(),
            row.x8(),
            row.x9(),
            row.x10(),
            row.x11(),
        ]
    }
}
