ghost use Rattle.std.specs.Prelude.{◌≡◌};

use block_tree::Tree;
use thiserror::Error;
use vm_field::{Felts, Memory, Word};

/// What an accepted trace shows to one who has the tree of the program.
#[derive(Drop)]
pub enum SourceEvidence {
    /// A run of so many cycles of a tree that refines the program's, on a tape of advice.
    Ran {
        cycles: u32,
        tree: Tree,
        tape: Felts,
    },
    /// Two addresses of the hasher's table, the lower first, at which hashes of different inputs
    /// begin that have one digest.
    ClashFile {
        first: u32,
        second: u32,
    },
    /// An address of the hasher's table and a block of the program's tree, by its number in preorder
    /// from 1 on, that are hashed of different inputs and have one digest.
    ClashNode {
        address: u32,
        node: u64,
    },
}

/// Why there is no evidence for a program.
#[derive(Clone, Copy, Debug, PartialEq, Eq, Error)]
pub enum SourceStop {
    /// The statement has another digest than the program.
    #[error("the digest of another program")]
    OtherDigest { file: Word, source: Word },
    /// The system gave no memory.
    #[error("out of memory")]
    Memory,
}

impl From<Memory> for SourceStop {
    ghost use Rattle.source_check.specs.declared.evidence.SourceStop.TheVariants.{Memory};

    ghost from_gives = { λ _ stop. stop ≡ Memory };

    fn from(_error: Memory) -> SourceStop {
        SourceStop::Memory
    }
}
