ghost use Rattle.std.specs.Prelude.{◌≡◌};
ghost use Rattle.tree_merge.specs.AddrView.{entries_of, placed_of};
ghost use Rattle.tree_merge.specs.Placed as places;
ghost use Rattle.tree_merge.specs.Placed.{at_of, kind_of, placed_from};

use op_pack::Batches;
use thiserror::Error;
use vm_field::{Memory, Word};
use vm_ops::{Op, opcode};

/// A tree of blocks, each with the address of its hash in the hasher's table. Contracts speak of it
/// by `placed_of`.
#[derive(Drop)]
#[cycle(placed)]
pub enum AddrTree {
    /// A block of which only the digest is known.
    Opaque(Word),
    /// The operations of one batch or more.
    Span(u32, Batches),
    /// One block, and then another.
    Join(u32, Box<AddrTree>, Box<AddrTree>),
    /// The first block where the cell on top is 1, and the second where it is 0.
    Split(u32, Box<AddrTree>, Box<AddrTree>),
    /// A block that is run again as long as the cell on top is 1.
    Loop(u32, Box<AddrTree>),
    /// A block with a context of its own.
    Call(u32, Box<AddrTree>),
    /// A block of the kernel.
    Syscall(u32, Box<AddrTree>),
    /// A block whose child is the target whose digest is the word on top of the stack.
    Dyn(u32, AddrTrees),
}

/// The targets of a dynamic block, in order.
pub type AddrTrees = Vec<Target>;

/// One of a dynamic block's targets, with its digest beside it, so that nothing is hashed where two
/// such blocks are merged.
#[derive(Drop)]
#[cycle(placed)]
pub struct Target {
    pub digest: Word,
    pub tree: AddrTree,
}

/// Why there is no tree.
#[derive(Clone, Copy, Debug, PartialEq, Eq, Error)]
pub enum MergeStop {
    /// The hashes at these two addresses of the hasher's table, the lower first, are of different
    /// inputs and have one digest.
    #[error("one digest at {first} and {second}")]
    Pair { first: u32, second: u32 },
    /// The system gave no memory.
    #[error("out of memory")]
    Memory,
}

impl From<Memory> for MergeStop {
    ghost use Rattle.tree_merge.specs.declared.addr_tree.MergeStop.TheVariants.{Memory};

    ghost from_gives = { λ _ stop. stop ≡ Memory };

    fn from(_error: Memory) -> MergeStop {
        MergeStop::Memory
    }
}

/// The dynamic block that is hashed at this address and has these targets.
pub fn dynamic(at: u32, targets: AddrTrees) -> AddrTree
    ensures is { placed_of result ≡ places.Dyn at (placed_from (entries_of targets.items)) }
{
    AddrTree::Dyn(at, targets)
}

// The address of the root's hash, and 0 where only the root's digest is known.
pub(crate) fn address(tree: &AddrTree) -> u32
    ensures is { result ≡ at_of (placed_of tree.now) }
{
    match tree {
        AddrTree::Opaque(_) => 0,
        AddrTree::Span(at, _)
        | AddrTree::Join(at, _, _)
        | AddrTree::Split(at, _, _)
        | AddrTree::Loop(at, _)
        | AddrTree::Call(at, _)
        | AddrTree::Syscall(at, _)
        | AddrTree::Dyn(at, _) => *at,
    }
}

// The kind of the root: 0 where only its digest is known, and else one more than the domain that it
// is hashed with.
pub(crate) fn kind(tree: &AddrTree) -> u8
    ensures is { result ≡ kind_of (placed_of tree.now) }
{
    match tree {
        AddrTree::Opaque(_) => 0,
        AddrTree::Span(_, _) => 1,
        AddrTree::Join(_, _, _) => 1 + opcode(Op::Join),
        AddrTree::Split(_, _, _) => 1 + opcode(Op::Split),
        AddrTree::Loop(_, _) => 1 + opcode(Op::Loop),
        AddrTree::Call(_, _) => 1 + opcode(Op::Call),
        AddrTree::Syscall(_, _) => 1 + opcode(Op::Syscall),
        AddrTree::Dyn(_, _) => 1 + opcode(Op::Dyn),
    }
}
