//! Where the columns of the main table begin (docs/CONSTRAINTS.md): a name with several columns has them side by side.

/// The clock.
pub const CLK: usize = 0;

/// The frame pointer.
pub const FMP: usize = 1;

/// The context of memory.
pub const CTX: usize = 2;

/// Whether a syscall is open.
pub const SYS: usize = 3;

/// Four: the digest of the function that runs.
pub const F: usize = 4;

/// The address of the newest open block.
pub const ADDR: usize = 8;

/// Seven: the bits of the operation's code, lowest first.
pub const B: usize = 9;

/// Eight: the elements of a hash.
pub const H: usize = 16;

/// Whether the operation is one of a span.
pub const SP: usize = 24;

/// The positions of the batch that are left.
pub const GC: usize = 25;

/// The place in the group.
pub const OX: usize = 26;

/// Three: the flags of the batch.
pub const C: usize = 27;

/// Sixteen: the cells of the stack, top first.
pub const S: usize = 30;

/// The depth of the stack.
pub const DEPTH: usize = 46;

/// The key of the newest cell below the sixteenth.
pub const KEY: usize = 47;

/// The inverse of the depth less 16.
pub const INV: usize = 48;

/// The hasher's address of the batch.
pub const HA: usize = 49;

/// The blocks that were started and not ended.
pub const LV: usize = 50;

/// Four: witnesses, which constraints ask for.
pub const W: usize = 51;

/// Ten: limbs of 16 bits.
pub const T: usize = 55;
