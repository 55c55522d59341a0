/// The most bytes of a file's name (docs/FORMATS.md).
pub const MOST_NAME_BYTES: usize = 200;

/// The most cycles of a run (docs/MACHINE.md).
pub const MOST_CYCLES: u32 = 524_287;

/// So many cells has a stack at least.
pub const LEAST_DEPTH: usize = 16;

/// The most cells of the stack at the start (docs/FORMATS.md).
pub const MOST_INPUTS: usize = 1_024;

/// The most procedures of a kernel.
pub const MOST_KERNEL: usize = 255;

/// The most blocks that are open at once, so that no tree is higher.
pub const MOST_NESTING: u32 = 1_024;

/// The most operations of a procedure's list, and of a program (docs/ASSEMBLY.md).
pub const MOST_OPERATIONS: u32 = 524_288;
