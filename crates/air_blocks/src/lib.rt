//! Entries 1 to 91 of the main table: operations, boundaries and blocks (docs/CONSTRAINTS.md).
#![tactic(auto)]

mod blocks;
mod boundary;
mod opcode;

pub use blocks::{batches, block_faults, starts};
pub use boundary::boundary_faults;
pub use opcode::opcode_faults;
