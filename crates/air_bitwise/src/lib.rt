//! The entries of the bitwise table, 1 to 16: eight rows an operation on 32 bits, four bits a row, the highest first
//! (docs/CONSTRAINTS.md).
#![tactic(auto)]

mod entries;
mod fault;
mod nibbles;

pub use fault::first_fault;
