//! The entries of the hasher's table, 1 to 29: eight rows a permutation, of which a hash has one or more
//! (docs/CONSTRAINTS.md).
#![tactic(auto)]

mod fault;
mod flags;
mod round;

pub use fault::first_fault;
