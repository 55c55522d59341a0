//! The entries of memory's table, 1 to 17: accesses ordered by context, address and clock, each with the word behind it
//! (docs/CONSTRAINTS.md).
#![tactic(auto)]

mod access;
mod fault;
mod parts;
mod word;

pub use fault::first_fault;
