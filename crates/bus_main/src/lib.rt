//! What a row of the main table gives and asks on all buses: with `bus_blocks`, what it asks of the small tables
//! (docs/CONSTRAINTS.md).
#![tactic(auto)]

mod bitwise;
mod hasher;
mod inputs;
mod kernel;
mod memory;
mod place;
mod range;
mod step;

pub use place::tuples;
