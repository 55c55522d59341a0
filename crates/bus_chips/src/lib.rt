//! What the rows of the small tables give and ask on the buses.
#![tactic(auto)]

mod bitwise;
mod hasher;
mod kernel;
mod left;
mod memory;
mod range;

pub use bitwise::tuples_bitwise;
pub use hasher::tuples_hasher;
pub use kernel::tuples_kernel;
pub use left::tuples_left;
pub use memory::tuples_memory;
pub use range::tuples_range;
