//! The entries of the tables that others look up in: the range table's three and the kernel table's four
//! (docs/CONSTRAINTS.md).
#![tactic(auto)]

mod kernel;
mod range;

pub use kernel::first_fault_kernel;
pub use range::first_fault_range;
