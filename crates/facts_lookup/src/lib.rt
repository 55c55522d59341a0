//! The range table goes from 0 to 65535 and the kernel's table is the list of the statement's digests: their entries are 0
//! exactly where that is so (docs/CONSTRAINTS.md). Laws; no code.
#![tactic(auto)]

mod laws;

pub use laws::{kernel_laws, range_laws};
