//! From an accepted trace to its evidence: a tree is read from its rows, one block behind the other, and with it the run that they
//! show, or two hashes of different inputs that have one digest (docs/PROOF.md).
#![tactic(auto)]

mod cells;
mod decode;
mod extracting;
mod found;
mod laws;
mod spans;
mod tape;
mod turns;
mod walk;

pub use cells::operation;
pub use extracting::{extract, extract_addr};
pub use found::{Found, Walked};
pub use laws::readable_laws;
pub use walk::{whole, whole_with_tape};
