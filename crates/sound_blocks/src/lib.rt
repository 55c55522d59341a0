//! How the blocks of an accepted trace nest, what the rows of its spans read, and which cells lie below the sixteenth
//! (docs/CONSTRAINTS.md). Laws; no code.
#![tactic(auto)]

mod laws;

pub use laws::{frame_laws, nesting_laws, overflow_laws, span_laws};
