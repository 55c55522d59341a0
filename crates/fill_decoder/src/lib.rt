//! What the rows of a run show beside the machine's state, from one event to the next.
#![tactic(auto)]

mod decoder;
mod positions;
mod stack;

pub use decoder::{Decoder, Open};
pub use stack::{Stack, into_elements};
