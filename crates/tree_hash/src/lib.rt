//! The tree of a program with the digest of each block, of which equal blocks have theirs computed
//! once, and with the operations of each batch, which are read once.
#![tactic(auto)]

mod batch;
mod digests;
mod node;
mod places;
mod reading;
mod sponge;

pub use batch::{Batch, ReadBatch};
pub use digests::{Digests, pair};
pub use node::{Node, hashed};
pub use places::Places;
