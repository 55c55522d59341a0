//! Operation lists packed into batches of eight elements, and read back.
#![tactic(auto)]

mod batches;
mod group;
mod laws;
mod packing;
mod reading;

pub use batches::Batches;
pub use laws::{packing_laws, types_cross};
pub use packing::pack;
pub use reading::{in_use, unpack};
