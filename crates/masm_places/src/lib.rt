//! The places of a run's cycles: a walk over the syntax trees of a source and its kernel, cycle by cycle, which tells the instruction
//! that each cycle belongs to and the calls that led there (docs/SHOW.md).
#![tactic(auto)]

mod entering;
mod laws;
mod leaving;
mod level;
mod levels;
mod operations;
mod origin;
mod passing;
mod sources;
mod told;
mod walk;

pub use laws::places_are_honest;
pub use level::{Level, Part};
pub use levels::Levels;
pub use origin::Origin;
pub use sources::Sources;
pub use walk::Walk;
