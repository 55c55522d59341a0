//! The cycles of a run as they are told: a line each, with the place of its instruction and the calls that led there (docs/SHOW.md).
#![tactic(auto)]

mod cycles;
mod next;
mod places;

pub use cycles::{append_cycles, append_stand};
pub use next::append_next;
