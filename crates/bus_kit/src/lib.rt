//! Tuples, and the exact counts of how often each is asked and given on each bus.
#![tactic(auto)]

mod absorbing;
mod adding;
mod count;
mod counting;
mod hasher;
mod laws;
mod seed;
mod singles;
mod tallies;
mod tally;
mod tuple;
mod values;

pub use adding::{ask, ask_values, give, give_times};
pub use count::{Both, Count, Side};
pub use hasher::StepTally;
pub use laws::types_cross;
pub use seed::Seed;
pub use tallies::Tallies;
pub use tally::Tally;
pub use tuple::{Tuple, Unequal};
pub use values::ValueTally;
