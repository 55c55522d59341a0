//! The buses on which rows ask and give tuples, by name, and, in `specs/`, what it is to count tuples over the rows of a
//! table.
#![tactic(auto)]

mod bus;

pub use bus::{Bus, types_cross};
