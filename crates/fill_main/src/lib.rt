//! Fills the main table of a run from its events, a row each, with what these rows ask of the small tables.
#![tactic(auto)]

mod cells;
mod fill;
mod inverses;
mod main_table;
mod row;
mod turns;
mod witnesses;

pub use main_table::fill_main;
