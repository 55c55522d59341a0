//! Graphs as lists of rows: the places that are reached from some of them, and orders in which each
//! place stands behind those to which it has edges.
#![tactic(auto)]

mod ordering;
mod reach;

pub use ordering::{marked_first, order, unmarked};
pub use reach::{each_once, is_marked, reached, reached_from, row_at};
