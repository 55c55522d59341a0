//! Eleven procedures on unsigned numbers of 64 bits: the list of instructions of each, what it does to a stack, and the library of them for sources.
#![tactic(auto)]

mod laws;
mod list;
mod names;
mod table;

pub use laws::{library_laws, procedure_laws};
pub use list::procedure;
pub use names::{U64Procedure, by_name};
pub use table::library;
