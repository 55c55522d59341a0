//! The instructions of assembly sources: their names, the numbers that they take, and the
//! operations that stand last in the list of each.
#![tactic(auto)]

mod form;
mod instr;
mod name;
mod slot;
mod table;

pub use form::Form;
pub use instr::{Instr, Numbers};
pub use name::{Name, name_of, names_are_texts};
