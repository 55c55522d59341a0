//! The words of a command line: positionals and options in any order, as a definition, and the names and
//! numbers that words give.
#![tactic(auto)]

mod names;

pub use names::{file_name, number_in};
