//! What docs/CONSTRAINTS.md says of constraints, buses, kinds and columns, in words.
#![tactic(auto)]

mod bus_words;
mod columns;
mod meanings;
mod parts;
mod terms;
mod words;

pub use bus_words::append_bus;
pub use columns::{column_name, column_names};
pub use meanings::append_meaning;
pub use parts::{Part, append_part, part_of};
pub use terms::term_of;
pub use words::words_of;
