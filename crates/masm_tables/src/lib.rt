//! The sizes and the lists of all procedures of a source, by their places, and the trees that are built
//! of them (docs/ASSEMBLY.md).
#![tactic(auto)]

mod building;
mod kernel;
mod limits;
mod listing;
mod sizing;

pub use building::{exports_of, main_tree};
pub use kernel::export_names;
pub use limits::{first_too_large, main_too_large};
pub use listing::{Listings, lists_of};
pub use sizing::sizes_of;
