//! Trees of blocks: their digests, what they do, and the laws of both.
#![tactic(auto)]

mod evidence;
mod exports;
mod kernel;
mod laws;
mod program;
mod tree;
mod whole;

pub use evidence::Evidence;
pub use exports::{Export, Exports};
pub use kernel::are_distinct;
pub use laws::{cut_laws, cycle_laws, log_laws, row_laws, run_laws, tree_laws, types_cross};
pub use program::Program;
pub use tree::{
    Tree, Trees, copy, digest, digest_of_dynamic, digest_of_one, digest_of_two, dynamic, height,
};
pub use whole::known_whole;
