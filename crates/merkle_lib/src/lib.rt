//! Merkle paths: the program that walks one from a leaf to a root, its inputs, and the law that its run means that the path leads there.
#![tactic(auto)]

mod laws;
mod paths;
mod programs;

pub use laws::{types_cross, walk_laws};
pub use paths::{Path, Step, path_of, root_of};
pub use programs::{inputs, program};
