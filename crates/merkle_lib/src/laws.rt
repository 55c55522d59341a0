ghost use Rattle.merkle_lib.specs.Walks.{RunIsPath};

use crate::paths::{Path, Step};
use std::marker::{Send, Sync};

/// The law of walks. Wherever the program of a depth is done from some inputs, with any kernel and any
/// limit of cycles, and has used up its tape, the tape is that of a path of so many steps. It leads
/// from the leaf, which is the first four cells of the stack at the start, to the root, which is the
/// next four.
pub fn walk_laws()
    ensures path { RunIsPath }
{}

fn crosses<T: Send + Sync>() {}

/// Steps and paths may be sent to other threads and read by several.
pub fn types_cross() {
    crosses::<Step>();
    crosses::<Path>();
}
