//! What the rows of the main table give and ask of blocks, of their children, turns and groups, and of the cells below the sixteenth.
#![tactic(auto)]

mod blocks;
mod children;
mod groups;
mod loops;
mod overflow;

pub use blocks::tuples_blocks;
pub use children::tuples_children;
pub use groups::{positions, tuples_groups};
pub use loops::tuples_loops;
pub use overflow::tuples_overflow;
