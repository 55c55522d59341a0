//! The sizes of the lists that procedures are flattened to, and of their trees (docs/ASSEMBLY.md),
//! with no list and no tree built.
#![tactic(auto)]

mod heights;
mod known_sizes;
mod measuring;
mod shape;
mod size;

pub use known_sizes::{Sizes, dispatch_extent};
pub use measuring::size_of_procedure;
pub use shape::{Outline, Part, Rise, Size};
pub use size::extent_of;
