//! The columns of the six small tables by name, and views that read their rows by them.
#![tactic(auto)]

mod bitwise;
mod hasher;
mod kernel;
mod left;
mod memory;
mod range;

pub use bitwise::BitwiseView;
pub use hasher::HasherView;
pub use kernel::KernelView;
pub use left::LeftView;
pub use memory::MemoryView;
pub use range::RangeView;
