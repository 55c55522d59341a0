//! Uses of procedures in a source (docs/ASSEMBLY.md): which of them are refused, and an order in
//! which each procedure stands behind those that it uses, or that a dynexec of it may run.
#![tactic(auto)]

mod dangling;
mod dispatch;
mod missing;
mod ordering;
mod planning;
mod procedures;
mod recursion;

pub use dangling::first_dangling;
pub use planning::Step;
pub use procedures::{Plan, use_plan};
