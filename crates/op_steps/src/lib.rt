//! The machine's step as code: what each ordinary operation does to a state, or why it traps.
#![tactic(auto)]

mod bits;
mod cells;
mod left;
mod moves;
mod on_stack;
mod place;
mod refusal;
mod single;
mod stepping;
mod storing;
mod words;

pub use refusal::StepStop;
pub use stepping::{is_quiet, step, step_hperm, step_quiet};
