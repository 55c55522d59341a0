//! The processor: it runs a program's tree as it is given, and keeps what each cycle shows.
#![tactic(auto)]

mod blocks;
mod ended;
mod execution;
mod progress;
mod run;

pub use execution::{advance, execute};
pub use progress::Progress;
pub use run::Run;
