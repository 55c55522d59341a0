//! The command `make`: a workload's source and inputs, written once their run has ended and its trace has been checked.
#![tactic(auto)]

mod checked;
mod made;
mod making;
mod names;
mod saving;

pub use making::make_files;
pub use names::MadeNames;
