//! The commands `check`, `member` and `chain`: a trace is tested against a statement, and held against a source, or against the program
//! that walks a Merkle path; its evidence is written, or its refusal told. A chain is tested link by link.
#![tactic(auto)]

mod chaining;
mod checking;
mod judging;
mod membership;
mod sourcing;

pub use chaining::{ChainNames, chain_files};
pub use checker::Seed;
pub use checking::{CheckNames, check_files};
pub use membership::check_member_files;
pub use sourcing::check_source_files;
