//! What the evidence of a trace says, and trees whose blocks name their hashes in the trace: two of
//! one digest are merged.
#![tactic(auto)]

mod addr_tree;
mod blocks;
mod evidence;
mod hashes;
mod laws;
mod merging;
mod plain;
mod targets;

pub use addr_tree::{AddrTree, AddrTrees, MergeStop, Target, dynamic};
pub use evidence::{AddrEvidence, into_evidence};
pub use hashes::Hashes;
pub use laws::{pair_laws, run_laws};
pub use merging::{merge, merge_in};
pub use plain::into_tree;
