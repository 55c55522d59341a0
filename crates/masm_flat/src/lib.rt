//! What procedures are flattened to (docs/ASSEMBLY.md, "Blocks"): the lists of operations and blocks, the tree of such a list, and
//! what lies outside a source.
#![tactic(auto)]

mod appending;
mod dispatch;
mod dynexecs;
mod extent;
mod flattening;
mod joining;
mod known;
mod outside;
mod piece;
mod procedure;
mod table;

pub use appending::add_copies;
pub use dispatch::{copied_tree, dispatch_tree};
pub use dynexecs::has_dynexec;
pub use extent::Extent;
pub use joining::tree_of_list;
pub use known::Scope;
pub use outside::{KernelProc, Outside};
pub use piece::Piece;
pub use procedure::list_of_procedure;
pub use table::Table;
