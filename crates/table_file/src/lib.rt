//! Table files: the bytes of a trace (docs/FORMATS.md), read and written.
#![tactic(auto)]

mod cause;
mod counts;
mod head;
mod laws;
mod part_trace;
mod reader;
mod rows;
mod writing;

pub use cause::{FileCause, FileError, cause_text};
pub use laws::{file_laws, types_cross};
pub use reader::{TableReader, decode};
pub use writing::{TablePieces, encode};
