//! The system's folder as a shelf, and its standard output as a sink; files and streams read and
//! written whole.
#![tactic(auto)]

mod folder_shelf;
mod std_sink;
mod whole;

pub use folder_shelf::FolderShelf;
pub use std_sink::StdSink;
pub use whole::{read_all, read_whole, write_all, write_whole};
