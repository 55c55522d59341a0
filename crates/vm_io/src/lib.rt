//! The outside as three traits: a shelf of files, a sink for what is printed, and a gate that each
//! piece of parallel work passes. `MemShelf` and `MemSink` hold their content in memory and can be
//! told to fail.
#![tactic(auto)]

mod calls;
mod gate;
mod gathering;
mod kept_name;
mod laws;
mod mem_shelf;
mod mem_sink;
mod pieces;
mod shelf;
mod sink;
mod taker;

pub use gate::{Gate, OpenGate, gate_crosses};
pub use gathering::gather;
pub use laws::{counts_never_fall, files_decide_reads, written_files_stand};
pub use mem_shelf::MemShelf;
pub use mem_sink::MemSink;
pub use pieces::{Piece, Pieces};
pub use shelf::{ReadStop, Shelf, WriteStop};
pub use sink::{Sink, SinkStop};
pub use taker::Taker;
