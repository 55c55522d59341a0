//! What the words ask to be told of a trace or of evidence, told over a shelf of files and printed to a sink. No file is written.
#![tactic(auto)]

mod counting;
mod explaining;
mod forms;
mod names;
mod refused_rows;
mod serving;
mod showing;
mod telling;
mod words;

pub use checker::Seed;
pub use cmd_kit::Status;
pub use serving::serve_show;
