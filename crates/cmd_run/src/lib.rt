//! The commands `run` and `runs`: a source's program and its run to the end, or the answer why there is none, and the two files of the
//! run; and runs that go on from one another, link by link.
#![tactic(auto)]

mod course;
mod halt_lines;
mod link_files;
mod link_lines;
mod linking;
mod outputs;
mod ran;
mod run_lines;
mod running;

pub use course::{Course, course_of};
pub use linking::run_linked_files;
pub use outputs::Outputs;
pub use run_lines::run_text;
pub use running::{RunOptions, run_source_files};
