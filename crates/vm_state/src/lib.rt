//! The machine's state: its stack, its memory and its tape; what a run is given; and the statement
//! that a run proves.
#![tactic(auto)]

mod aside;
mod inputs;
mod laws;
mod memory;
mod stack;
mod state;
mod statement;
mod tape;

pub use aside::Aside;
pub use inputs::Inputs;
pub use laws::types_cross;
pub use state::State;
pub use statement::Statement;
