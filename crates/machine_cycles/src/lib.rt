//! One cycle of a run as code, with the event that shows it: what each cycle does to the state, and what a run stops with.
#![tactic(auto)]

mod cycling;
mod effects;
mod event;
mod log;
mod mark;
mod names;
mod refusal;
mod setting;

pub use cycling::{Runner, cycle, enter, operation};
pub use effects::{called_word, top_of};
pub use event::{Event, Visible};
pub use log::Events;
pub use mark::{Frame, Mark};
pub use refusal::Stop;
pub use setting::Setting;
