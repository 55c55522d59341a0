//! The uses of procedures in a source as a graph: where each use leads, who uses whom, to which
//! procedures none of their uses leads back, and which of them a dynexec may run.
#![tactic(auto)]

mod components;
mod dynexecs;
mod links;
mod own;
mod procrefs;
mod settling;
mod users;

pub use dynexecs::{all_dynexecs, is_dynamic};
pub use links::{Link, Target, all_links, main_links};
pub use own::{graph_with, own_graph, own_places, places_with};
pub use procrefs::{places_referred, targets};
pub use settling::settled;
pub use users::users_of;
