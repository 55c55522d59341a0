//! Chains of runs: lists of links, read by their grammar, and statements that follow one another.
#![tactic(auto)]

mod following;
mod laws;
mod links;
mod naming;
mod reading;
mod refusal;

pub use following::{follows, is_first_stack};
pub use laws::{chain_laws, list_laws, types_cross};
pub use links::Links;
pub use naming::Role;
pub use reading::{MOST_LINKS, read_links};
pub use refusal::{LinkCause, LinkError, cause_text};
