//! Why a source is refused, in words (docs/SHOW.md, "why"): the line of the place with a mark under it, and a sentence with the facts
//! by the cause.
#![tactic(auto)]

mod alone;
mod defined;
mod facts;
mod laws;
mod lines;
mod neighbours;
mod scene;
mod sentences;
mod sight;
mod syntax;
mod unnamed;
mod whying;

pub use laws::refusals_know_no_constants;
pub use whying::{WhyNames, why_files};
