//! The permutation of twelve elements under constants that the caller gives, the sponge over it,
//! and the text of the constants.
#![tactic(auto)]

mod frequencies;
mod laws;
mod lines;
mod params;
mod permutation;
mod sponge;

pub use laws::{parameter_laws, permutation_laws, sponge_laws, types_cross};
pub use lines::next_line;
pub use params::{ParamCause, ParamError, Params};
pub use permutation::{before_roots, known_constants, permute, round};
pub use sponge::{Sponge, digest_of};
