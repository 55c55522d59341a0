//! Arithmetic modulo the prime 2^64 - 2^32 + 1, words of four elements, and the small list types
//! of the crates above. The definitions that several crates cite stand in `specs/`, and so do the
//! machine's limits, each once there and once in the code.
#![tactic(auto)]

mod element;
mod laws;
mod limits;
mod lists;
mod operators;
mod powers;
mod refusal;
mod sequence;
mod word;

pub use element::Felt;
pub use laws::{field_laws, machine_laws, text_laws, types_cross};
pub use limits::{
    LEAST_DEPTH, MOST_CYCLES, MOST_INPUTS, MOST_KERNEL, MOST_NAME_BYTES, MOST_NESTING,
    MOST_OPERATIONS,
};
pub use lists::{Bytes, Felts, Words, felt_at, known_elements, known_words};
pub use powers::roots7;
pub use refusal::{Memory, NotCanonical};
pub use sequence::Sequence;
pub use word::Word;
