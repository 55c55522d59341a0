//! Files of numbers: lines of one element each, and the digest of what they write.
#![tactic(auto)]

mod hashing;
mod numbers;

pub use hashing::digest_of_elements;
pub use numbers::{NumbersCause, NumbersError, NumbersStop, cause_text, read_numbers};
