//! Numbers and elements in decimal, added behind a text: what printed lines and written files have in common (docs/FORMATS.md).
#![tactic(auto)]

mod decimals;
#[cfg(test)]
mod tests;

pub use decimals::{append_element, append_elements, append_number};
