//! Tests of Merkle paths: walks that end and walks that trap, roots, and the text of the program.
#![tactic(auto)]

#[cfg(test)]
mod tests;
