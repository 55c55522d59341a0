//! Tests of the batches that operations are packed into, and of their reading.
#![tactic(auto)]

#[cfg(test)]
mod packing;
