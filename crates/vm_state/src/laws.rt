use crate::inputs::Inputs;
use crate::state::State;
use crate::statement::Statement;
use std::marker::{Send, Sync};

// Takes a type only where its values may be lent to and sent between threads.
fn crosses<T: Send + Sync>() {}

/// Values of these types may be lent to and sent between threads.
pub fn types_cross() {
    crosses::<Inputs>();
    crosses::<Statement>();
    crosses::<State>();
}
