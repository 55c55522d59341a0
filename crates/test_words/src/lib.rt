//! Tests of the words of a command line, of the lines of refusals, and of the tokens of a source.
#![tactic(auto)]

#[cfg(test)]
mod lines;
#[cfg(test)]
mod tokens;
#[cfg(test)]
mod words;
