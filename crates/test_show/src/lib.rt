//! Worked rows of the program that tells of traces: words and files, and the status and the lines that `serve_show` leaves.
#![tactic(auto)]

#[cfg(test)]
mod tests;
