//! Worked sources that are refused, each cause among them, with what `why_files` tells of them.
#![tactic(auto)]

#[cfg(test)]
mod tests;
