//! Worked rows of the program's commands: words and files, and the status, the line and the files
//! that `serve` leaves; and files of runs that are forged.
#![tactic(auto)]

#[cfg(test)]
mod forged;
#[cfg(test)]
mod tests;
