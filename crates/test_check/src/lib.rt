//! Tests of checking: traces made by hand, with what is answered of them.
#![tactic(auto)]

#[cfg(test)]
mod cases;
#[cfg(test)]
mod first_faults;
#[cfg(test)]
mod gates;
#[cfg(test)]
mod in_pieces;
#[cfg(test)]
mod making;
#[cfg(test)]
mod programs;
#[cfg(test)]
mod refused_rows;
#[cfg(test)]
mod runs;
#[cfg(test)]
mod tests;
