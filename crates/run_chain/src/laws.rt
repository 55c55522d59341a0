ghost use Rattle.run_chain.specs.Chains.{ChainIsRun};
ghost use Rattle.run_chain.specs.ListText.{ReadsItsText};

use crate::links::Links;
use crate::refusal::LinkError;
use std::marker::{Send, Sync};

/// The law of chains: a chain of runs is one run through all of its trees, each begun with the stack
/// that the one before it left.
pub fn chain_laws()
    ensures run { ChainIsRun }
{}

/// The law of lists: a text is read as lines of names exactly where these are 1 to 64 lines of so many
/// names, none of which clash, and the text is theirs. So each list has one text, which is read back.
pub fn list_laws()
    ensures text { ReadsItsText }
{}

fn crosses<T: Send + Sync>() {}

/// Links and why there are none may be sent to other threads and read by several.
pub fn types_cross() {
    crosses::<Links<'static>>();
    crosses::<LinkError>();
}
