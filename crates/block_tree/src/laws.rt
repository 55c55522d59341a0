ghost use Rattle.block_tree.specs.CutLaws.{CutAtLimit, CutBeforeEnd, CutBeforeLimit, CutBeforeTrap, CutBySmaller};
ghost use Rattle.block_tree.specs.CycleLaws.{DoneWhereAllowed, RunIsSteps, StepsAreRun};
ghost use Rattle.block_tree.specs.Laws.{DigestOfInput, DigestIsWord, FirstTargetRefined, RefinesItself, RefinesThrough, RefinedDigest, RefinedRun, SameAtLaterLimits, OutAtEarlierLimits, TakesPrefix, SameOnWhatItTook};
ghost use Rattle.block_tree.specs.LogLaws.{LogCounts, RunIsLogged, RunIsShallow, RunIsWhole, RunIsWithinContexts, RunNests};
ghost use Rattle.block_tree.specs.RowLaws.{AccessedIsWord, FourAreWord, HashIsBatch, ShownBehind, TakesAtMostFour};

use crate::evidence::Evidence;
use crate::exports::Exports;
use crate::program::Program;
use crate::tree::{Tree, Trees};

/// A tree's digest is that of its hash input, and that of a whole tree is a word. A tree refines
/// itself and what the trees that it refines refine, has the digest of each of them, and does what
/// they were done with. Of each digest that a dynamic block has a target of, what refines the block
/// has one too, and its first target refines the block's first.
pub fn tree_laws()
    ensures input { DigestOfInput }
    ensures word { DigestIsWord }
    ensures reflexive { RefinesItself }
    ensures transitive { RefinesThrough }
    ensures digest { RefinedDigest }
    ensures run { RefinedRun }
    ensures first { FirstTargetRefined }
{}

/// The laws of runs: the limit of cycles only cuts a run off, and a run depends on no more of the
/// tape than what it takes.
pub fn run_laws()
    ensures same { SameAtLaterLimits }
    ensures out { OutAtEarlierLimits }
    ensures prefix { TakesPrefix }
    ensures enough { SameOnWhatItTook }
{}

/// The laws of cut runs: a run that a limit cuts off has come to the limit, and its events are those
/// with which the same run begins within each greater limit, whether it ends there, traps or is cut
/// off.
pub fn cut_laws()
    ensures smaller { CutBySmaller }
    ensures limit { CutAtLimit }
    ensures trap { CutBeforeTrap }
    ensures end { CutBeforeEnd }
    ensures greater { CutBeforeLimit }
{}

/// The laws of cycles: where each is done and which state is behind it, and that a run of a whole
/// tree is one cycle after another, as the tasks that are still to be done say.
pub fn cycle_laws()
    ensures allowed { DoneWhereAllowed }
    ensures steps { RunIsSteps }
    ensures runs { StepsAreRun }
{}

/// The laws of logs, for whole trees: the events of a run are its cycles in order, as many as the
/// clock has moved. From a well-formed state each is whole, and the last state is well-formed. At
/// most 1,024 blocks nest, and as many at the end as at the start; the stack has at most as many
/// cells more as the clock has moved; and a context is one that the clock has reached.
pub fn log_laws()
    ensures logged { RunIsLogged }
    ensures counts { LogCounts }
    ensures whole { RunIsWhole }
    ensures nests { RunNests }
    ensures shallow { RunIsShallow }
    ensures contexts { RunIsWithinContexts }
{}

/// The laws of rows: what a cycle's row shows are words and eight elements of hashing, and what it
/// shows of the state behind it stands in the next row's state.
pub fn row_laws()
    ensures hash { HashIsBatch }
    ensures four { TakesAtMostFour }
    ensures tape { FourAreWord }
    ensures word { AccessedIsWord }
    ensures behind { ShownBehind }
{}

fn crosses<T: Send + Sync>() {}

/// Trees, programs and evidence may be sent to other threads and read by several.
pub fn types_cross() {
    crosses::<Tree>();
    crosses::<Trees>();
    crosses::<Program>();
    crosses::<Exports>();
    crosses::<Evidence>();
}
