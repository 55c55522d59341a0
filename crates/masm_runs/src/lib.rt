//! No run of an assembled program traps for the form of its tree. Laws; no code.
#![tactic(auto)]

ghost use Rattle.masm_runs.specs.Runs.{AssembledIsReady, AssembledRuns, ReadyRuns};

/// The laws of runs. A tree of which no block is opaque, of which each span has batches that have
/// readings, and which has at most 1,024 blocks on a path, never traps with OpaqueBlock, BadBatch or
/// NestedTooDeep, from any state in which no block is open, whatever the limit of cycles, the
/// permutation's constants and the kernel's list are. An assembled tree is such a tree, with every
/// library whose instructions are in form and name no local.
pub fn assembled_runs()
    ensures trees { ReadyRuns }
    ensures ready { AssembledIsReady }
    ensures runs { AssembledRuns }
{}
