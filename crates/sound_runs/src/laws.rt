ghost use Rattle.sound_runs.specs.Cycles.{GrantedCycles};
ghost use Rattle.sound_runs.specs.Ends.{GrantedEnds};
ghost use Rattle.sound_runs.specs.Running.{TreeRuns};
ghost use Rattle.sound_runs.specs.TreeFacts.{GrantedTrees, TreeDigest, TreeGood};

/// The law of facts: granted rows have what a tree along them rests on, where their spans have theirs.
pub fn fact_laws()
    ensures facts { GrantedTrees }
{}

/// The law of trees along the rows: the tree of a block has the digest that the block's END shows, and at each of its addresses the
/// hasher's table has the hash of the block there.
pub fn tree_laws()
    ensures digest { TreeDigest }
    ensures good { TreeGood }
{}

/// The law of runs along the rows: where each row shows a cycle of the machine, the tree of a block, and each tree that refines it, is
/// done from the state of the block's start to that of the row behind its END.
pub fn run_laws()
    ensures runs { TreeRuns }
{}

/// The law of cycles: the state of each row is the one behind the cycle that the row before it shows.
pub fn cycle_laws()
    ensures cycles { GrantedCycles }
{}

/// The law of ends: the first row shows the state at the start of a run, and the last one a state that stands with the outputs.
pub fn end_laws()
    ensures ends { GrantedEnds }
{}
