ghost use Rattle.tree_merge.specs.EvidenceLaws.{OpaqueIsNoRun, RefinedIsRun, RunTookTape};
ghost use Rattle.tree_merge.specs.Pairs.{DiffersApart, DiffersIsPair, DiffersTurned};

/// The laws of pairs: two hashes of different inputs and one digest are at two addresses, and are a
/// pair with the lower address first.
pub fn pair_laws()
    ensures turned { DiffersTurned }
    ensures apart { DiffersApart }
    ensures pair { DiffersIsPair }
{}

/// The laws of evidence that is a run: what refines its tree is the tree of the same run, its tape is
/// what its cycles took, and its tree is not one of which only the digest is known.
pub fn run_laws()
    ensures refined { RefinedIsRun }
    ensures tape { RunTookTape }
    ensures known { OpaqueIsNoRun }
{}
