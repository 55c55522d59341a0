ghost use Rattle.complete_rows.specs.AgreementLaws.{AgreesBehind};
ghost use Rattle.complete_rows.specs.Chains.{RunIsLinked};
ghost use Rattle.complete_rows.specs.DeepKeys.{RunKeepsDeepKeys};
ghost use Rattle.complete_rows.specs.BlockRows.{RowsAreCounted, RunHasMoments, RunShowsBlocks};

/// The law of agreement: behind each cycle of a run the tasks that are still to be done, the decoder
/// and the machine's state agree as they do before it.
pub fn agreement_laws()
    ensures behind { AgreesBehind }
{}

/// The laws of filled rows, for a run of a whole tree from the start: one row shows each cycle, each linked
/// to the next, and the last one is HALT's, so that there is one row more than there are events. The rows show the facts of
/// blocks, batches, groups and boundaries for each statement of the run.
pub fn filled_laws()
    ensures moments { RunHasMoments }
    ensures linked { RunIsLinked }
    ensures count { RowsAreCounted }
    ensures blocks { RunShowsBlocks }
{}

/// The law of keys, for such a run: before each cycle and behind the last one the keys of all cells below the
/// sixteenth, those that calls hide among them, are those of inputs or clocks of past cycles that pushed, and no two
/// are the same.
#[tactic(auto, using(crate::proofs::DeepKeyLemmas::run_keeps_keys))]
pub fn key_laws()
    ensures { RunKeepsDeepKeys }
{}
