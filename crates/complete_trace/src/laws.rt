ghost use Rattle.complete_trace.specs.Acceptance.{RunIsAccepted};
ghost use Rattle.complete_trace.specs.StackRows.{MomentFills, RangesAreLow, RowsLookUp, RunHasZeros, RunShowsRows};

/// The laws of the stack of filled rows: the rows of a run show all facts of rows for each statement of
/// the run, and so their entries are 0 where this statement is in the range of elements.
pub fn stack_laws()
    ensures shows { RunShowsRows }
    ensures zeros { RunHasZeros }
{}

/// The laws of what filled rows look up. The row of an ordinary operation and the row behind it are filled
/// by its step, so that what it asks the buses is so. Each row's limbs have 16 bits, the operands of
/// bitwise operations have 32, and no more blocks are open than may nest. All numbers that a run asks the
/// table of ranges for have 16 bits.
pub fn lookup_laws()
    ensures fills { MomentFills }
    ensures rows { RowsLookUp }
    ensures ranges { RangesAreLow }
{}

/// The law of acceptance: a trace of a run's filled rows and of small tables that answer what these rows ask is accepted for the
/// statement of the run.
pub fn acceptance_laws()
    ensures accepted { RunIsAccepted }
{}
