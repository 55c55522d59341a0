ghost use Rattle.complete_requests.specs.Asked.{RunAsks};
ghost use Rattle.complete_requests.specs.Fitting.{RunFits};
ghost use Rattle.complete_requests.specs.Overflow.{RunKeepsOverflow};
ghost use Rattle.complete_requests.specs.Taken.{RunTakes};

/// The law of requests: on the bus of each small table the rows of a run ask what the requests of the
/// run are, and as often.
pub fn asks_laws()
    ensures asks { RunAsks }
{}

/// The law of the tape: what the rows of a run take is what the run takes, so that it and what is left
/// are the tape.
pub fn tape_laws()
    ensures takes { RunTakes }
{}

/// The law of answers: under a kernel of at most 255 words the requests of a run can be answered, with
/// fewer rows of permutations, bitwise operations and accesses than the run has rows.
pub fn fit_laws()
    ensures fits { RunFits }
{}

/// The law of overflow: the inputs below the sixteenth and the cells that the rows of a run push there
/// are those that its rows take from there, and those that the table of cells left asks at the end.
pub fn overflow_laws()
    ensures overflow { RunKeepsOverflow }
{}
