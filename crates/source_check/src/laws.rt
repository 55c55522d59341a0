ghost use Rattle.source_check.specs.SourceLaws.{RanIsSource};

/// The law of sources that ran: what refines a tree of which each block is known and none is dynamic
/// is this tree.
pub fn source_laws()
    ensures same { RanIsSource }
{}
