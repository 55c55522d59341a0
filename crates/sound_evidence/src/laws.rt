ghost use Rattle.sound_evidence.specs.Walking.{CountsAreReadable};

/// The law of readable traces: a tree can be read from a trace whose tables have as many rows as they may, and whose rows have the facts
/// that a tree rests on.
pub fn readable_laws()
    ensures readable { CountsAreReadable }
{}
