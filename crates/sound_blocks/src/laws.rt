ghost use Rattle.sound_blocks.specs.Chains.{GrantedChains};
ghost use Rattle.sound_blocks.specs.Frames.{GrantedFrames};
ghost use Rattle.sound_blocks.specs.Keys.{GrantedKeys};
ghost use Rattle.sound_blocks.specs.Lists.{GrantedOverflow};
ghost use Rattle.sound_blocks.specs.Nesting.{GrantedNesting};
ghost use Rattle.sound_blocks.specs.Spans.{GrantedSpans};

/// The law of frames: the address in a row is that of the newest block that is open, each END is that of this block, at most 1,024
/// are open, and contexts and the bit of syscalls are numbers that a run can have.
pub fn frame_laws()
    ensures frames { GrantedFrames }
{}

/// The law of nesting: what comes behind a block's start and behind the END of each of its children, and which digest each child has.
pub fn nesting_laws()
    ensures nesting { GrantedNesting }
{}

/// The law of spans: the rows between the start of a span and its END are the operations that its batches read as, and the batches
/// are what is hashed at the span's address. Each other block is hashed in one permutation at its address.
pub fn span_laws()
    ensures spans { GrantedSpans }
{}

/// The law of the cells below the sixteenth: those that the rows before a row have left there are as many as the row's depth says. A
/// left shift brings the first of them into the sixteenth cell, the END of a call brings back those that the call set aside, and the
/// last row has the outputs that stand behind the sixteen which it shows. They are a chain of keys, the clocks of the rows that pushed
/// them and those of inputs; the table of cells left has the keys of those that are there at the end. No two cells that there are at
/// once have one key, also among those that calls have set aside.
pub fn overflow_laws()
    ensures overflow { GrantedOverflow }
    ensures chains { GrantedChains }
    ensures keys { GrantedKeys }
{}
