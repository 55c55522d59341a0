use vm_field::{Felt, Word};
use vm_ops::Op;

/// The state before a cycle, as far as the cycle's row shows it.
#[derive(Clone, Copy, Drop)]
pub struct Visible {
    pub clock: u32,
    pub context: u32,
    pub fmp: Felt,
    pub in_syscall: bool,
    pub digest: Word,
    pub nesting: u32,
    pub depth: usize,
    pub cells: [Felt; 16],
}

/// One cycle of a run. What the cycle does not use is 0.
#[derive(Clone, Copy, Drop)]
pub struct Event {
    /// The cycle's operation.
    pub op: Op,
    /// The state before it.
    pub before: Visible,
    /// What PUSH pushes.
    pub imm: Option<Felt>,
    /// The elements that the cycle takes of the tape, in order.
    pub tape: [Felt; 4],
    /// The word of memory that the cycle reads or writes, as it stands behind the cycle.
    pub word: [Felt; 4],
    /// At the start of a span and at RESPAN the batch; at the start of another block and at REPEAT
    /// the digests of its children; at END the block's digest, and then whether it is a loop that
    /// was entered, a span, a call or a syscall.
    pub hash: [Felt; 8],
    /// The cell on top behind the cycle.
    pub result: Felt,
}
