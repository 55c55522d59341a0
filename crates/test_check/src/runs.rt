use crate::making::Run;
use crate::programs::{EMPTY, PUSH, PUSHES, PUSHES_HASH};

/// The runs whose traces are checked.
#[derive(Clone, Copy)]
pub enum Named {
    /// The empty program.
    Empty,
    /// The same beside a kernel that it does not call.
    EmptyWithKernel,
    /// The same, said to end with 1 on top.
    EndsWithOne,
    /// The same from 1 on top.
    KeepsOne,
    /// The same under another digest.
    OtherDigest,
    /// The same with a permutation more.
    TwoHashes,
    /// The same with a bitwise operation more.
    BitwiseMore,
    /// The same with an access of memory more.
    AccessMore,
    /// The same with a bitwise operation and two accesses of memory more, and with no value that is asked.
    NothingAsked,
    /// push.2 push.3 add push.7.
    Pushes,
    /// The same with another key of the second cell that is left.
    OtherKey,
    /// push.5; what is hashed does not matter where a row of the main table is refused.
    Push,
}

static ZEROS: [u64; 16] = [0; 16];

static ONE: [u64; 16] = [1, 0, 0, 0, 0, 0, 0, 0, 0, 0, 0, 0, 0, 0, 0, 0];

static PUSHED: [u64; 18] = [7, 5, 0, 0, 0, 0, 0, 0, 0, 0, 0, 0, 0, 0, 0, 0, 0, 0];

static FIVE: [u64; 17] = [5, 0, 0, 0, 0, 0, 0, 0, 0, 0, 0, 0, 0, 0, 0, 0, 0];

impl Named {
    /// The run.
    pub fn run(self) -> Run {
        match self {
            Named::Empty => empty(0, &[], &ZEROS, 8),
            Named::EmptyWithKernel => empty(0, &[], &ZEROS, 8),
            Named::EndsWithOne => empty(0, &[], &ONE, 8),
            Named::KeepsOne => empty(0, &[1], &ONE, 8),
            Named::OtherDigest => empty(1, &[], &ZEROS, 8),
            Named::TwoHashes => empty(0, &[], &ZEROS, 16),
            Named::BitwiseMore => empty_beside(8, 0),
            Named::AccessMore => empty_beside(0, 1),
            Named::NothingAsked => nothing_asked(),
            Named::Pushes => pushes(&[4, 1]),
            Named::OtherKey => pushes(&[4, 2]),
            Named::Push => push(),
        }
    }

    /// Whether its statement has a kernel.
    pub fn has_kernel(self) -> bool {
        matches!(self, Named::EmptyWithKernel)
    }
}

fn empty(digest: u64, inputs: &'static [u64], outputs: &'static [u64], hasher_rows: usize) -> Run {
    Run {
        main: &EMPTY,
        rows: 4,
        asked: Some(1023),
        range_rows: 42,
        hasher: &[],
        hasher_rows,
        bitwise_rows: 0,
        memory_rows: 0,
        left: &[],
        digest: [digest, 0, 0, 0],
        inputs,
        outputs,
    }
}

fn empty_beside(bitwise_rows: usize, memory_rows: usize) -> Run {
    let mut run = empty(0, &[], &ZEROS, 8);
    run.bitwise_rows = bitwise_rows;
    run.memory_rows = memory_rows;
    run
}

fn nothing_asked() -> Run {
    let mut run = empty_beside(8, 2);
    run.asked = None;
    run.range_rows = 38;
    run
}

fn pushes(left: &'static [u64]) -> Run {
    Run {
        main: &PUSHES,
        rows: 8,
        asked: Some(1023),
        range_rows: 42,
        hasher: &PUSHES_HASH,
        hasher_rows: 8,
        bitwise_rows: 0,
        memory_rows: 0,
        left,
        digest: [
            17247360382068781047,
            10350894507161338276,
            2305260657962329228,
            124779223689617105,
        ],
        inputs: &[],
        outputs: &PUSHED,
    }
}

fn push() -> Run {
    Run {
        main: &PUSH,
        rows: 5,
        asked: Some(1023),
        range_rows: 42,
        hasher: &[],
        hasher_rows: 8,
        bitwise_rows: 0,
        memory_rows: 0,
        left: &[1],
        digest: [0, 0, 0, 0],
        inputs: &[],
        outputs: &FIVE,
    }
}
