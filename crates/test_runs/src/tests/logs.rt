//! What the cycles of runs show.

use crate::tests::parts::{Part, part, parts};
use vm_ops::Op;

/// A run, and what its cycles show.
#[derive(Clone, Copy)]
pub struct Log {
    /// Trees, of which the first is run.
    pub trees: &'static [&'static [Part]],
    /// The trees whose digests make the kernel.
    pub kernel: &'static [&'static [Part]],
    pub stack: &'static [u64],
    pub advice: &'static [u64],
    pub lines: &'static [Line],
}

/// What is asked of a log's run.
#[derive(Clone, Copy)]
pub enum Shown {
    /// The log's lines.
    Lines,
    /// The digest of the tree that is run.
    Digest,
    /// What is visible before each cycle of `STORED`.
    Before,
    /// The word that `STORED` stores.
    Word,
}

/// A cycle's operation, what it shows of hashes, and the cell on top behind it.
#[derive(Clone, Copy)]
pub struct Line(pub Op, pub Hash, pub u64);

/// What a cycle shows of hashes; the numbers are those of trees.
#[derive(Clone, Copy)]
pub enum Hash {
    Nothing,
    Batch(&'static [Op], &'static [u64]),
    Both(usize, usize),
    One(usize),
    /// A digest, and a 1 at this place behind it.
    Flagged(usize, usize),
}

/// What is visible before a cycle, the cells with zeros behind them, and what the cycle takes.
#[derive(Clone, Copy)]
pub struct Before {
    pub context: u32,
    pub nesting: u32,
    pub depth: usize,
    pub cells: &'static [u64],
    pub imm: Option<u64>,
    pub tape: [u64; 4],
    pub word: [u64; 4],
}

// A line of `BEFORE`: the context, the nesting, the depth and the cells.
macro_rules! before {
    ($context:literal $nesting:literal $depth:literal [$($cell:literal)*] $imm:expr, $tape:expr, $word:expr) => {
        Before {
            context: $context,
            nesting: $nesting,
            depth: $depth,
            cells: &[$($cell),*],
            imm: $imm,
            tape: $tape,
            word: $word,
        }
    };
}

pub static JOINED: Log = Log {
    trees: &[
        &parts! { span(Incr) batch(Neg Neg) span(Incr) join() },
        &parts! { span(Incr) batch(Neg Neg) },
        &parts! { span(Incr) },
    ],
    kernel: &[],
    stack: &[],
    advice: &[],
    lines: &[
        Line(Op::Join, Hash::Both(1, 2), 0),
        Line(Op::Span, Hash::Batch(&[Op::Incr], &[]), 0),
        Line(Op::Incr, Hash::Nothing, 1),
        Line(Op::Respan, Hash::Batch(&[Op::Neg, Op::Neg], &[]), 1),
        Line(Op::Neg, Hash::Nothing, 18446744069414584320),
        Line(Op::Neg, Hash::Nothing, 1),
        Line(Op::End, Hash::Flagged(1, 1), 1),
        Line(Op::Span, Hash::Batch(&[Op::Incr], &[]), 1),
        Line(Op::Incr, Hash::Nothing, 2),
        Line(Op::End, Hash::Flagged(2, 1), 2),
        Line(Op::End, Hash::One(0), 2),
    ],
};

pub static TURNS: Log = Log {
    trees: &[
        &parts! { span(Noop) span(Incr) split() repeat() },
        &parts! { span(Noop) span(Incr) split() },
        &parts! { span(Noop) },
        &parts! { span(Incr) },
    ],
    kernel: &[],
    stack: &[1, 1, 1, 0, 18446744069414584320, 7],
    advice: &[],
    lines: &[
        Line(Op::Loop, Hash::One(1), 1),
        Line(Op::Split, Hash::Both(2, 3), 1),
        Line(Op::Span, Hash::Batch(&[Op::Noop], &[]), 1),
        Line(Op::Noop, Hash::Nothing, 1),
        Line(Op::End, Hash::Flagged(2, 1), 1),
        Line(Op::End, Hash::One(1), 1),
        Line(Op::Repeat, Hash::One(1), 0),
        Line(Op::Split, Hash::Both(2, 3), 18446744069414584320),
        Line(
            Op::Span,
            Hash::Batch(&[Op::Incr], &[]),
            18446744069414584320,
        ),
        Line(Op::Incr, Hash::Nothing, 0),
        Line(Op::End, Hash::Flagged(3, 1), 0),
        Line(Op::End, Hash::One(1), 0),
        Line(Op::End, Hash::Flagged(0, 0), 7),
    ],
};

pub static NO_TURN: Log = Log {
    trees: &[
        &parts! { span(Noop) span(Incr) split() repeat() },
        &parts! { span(Noop) span(Incr) split() },
    ],
    kernel: &[],
    stack: &[0, 7],
    advice: &[],
    lines: &[
        Line(Op::Loop, Hash::One(1), 7),
        Line(Op::End, Hash::One(0), 7),
    ],
};

pub static SERVED: Log = Log {
    trees: &[&parts! { span(Incr) syscall() }, &parts! { span(Incr) }],
    kernel: &[&parts! { span(Incr) }],
    stack: &[],
    advice: &[],
    lines: &[
        Line(Op::Syscall, Hash::One(1), 0),
        Line(Op::Span, Hash::Batch(&[Op::Incr], &[]), 0),
        Line(Op::Incr, Hash::Nothing, 1),
        Line(Op::End, Hash::Flagged(1, 1), 1),
        Line(Op::End, Hash::Flagged(0, 3), 1),
    ],
};

/// A call that takes a word of the tape and stores it at 40.
pub static STORED: Log = Log {
    trees: &[
        &parts! { span(AdvPopW Push MStoreW; 40) call() },
        &parts! { span(AdvPopW Push MStoreW; 40) },
    ],
    kernel: &[],
    stack: &[],
    advice: &[11, 12, 13, 14, 15],
    lines: &[
        Line(Op::Call, Hash::One(1), 0),
        Line(
            Op::Span,
            Hash::Batch(&[Op::AdvPopW, Op::Push, Op::MStoreW], &[40]),
            0,
        ),
        Line(Op::AdvPopW, Hash::Nothing, 14),
        Line(Op::Push, Hash::Nothing, 40),
        Line(Op::MStoreW, Hash::Nothing, 14),
        Line(Op::End, Hash::Flagged(1, 1), 14),
        Line(Op::End, Hash::Flagged(0, 2), 14),
    ],
};

const ZEROS: [u64; 4] = [0, 0, 0, 0];

const WORD: [u64; 4] = [11, 12, 13, 14];

/// What is visible before each cycle of `STORED`.
pub static BEFORE: [Before; 7] = [
    before!(0 0 16 [] None, ZEROS, ZEROS),
    before!(1 1 16 [] None, ZEROS, ZEROS),
    before!(1 2 16 [] None, WORD, ZEROS),
    before!(1 2 16 [14 13 12 11] Some(40), ZEROS, ZEROS),
    before!(1 2 17 [40 14 13 12 11] None, ZEROS, WORD),
    before!(1 2 16 [14 13 12 11] None, ZEROS, ZEROS),
    before!(1 1 16 [14 13 12 11] None, ZEROS, ZEROS),
];
