//! How far programs run within limits.

use crate::tests::parts::{Part, part, parts};
use vm_ops::{Cause, Op};

/// A program, what it runs on, its limit, and how far it comes.
#[derive(Clone, Copy)]
pub struct Advance {
    pub parts: &'static [Part],
    pub stack: &'static [u64],
    pub advice: &'static [u64],
    pub limit: u16,
    pub reached: Reached,
}

#[derive(Clone, Copy)]
pub enum Reached {
    /// The end.
    Done(Stand),
    /// The limit.
    Cut(Stand),
    /// The clock of the cycle that traps.
    Trap(u32, Cause),
}

/// The cycles before, how many blocks are open, the stack's first cells with zeros behind them, its
/// depth, and what is left of the tape.
#[derive(Clone, Copy)]
pub struct Stand {
    pub cycles: usize,
    pub open: u32,
    pub cells: &'static [u64],
    pub depth: usize,
    pub left: usize,
}

// A row is a line: the parts, the stack, the tape, the limit, and how far the run comes.
macro_rules! advances {
    ($({$($parts:tt)*} [$($cell:literal)*] [$($element:literal)*] within $limit:literal => $reached:ident $of:tt;)*) => {
        [$(Advance {
            parts: &parts!($($parts)*),
            stack: &[$($cell),*],
            advice: &[$($element),*],
            limit: $limit,
            reached: reached!($reached $of),
        }),*]
    };
}

macro_rules! reached {
    (done $stand:tt) => {
        Reached::Done(stand!($stand))
    };
    (cut $stand:tt) => {
        Reached::Cut(stand!($stand))
    };
    (traps ($clock:literal $cause:ident)) => {
        Reached::Trap($clock, Cause::$cause)
    };
}

macro_rules! stand {
    (($cycles:literal open $open:literal [$($cell:literal)*] depth $depth:literal left $left:literal)) => {
        Stand {
            cycles: $cycles,
            open: $open,
            cells: &[$($cell),*],
            depth: $depth,
            left: $left,
        }
    };
}

// JOIN, SPAN, ADVPOP, INCR, END, SPAN, PAD, END, END
pub static EACH_LIMIT: [Advance; 11] = advances! {
    { span(AdvPop Incr) span(Pad) join() } [3] [6 7] within 0 => cut(0 open 0 [3] depth 16 left 2);
    { span(AdvPop Incr) span(Pad) join() } [3] [6 7] within 1 => cut(1 open 1 [3] depth 16 left 2);
    { span(AdvPop Incr) span(Pad) join() } [3] [6 7] within 2 => cut(2 open 2 [3] depth 16 left 2);
    { span(AdvPop Incr) span(Pad) join() } [3] [6 7] within 3 => cut(3 open 2 [6 3] depth 17 left 1);
    { span(AdvPop Incr) span(Pad) join() } [3] [6 7] within 4 => cut(4 open 2 [7 3] depth 17 left 1);
    { span(AdvPop Incr) span(Pad) join() } [3] [6 7] within 5 => cut(5 open 1 [7 3] depth 17 left 1);
    { span(AdvPop Incr) span(Pad) join() } [3] [6 7] within 6 => cut(6 open 2 [7 3] depth 17 left 1);
    { span(AdvPop Incr) span(Pad) join() } [3] [6 7] within 7 => cut(7 open 2 [0 7 3] depth 18 left 1);
    { span(AdvPop Incr) span(Pad) join() } [3] [6 7] within 8 => cut(8 open 1 [0 7 3] depth 18 left 1);
    { span(AdvPop Incr) span(Pad) join() } [3] [6 7] within 9 => done(9 open 0 [0 7 3] depth 18 left 1);
    { span(AdvPop Incr) span(Pad) join() } [3] [6 7] within 500 => done(9 open 0 [0 7 3] depth 18 left 1);
};

// A turn of the loop takes SPAN, DUP0, END and REPEAT, and LOOP comes before the first.
pub static TURNS_CUT: [Advance; 3] = advances! {
    { span(Dup0) repeat() } [1 1] [] within 1 => cut(1 open 1 [1] depth 16 left 0);
    { span(Dup0) repeat() } [1 1] [] within 497 => cut(497 open 1 [1] depth 16 left 0);
    { span(Dup0) repeat() } [1 1] [] within 500 => cut(500 open 1 [1 1] depth 17 left 0);
};

pub static BEFORE_TRAPS: [Advance; 6] = advances! {
    { span(AdvPop AdvPop) } [] [6] within 2 => cut(2 open 1 [6] depth 17 left 0);
    { span(AdvPop AdvPop) } [] [6] within 3 => traps(2 AdviceEmpty);
    { span(AdvPop AdvPop) } [] [6] within 500 => traps(2 AdviceEmpty);
    { opaque() } [] [] within 0 => cut(0 open 0 [] depth 16 left 0);
    { opaque() } [] [] within 1 => traps(0 OpaqueBlock);
    { span(Push; 1) call() } [5] [] within 5 => cut(5 open 1 [1 5] depth 17 left 0);
};
