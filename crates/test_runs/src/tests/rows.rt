//! How programs end.

use crate::tests::logs::{Log, Shown};
use crate::tests::parts::{Part, part, parts};
use vm_ops::{Cause, Op};

/// A program, what it runs on, and how the run ends.
#[derive(Clone, Copy)]
pub struct Row {
    pub parts: &'static [Part],
    pub stack: &'static [u64],
    pub advice: &'static [u64],
    pub end: End,
}

/// How a run ends.
#[derive(Clone, Copy)]
pub enum End {
    Ends(Ends),
    /// The clock of the cycle that traps.
    Trap(u32, Cause),
    OutOfCycles,
    Shows(&'static Log, Shown),
}

/// The cycles, the stack's first cells with zeros behind them, its depth, and what is left of the
/// tape.
#[derive(Clone, Copy)]
pub struct Ends {
    pub cycles: usize,
    pub cells: &'static [u64],
    pub depth: usize,
    pub left: usize,
}

// A row is a line: the parts, the stack, the tape, and the end.
macro_rules! rows {
    ($({$($parts:tt)*} [$($cell:literal)*] [$($element:literal)*] => $end:ident $of:tt;)*) => {
        [$(Row {
            parts: &parts!($($parts)*),
            stack: &[$($cell),*],
            advice: &[$($element),*],
            end: end!($end $of),
        }),*]
    };
}

macro_rules! end {
    (ends ($cycles:literal [$($cell:literal)*] depth $depth:literal left $left:literal)) => {
        End::Ends(Ends {
            cycles: $cycles,
            cells: &[$($cell),*],
            depth: $depth,
            left: $left,
        })
    };
    (traps ($clock:literal $cause:ident)) => {
        End::Trap($clock, Cause::$cause)
    };
    (stops ()) => {
        End::OutOfCycles
    };
}

pub static BRANCHES: [Row; 6] = rows! {
    { span(Push Push Add Push; 2 3 7) } [] [] => ends(7 [7 5] depth 18 left 0);
    { span(Incr) batch(Incr Incr) } [] [] => ends(6 [3] depth 16 left 0);
    { span(AdvPop AdvPop) } [] [6 7 8] => ends(4 [7 6] depth 18 left 1);
    { span(Incr) span(Incr Incr) join() } [] [] => ends(9 [3] depth 16 left 0);
    { span(Incr) span(Incr Incr) split() } [1 5] [] => ends(5 [6] depth 16 left 0);
    { span(Incr) span(Incr Incr) split() } [0 5] [] => ends(6 [7] depth 16 left 0);
};

pub static LOOPS: [Row; 4] = rows! {
    { span(Noop) repeat() } [0 4] [] => ends(2 [4] depth 16 left 0);
    { span(Noop) repeat() } [1 0 4] [] => ends(5 [4] depth 16 left 0);
    { span(Noop) repeat() } [1 1 0 4] [] => ends(9 [4] depth 16 left 0);
    { span(Swap Swap) span(Neg Neg) split() repeat() } [1 1 1 0 0] [] => ends(15 [] depth 16 left 0);
};

// Without constants the permutation keeps zeros, so that a span of one NOOP has the digest of four zeros: it runs where it is the
// first target of that digest.
pub static DYNAMIC: [Row; 3] = rows! {
    { span(Noop) dynamic(; 1) } [0 0 0 0 7] [] => ends(5 [0 0 0 0 7] depth 16 left 0);
    { span(Incr) span(Noop) opaque() dynamic(; 3) } [] [] => ends(5 [] depth 16 left 0);
    { span(Noop) dynamic(; 1) span(Incr) join() } [] [] => ends(10 [1] depth 16 left 0);
};

// hidden cells that come back, and the frame pointer of a call
pub static CALLS: [Row; 2] = rows! {
    { span(Push; 9) span(Push Add; 1) call() join() } [1 2 3 4 5 6 7 8 9 10 11 12 13 14 15 16] []
        => ends(12 [10 1 2 3 4 5 6 7 8 9 10 11 12 13 14 15 16] depth 17 left 0);
    { span(Push FmpUpdate; 3) span(FmpAdd) call() join() } [5] [] => ends(11 [1073741829] depth 16 left 0);
};

/// The kernel of `SYSCALLS`.
pub static SERVES: [&[Part]; 2] = [&parts! { span(FmpAdd) }, &parts! { span(Noop) }];

// the frame pointer of a syscall, and the one behind it
pub static SYSCALLS: [Row; 2] = rows! {
    { span(FmpAdd) syscall() } [5] [] => ends(5 [2147483653] depth 16 left 0);
    { span(Noop) syscall() span(FmpAdd) join() } [5] [] => ends(10 [1073741829] depth 16 left 0);
};

pub static BLOCK_TRAPS: [Row; 14] = rows! {
    { opaque() } [] [] => traps(0 OpaqueBlock);
    { span(Noop) opaque() join() } [] [] => traps(4 OpaqueBlock);
    { dynamic(; 0) } [] [] => traps(0 UnknownTarget);
    { span(Noop) dynamic(; 1) } [0 0 0 1] [] => traps(0 UnknownTarget);
    { opaque() span(Noop) dynamic(; 2) } [] [] => traps(1 OpaqueBlock);
    { span(Noop) dynamic(; 1) deep(; 1024) } [] [] => traps(1024 NestedTooDeep);
    { span(Join) } [] [] => traps(0 BadBatch);
    { span(Noop) batch(Push) } [] [] => traps(2 BadBatch);
    { span(Noop) span(Noop) split() } [2] [] => traps(0 NotBinary);
    { span(Noop) repeat() } [2] [] => traps(0 NotBinary);
    { span(Noop) repeat() } [1 2] [] => traps(4 NotBinary);
    { span(Push; 1) call() } [] [] => traps(5 DepthAtReturn);
    { span(Noop) deep(; 1023) } [] [] => traps(1026 OpaqueBlock);
    { span(Noop) deep(; 1024) } [] [] => traps(1024 NestedTooDeep);
};

/// The kernel of `SYSCALL_TRAPS`.
pub static CALLING: [&[Part]; 2] = [
    &parts! { span(Noop) call() },
    &parts! { span(Noop) syscall() },
];

pub static SYSCALL_TRAPS: [Row; 3] = rows! {
    { span(Noop) call() syscall() } [] [] => traps(1 CallInSyscall);
    { span(Noop) syscall() syscall() } [] [] => traps(1 CallInSyscall);
    { span(Noop) syscall() } [] [] => traps(0 NotInKernel);
};

pub static OPERATION_TRAPS: [Row; 7] = rows! {
    { span(Noop Assert) } [] [] => traps(2 AssertFailed);
    { span(Inv) } [] [] => traps(1 ZeroInverse);
    { span(AdvPop AdvPop) } [] [6] => traps(2 AdviceEmpty);
    { span(Caller) } [] [] => traps(1 NotInSyscall);
    { span(MLoad) } [4294967296 1] [] => traps(1 AddressRange);
    { span(U32Add) } [4294967296 1] [] => traps(1 NotU32);
    { span(U32Div) } [0 1] [] => traps(1 DivideByZero);
};

// of eight cycles
pub static LAST_CYCLE: [Row; 1] = rows! {
    { span(Incr) span(Pad) join() } [] [] => ends(8 [0 1] depth 17 left 0);
};

pub static CUT_OFF: [Row; 1] = rows! {
    { span(Incr) span(Pad) join() } [] [] => stops();
};

pub static NO_CYCLE: [Row; 1] = rows! {
    { opaque() } [] [] => stops();
};

pub static ENDLESS: [Row; 1] = rows! {
    { span(Dup0) repeat() } [1 1] [] => stops();
};
