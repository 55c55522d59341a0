//! States before instructions and behind them, computed outside.

use vm_ops::Cause;

// A row is a line: the instruction, what the cells below those on top count from, those on top, what
// else stands before the instruction, and what it gives.
macro_rules! rows {
    ($(
        $token:literal $base:literal [$($cell:literal)*]
        $(depth $depth:literal)? $(tape [$($element:literal)*])? $(in_syscall $inside:literal)?
        => $gives:tt $(gone $gone:literal)? $(taken $taken:literal)? $(word [$($number:literal)*])?;
    )*) => {
        [$(Row {
            token: $token,
            base: $base,
            top: &[$($cell),*],
            depth: or!(16; $($depth)?),
            tape: or!(None; $(Some(&[$($element),*]))?),
            in_syscall: or!(false; $($inside)?),
            gives: gives!($gives),
            gone: or!(0; $($gone)?),
            taken: or!(0; $($taken)?),
            word: or!(UNTOUCHED; $([$($number),*])?),
        }),*]
    };
}

macro_rules! or {
    ($usual:expr;) => {
        $usual
    };
    ($usual:expr; $given:expr) => {
        $given
    };
}

macro_rules! gives {
    ([$($cell:literal)*]) => {
        Gives::Left(&[$($cell),*])
    };
    ($cause:ident) => {
        Gives::Trap(Cause::$cause)
    };
}

pub(crate) use gives;
pub(crate) use or;
pub(crate) use rows;

mod bits;
mod cells;
mod field;
mod stores;
mod truths;
mod words;

pub use bits::{BITS, WORD_ORDER};
pub use cells::{CELLS, SWAPS};
pub use field::{FIELD, ORDER};
pub use stores::{STATES, STORES};
pub use truths::TRUTHS;
pub use words::{CARRIES, RANGES, WORDS};

/// An instruction in a procedure of two locals, on a state of these cells and this tape. The clock
/// is 9, the context 3, the frame pointer 7, and at address 5 lies 11, 12, 13, 14.
pub struct Row {
    pub token: &'static [u8],
    /// A cell below those on top holds the sum of this and its place, counted from 0 at the top.
    pub base: u64,
    pub top: &'static [u64],
    pub depth: usize,
    pub tape: Option<&'static [u64]>,
    pub in_syscall: bool,
    pub gives: Gives,
    /// How many cells from the top are gone behind the instruction.
    pub gone: usize,
    /// How many elements of the tape are taken.
    pub taken: usize,
    /// The word at address 5 behind the instruction.
    pub word: [u64; 4],
}

/// What the instruction gives.
pub enum Gives {
    /// The cells on top, below which stand those of the stack before, but for those that are gone,
    /// and zeros up to sixteen.
    Left(&'static [u64]),
    Trap(Cause),
}

pub const UNTOUCHED: [u64; 4] = [11, 12, 13, 14];

/// Of the function that runs.
pub const DIGEST: [u64; 4] = [21, 22, 23, 24];
