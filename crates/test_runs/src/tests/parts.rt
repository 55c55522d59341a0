//! Trees, written as the parts that make them, each behind those that it takes.

use vm_ops::Op;

/// One part of a tree.
#[derive(Clone, Copy)]
pub enum Part {
    /// A span of one group, with the immediates behind it.
    Span(&'static [Op], &'static [u64]),
    /// One more batch of the latest span.
    Batch(&'static [Op]),
    Opaque,
    Join,
    Split,
    Loop,
    Call,
    Syscall,
    /// So many joins round the latest tree, each with an opaque block behind it.
    Deep(usize),
    /// A dynamic block, whose targets are so many of the latest trees.
    Dynamic(usize),
}

// The parts, as `span(Push Add; 2) span(Incr) join()`.
macro_rules! parts {
    ($($part:ident ($($op:ident)* $(; $($number:literal)*)?))*) => {
        [$(part!($part [$(Op::$op),*] [$($($number),*)?])),*]
    };
}

macro_rules! part {
    (span $ops:tt $numbers:tt) => {
        Part::Span(&$ops, &$numbers)
    };
    (batch $ops:tt $numbers:tt) => {
        Part::Batch(&$ops)
    };
    (opaque [] []) => {
        Part::Opaque
    };
    (join [] []) => {
        Part::Join
    };
    (split [] []) => {
        Part::Split
    };
    (repeat [] []) => {
        Part::Loop
    };
    (call [] []) => {
        Part::Call
    };
    (syscall [] []) => {
        Part::Syscall
    };
    (deep [] [$joins:literal]) => {
        Part::Deep($joins)
    };
    (dynamic [] [$targets:literal]) => {
        Part::Dynamic($targets)
    };
}

pub(crate) use part;
pub(crate) use parts;
