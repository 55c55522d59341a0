/// What the cycles of an operation are: an operation of a span, the start of a block of one kind, a block's end, a further turn of a
/// loop, a further batch of a span, or none.
#[derive(Clone, Copy, Debug, PartialEq, Eq)]
pub enum Kind {
    /// An operation of a span.
    Ordinary,
    Join,
    Split,
    Loop,
    Span,
    Call,
    Syscall,
    Dyn,
    End,
    Repeat,
    Respan,
    /// Behind the last cycle.
    Halt,
}
