use crate::code::text;
use std::fmt;

/// An operation of the machine (docs/MACHINE.md), one variant for each code from 0 on.
#[derive(Clone, Copy, Debug, PartialEq, Eq)]
pub enum Op {
    Noop,
    Eqz,
    Neg,
    Inv,
    Incr,
    Not,
    FmpAdd,
    MLoad,
    Swap,
    Caller,
    MovUp2,
    MovDn2,
    MovUp3,
    MovDn3,
    MovUp4,
    MovDn4,
    MovUp5,
    MovDn5,
    MovUp6,
    MovDn6,
    MovUp7,
    MovDn7,
    MovUp8,
    MovDn8,
    SwapW,
    SwapW2,
    SwapW3,
    SwapDW,
    AdvPopW,
    HPerm,
    U32Add,
    U32Sub,
    U32Mul,
    U32Div,
    U32Assert2,
    Assert,
    Eq,
    Add,
    Mul,
    And,
    Or,
    U32And,
    U32Xor,
    Drop,
    CSwap,
    CSwapW,
    MLoadW,
    MStore,
    MStoreW,
    FmpUpdate,
    U32Add3,
    U32MAdd,
    Pad,
    Dup0,
    Dup1,
    Dup2,
    Dup3,
    Dup4,
    Dup5,
    Dup6,
    Dup7,
    Dup9,
    Dup11,
    Dup13,
    Dup15,
    AdvPop,
    SDepth,
    Clk,
    U32Split,
    Push,
    Join,
    Split,
    Loop,
    Span,
    Call,
    Syscall,
    End,
    Repeat,
    Respan,
    Halt,
    Dyn,
}

/// Where the stack's cells below those that an operation takes go.
#[derive(Clone, Copy, Debug, PartialEq, Eq)]
pub enum Shift {
    /// One cell fewer.
    Left,
    /// As many cells; also END, whose shift its block decides.
    Stay,
    /// One cell more.
    Right,
}

impl fmt::Display for Op {
    ghost use Rattle.std.specs.Prelude.{Some};
    ghost use Rattle.vm_ops.specs.Codes.{text_of_op};

    ghost output = { λ op. Some (text_of_op op) };

    fn fmt<W: fmt::Write>(&self, f: &mut fmt::Formatter<W>) -> fmt::Result {
        let name = text(*self);
        write!(f, "{name}")
    }
}
