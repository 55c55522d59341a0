ghost use Rattle.std.specs.Prelude.{◌≡◌};
ghost use Rattle.vm_ops.specs.Table.{row_in, row_of};

use crate::kind::Kind;
use crate::op::Op;

/// What the table says of an operation.
#[derive(Clone, Copy)]
pub(crate) struct Row {
    /// The operation's code.
    pub code: u8,
    /// Its name, in capital letters and digits.
    pub text: &'static str,
    /// What its cycles are.
    pub kind: Kind,
    /// How many cells it takes from the top of the stack.
    pub takes: usize,
    /// The cells of which it leaves copies, top first.
    pub sources: &'static [usize],
    /// How many values it computes and leaves.
    pub computes: usize,
    /// How many elements it takes from the tape.
    pub advice: usize,
}

// The table: a row is an operation, and what `Row` says of it in that order. It is written once,
// and handed to each macro that reads it: the list of the operations and the match on one.
macro_rules! operations {
    ($reader:ident $($of:ident)?) => {
        $reader! { $($of)?;
            Noop => 0, "NOOP", Ordinary, 0, [], 0, 0;
            Eqz => 1, "EQZ", Ordinary, 1, [], 1, 0;
            Neg => 2, "NEG", Ordinary, 1, [], 1, 0;
            Inv => 3, "INV", Ordinary, 1, [], 1, 0;
            Incr => 4, "INCR", Ordinary, 1, [], 1, 0;
            Not => 5, "NOT", Ordinary, 1, [], 1, 0;
            FmpAdd => 6, "FMPADD", Ordinary, 1, [], 1, 0;
            MLoad => 7, "MLOAD", Ordinary, 1, [], 1, 0;
            Swap => 8, "SWAP", Ordinary, 2, [1, 0], 0, 0;
            Caller => 9, "CALLER", Ordinary, 4, [], 4, 0;
            MovUp2 => 10, "MOVUP2", Ordinary, 3, [2, 0, 1], 0, 0;
            MovDn2 => 11, "MOVDN2", Ordinary, 3, [1, 2, 0], 0, 0;
            MovUp3 => 12, "MOVUP3", Ordinary, 4, [3, 0, 1, 2], 0, 0;
            MovDn3 => 13, "MOVDN3", Ordinary, 4, [1, 2, 3, 0], 0, 0;
            MovUp4 => 14, "MOVUP4", Ordinary, 5, [4, 0, 1, 2, 3], 0, 0;
            MovDn4 => 15, "MOVDN4", Ordinary, 5, [1, 2, 3, 4, 0], 0, 0;
            MovUp5 => 16, "MOVUP5", Ordinary, 6, [5, 0, 1, 2, 3, 4], 0, 0;
            MovDn5 => 17, "MOVDN5", Ordinary, 6, [1, 2, 3, 4, 5, 0], 0, 0;
            MovUp6 => 18, "MOVUP6", Ordinary, 7, [6, 0, 1, 2, 3, 4, 5], 0, 0;
            MovDn6 => 19, "MOVDN6", Ordinary, 7, [1, 2, 3, 4, 5, 6, 0], 0, 0;
            MovUp7 => 20, "MOVUP7", Ordinary, 8, [7, 0, 1, 2, 3, 4, 5, 6], 0, 0;
            MovDn7 => 21, "MOVDN7", Ordinary, 8, [1, 2, 3, 4, 5, 6, 7, 0], 0, 0;
            MovUp8 => 22, "MOVUP8", Ordinary, 9, [8, 0, 1, 2, 3, 4, 5, 6, 7], 0, 0;
            MovDn8 => 23, "MOVDN8", Ordinary, 9, [1, 2, 3, 4, 5, 6, 7, 8, 0], 0, 0;
            SwapW => 24, "SWAPW", Ordinary, 16, [4, 5, 6, 7, 0, 1, 2, 3, 8, 9, 10, 11, 12, 13, 14, 15], 0, 0;
            SwapW2 => 25, "SWAPW2", Ordinary, 16, [8, 9, 10, 11, 4, 5, 6, 7, 0, 1, 2, 3, 12, 13, 14, 15], 0, 0;
            SwapW3 => 26, "SWAPW3", Ordinary, 16, [12, 13, 14, 15, 4, 5, 6, 7, 8, 9, 10, 11, 0, 1, 2, 3], 0, 0;
            SwapDW => 27, "SWAPDW", Ordinary, 16, [8, 9, 10, 11, 12, 13, 14, 15, 0, 1, 2, 3, 4, 5, 6, 7], 0, 0;
            AdvPopW => 28, "ADVPOPW", Ordinary, 4, [], 4, 4;
            HPerm => 29, "HPERM", Ordinary, 12, [], 12, 0;
            U32Add => 30, "U32ADD", Ordinary, 2, [], 2, 0;
            U32Sub => 31, "U32SUB", Ordinary, 2, [], 2, 0;
            U32Mul => 32, "U32MUL", Ordinary, 2, [], 2, 0;
            U32Div => 33, "U32DIV", Ordinary, 2, [], 2, 0;
            U32Assert2 => 34, "U32ASSERT2", Ordinary, 2, [0, 1], 0, 0;
            Assert => 35, "ASSERT", Ordinary, 1, [], 0, 0;
            Eq => 36, "EQ", Ordinary, 2, [], 1, 0;
            Add => 37, "ADD", Ordinary, 2, [], 1, 0;
            Mul => 38, "MUL", Ordinary, 2, [], 1, 0;
            And => 39, "AND", Ordinary, 2, [], 1, 0;
            Or => 40, "OR", Ordinary, 2, [], 1, 0;
            U32And => 41, "U32AND", Ordinary, 2, [], 1, 0;
            U32Xor => 42, "U32XOR", Ordinary, 2, [], 1, 0;
            Drop => 43, "DROP", Ordinary, 1, [], 0, 0;
            CSwap => 44, "CSWAP", Ordinary, 3, [], 2, 0;
            CSwapW => 45, "CSWAPW", Ordinary, 9, [], 8, 0;
            MLoadW => 46, "MLOADW", Ordinary, 5, [], 4, 0;
            MStore => 47, "MSTORE", Ordinary, 1, [], 0, 0;
            MStoreW => 48, "MSTOREW", Ordinary, 1, [], 0, 0;
            FmpUpdate => 49, "FMPUPDATE", Ordinary, 1, [], 0, 0;
            U32Add3 => 50, "U32ADD3", Ordinary, 3, [], 2, 0;
            U32MAdd => 51, "U32MADD", Ordinary, 3, [], 2, 0;
            Pad => 52, "PAD", Ordinary, 0, [], 1, 0;
            Dup0 => 53, "DUP0", Ordinary, 0, [0], 0, 0;
            Dup1 => 54, "DUP1", Ordinary, 0, [1], 0, 0;
            Dup2 => 55, "DUP2", Ordinary, 0, [2], 0, 0;
            Dup3 => 56, "DUP3", Ordinary, 0, [3], 0, 0;
            Dup4 => 57, "DUP4", Ordinary, 0, [4], 0, 0;
            Dup5 => 58, "DUP5", Ordinary, 0, [5], 0, 0;
            Dup6 => 59, "DUP6", Ordinary, 0, [6], 0, 0;
            Dup7 => 60, "DUP7", Ordinary, 0, [7], 0, 0;
            Dup9 => 61, "DUP9", Ordinary, 0, [9], 0, 0;
            Dup11 => 62, "DUP11", Ordinary, 0, [11], 0, 0;
            Dup13 => 63, "DUP13", Ordinary, 0, [13], 0, 0;
            Dup15 => 64, "DUP15", Ordinary, 0, [15], 0, 0;
            AdvPop => 65, "ADVPOP", Ordinary, 0, [], 1, 1;
            SDepth => 66, "SDEPTH", Ordinary, 0, [], 1, 0;
            Clk => 67, "CLK", Ordinary, 0, [], 1, 0;
            U32Split => 68, "U32SPLIT", Ordinary, 1, [], 2, 0;
            Push => 69, "PUSH", Ordinary, 0, [], 1, 0;
            Join => 70, "JOIN", Join, 0, [], 0, 0;
            Split => 71, "SPLIT", Split, 1, [], 0, 0;
            Loop => 72, "LOOP", Loop, 1, [], 0, 0;
            Span => 73, "SPAN", Span, 0, [], 0, 0;
            Call => 74, "CALL", Call, 0, [], 0, 0;
            Syscall => 75, "SYSCALL", Syscall, 0, [], 0, 0;
            End => 76, "END", End, 0, [], 0, 0;
            Repeat => 77, "REPEAT", Repeat, 1, [], 0, 0;
            Respan => 78, "RESPAN", Respan, 0, [], 0, 0;
            Halt => 79, "HALT", Halt, 0, [], 0, 0;
            Dyn => 80, "DYN", Dyn, 0, [], 0, 0;
        }
    };
}

macro_rules! list_operations {
    (; $($op:ident => $code:literal, $text:literal, $kind:ident, $takes:literal, $sources:tt, $computes:literal, $advice:literal;)*) => {
        [$(Op::$op),*]
    };
}

macro_rules! find_row {
    ($of:ident; $($op:ident => $code:literal, $text:literal, $kind:ident, $takes:literal, $sources:tt, $computes:literal, $advice:literal;)*) => {
        match $of {
            $(Op::$op => Row {
                code: $code,
                text: $text,
                kind: Kind::$kind,
                takes: $takes,
                sources: &$sources,
                computes: $computes,
                advice: $advice,
            },)*
        }
    };
}

/// All operations, in the order of their codes.
pub(crate) const EVERY_OP: [Op; 81] = operations!(list_operations);

/// The row of an operation.
// A caller that reads one part of it makes no row, where this is inlined.
#[inline(always)]
pub(crate) fn row_of(op: Op) -> Row
    ensures { row_in result ≡ row_of op }
{
    operations!(find_row op)
}
