ghost use Rattle.std.specs.Prelude.{◌≡◌};
ghost use Rattle.masm_instr.specs.Table.{row_of};

use crate::form::{Form, GREATEST, NO_NUMBER, ONE_AMOUNT, ONE_ELEMENT, ONE_LOCAL, ONE_U32, takes};
use crate::name::Name;
use vm_ops::Op;

/// What the table says of an instruction.
#[derive(Clone, Copy)]
pub(crate) struct InstrRow {
    /// How the name is written in a source.
    pub text: &'static [u8],
    /// The numbers that the instruction takes.
    pub form: Form,
    /// The operations that stand last in its list, whatever its numbers.
    pub last: &'static [Op],
}

// The table: a row is a name, and what `InstrRow` says of it. It is written once, and handed to each
// macro that reads it, since the list of the names and the match on a name both come of it.
macro_rules! instructions {
    ($reader:ident $($of:ident)?) => {
        $reader! { $($of)?;
            Add => b"add", ONE_ELEMENT, [Add];
            Sub => b"sub", ONE_ELEMENT, [Neg, Add];
            Mul => b"mul", ONE_ELEMENT, [Mul];
            Div => b"div", ONE_ELEMENT, [Inv, Mul];
            Neg => b"neg", NO_NUMBER, [Neg];
            Inv => b"inv", NO_NUMBER, [Inv];
            Exp => b"exp", takes(1, 1, true, 0, GREATEST), [Swap, Drop];
            Pow2 => b"pow2", NO_NUMBER, [];
            Not => b"not", NO_NUMBER, [Not];
            And => b"and", NO_NUMBER, [And];
            Or => b"or", NO_NUMBER, [Or];
            Xor => b"xor", NO_NUMBER, [Dup1, Dup1, Or, MovDn2, And, Not, And];
            Eq => b"eq", ONE_ELEMENT, [Eq];
            Neq => b"neq", ONE_ELEMENT, [Eq, Not];
            Lt => b"lt", NO_NUMBER, { [] less_than [] };
            Gt => b"gt", NO_NUMBER, { [Swap] less_than [] };
            Lte => b"lte", NO_NUMBER, { [Swap] less_than [Not] };
            Gte => b"gte", NO_NUMBER, { [] less_than [Not] };
            IsOdd => b"is_odd", NO_NUMBER, [U32Div, Swap, Drop];
            Eqw => b"eqw", NO_NUMBER, [
                Dup7, Dup4, Eq, Dup7, Dup4, Eq, Dup7, Dup4, Eq, Dup7, Dup4, Eq, And, And, And
            ];
            Assert => b"assert", NO_NUMBER, [Assert];
            Assertz => b"assertz", NO_NUMBER, [Eqz, Assert];
            AssertEq => b"assert_eq", NO_NUMBER, [Eq, Assert];
            AssertEqw => b"assert_eqw", NO_NUMBER, [
                MovUp4, Eq, Assert, MovUp3, Eq, Assert, MovUp2, Eq, Assert, Eq, Assert
            ];
            U32Test => b"u32test", NO_NUMBER, [Dup0, U32Split, Swap, Drop, Eqz];
            U32Assert => b"u32assert", takes(0, 1, false, 2, 2), [];
            U32Assertw => b"u32assertw", NO_NUMBER, [
                U32Assert2, MovUp3, MovUp3, U32Assert2, MovUp3, MovUp3
            ];
            U32Cast => b"u32cast", NO_NUMBER, [U32Split, Drop];
            U32Split => b"u32split", NO_NUMBER, [U32Split];
            U32CheckedAdd => b"u32checked_add", ONE_U32, [U32Add, Eqz, Assert];
            U32CheckedSub => b"u32checked_sub", ONE_U32, [U32Sub, Eqz, Assert];
            U32CheckedMul => b"u32checked_mul", ONE_U32, [U32Mul, Eqz, Assert];
            U32WrappingAdd => b"u32wrapping_add", ONE_U32, [U32Add, Drop];
            U32WrappingSub => b"u32wrapping_sub", ONE_U32, [U32Sub, Drop];
            U32WrappingMul => b"u32wrapping_mul", ONE_U32, [U32Mul, Drop];
            U32OverflowingAdd => b"u32overflowing_add", ONE_U32, [U32Add];
            U32OverflowingSub => b"u32overflowing_sub", ONE_U32, [U32Sub];
            U32OverflowingMul => b"u32overflowing_mul", ONE_U32, [U32Mul];
            U32OverflowingAdd3 => b"u32overflowing_add3", NO_NUMBER, [U32Add3];
            U32WrappingAdd3 => b"u32wrapping_add3", NO_NUMBER, [U32Add3, Drop];
            U32OverflowingMadd => b"u32overflowing_madd", NO_NUMBER, [U32MAdd];
            U32WrappingMadd => b"u32wrapping_madd", NO_NUMBER, [U32MAdd, Drop];
            U32CheckedDiv => b"u32checked_div", ONE_U32, [U32Div, Drop];
            U32CheckedMod => b"u32checked_mod", ONE_U32, [U32Div, Swap, Drop];
            U32CheckedDivmod => b"u32checked_divmod", ONE_U32, [U32Div];
            U32CheckedAnd => b"u32checked_and", NO_NUMBER, [U32And];
            U32CheckedXor => b"u32checked_xor", NO_NUMBER, [U32Xor];
            U32CheckedOr => b"u32checked_or", NO_NUMBER, [Dup1, Dup1, U32And, Neg, Add, Add];
            U32CheckedNot => b"u32checked_not", NO_NUMBER, [U32Assert2, Swap, Neg, Add];
            U32CheckedShl => b"u32checked_shl", ONE_AMOUNT, [U32Mul, Drop];
            U32CheckedShr => b"u32checked_shr", ONE_AMOUNT, [U32Div, Drop];
            U32CheckedRotl => b"u32checked_rotl", ONE_AMOUNT, [U32Mul, Add];
            U32CheckedRotr => b"u32checked_rotr", takes(1, 1, true, 0, 31), [U32Mul, Add];
            U32CheckedLt => b"u32checked_lt", NO_NUMBER, [U32Sub, Swap, Drop];
            U32CheckedGte => b"u32checked_gte", NO_NUMBER, [U32Sub, Swap, Drop, Not];
            U32CheckedGt => b"u32checked_gt", NO_NUMBER, [Swap, U32Sub, Swap, Drop];
            U32CheckedLte => b"u32checked_lte", NO_NUMBER, [Swap, U32Sub, Swap, Drop, Not];
            U32CheckedMax => b"u32checked_max", NO_NUMBER, [
                Dup1, Dup1, U32Sub, Swap, Drop, CSwap, Drop
            ];
            U32CheckedMin => b"u32checked_min", NO_NUMBER, [
                Dup1, Dup1, U32Sub, Swap, Drop, CSwap, Swap, Drop
            ];
            Drop => b"drop", NO_NUMBER, [Drop];
            Dropw => b"dropw", NO_NUMBER, [Drop, Drop, Drop, Drop];
            Padw => b"padw", NO_NUMBER, [Pad, Pad, Pad, Pad];
            Dup => b"dup", takes(0, 1, false, 0, 15), [];
            Dupw => b"dupw", takes(0, 1, false, 0, 3), [];
            Movup => b"movup", takes(1, 1, false, 2, 15), [];
            Movdn => b"movdn", takes(1, 1, false, 2, 15), [];
            Swap => b"swap", takes(0, 1, false, 1, 15), [];
            Swapw => b"swapw", takes(0, 1, false, 1, 3), [];
            Swapdw => b"swapdw", NO_NUMBER, [SwapDW];
            Movupw => b"movupw", takes(1, 1, false, 2, 3), [];
            Movdnw => b"movdnw", takes(1, 1, false, 2, 3), [];
            Cswap => b"cswap", NO_NUMBER, [CSwap];
            Cswapw => b"cswapw", NO_NUMBER, [CSwapW];
            Cdrop => b"cdrop", NO_NUMBER, [CSwap, Drop];
            Cdropw => b"cdropw", NO_NUMBER, [CSwapW, Drop, Drop, Drop, Drop];
            Push => b"push", takes(1, 16, true, 0, GREATEST), [];
            Sdepth => b"sdepth", NO_NUMBER, [SDepth];
            Caller => b"caller", NO_NUMBER, [Caller];
            Clk => b"clk", NO_NUMBER, [Clk];
            AdvPush => b"adv_push", takes(1, 1, false, 1, 16), [];
            AdvLoadw => b"adv_loadw", NO_NUMBER, [AdvPopW];
            MemLoad => b"mem_load", ONE_U32, [MLoad];
            MemLoadw => b"mem_loadw", ONE_U32, [MLoadW];
            MemStore => b"mem_store", ONE_U32, [MStore, Drop];
            MemStorew => b"mem_storew", ONE_U32, [MStoreW];
            Locaddr => b"locaddr", ONE_LOCAL, [FmpAdd];
            LocLoad => b"loc_load", ONE_LOCAL, [FmpAdd, MLoad];
            LocLoadw => b"loc_loadw", ONE_LOCAL, [FmpAdd, MLoadW];
            LocStore => b"loc_store", ONE_LOCAL, [FmpAdd, MStore, Drop];
            LocStorew => b"loc_storew", ONE_LOCAL, [FmpAdd, MStoreW];
            Hperm => b"hperm", NO_NUMBER, [HPerm];
            Hmerge => b"hmerge", NO_NUMBER, [
                Pad, Pad, Pad, Pad, SwapW2, SwapW, HPerm, Drop, Drop, Drop, Drop, SwapW, Drop, Drop,
                Drop, Drop
            ];
        }
    };
}

// A list of operations. In braces stand those before and behind `less_than`, the order of the two
// cells on top as numbers: 1 where the second is less than the first, else 0.
macro_rules! operations {
    ([$($op:ident),*]) => {
        &[$(Op::$op),*]
    };
    ({ [$($front:ident),*] less_than [$($back:ident),*] }) => {
        operations!([
            $($front,)* U32Split, MovUp2, U32Split, MovUp3, MovUp2, Swap, U32Sub, Swap, Drop,
            MovDn2, Dup1, Dup1, Eq, MovUp3, And, MovDn2, Swap, U32Sub, Swap, Drop, Or $(, $back)*
        ])
    };
}

macro_rules! list_names {
    (; $($name:ident => $text:literal, $form:expr, $last:tt;)*) => {
        [$(Name::$name),*]
    };
}

macro_rules! find_row {
    ($of:ident; $($name:ident => $text:literal, $form:expr, $last:tt;)*) => {
        match $of {
            $(Name::$name => InstrRow { text: $text, form: $form, last: operations!($last) },)*
        }
    };
}

/// Every name, in the order of the table.
pub(crate) const EVERY: [Name; 92] = instructions!(list_names);

/// The row of a name.
// A caller that reads one part of it makes no row, where this is inlined.
#[inline(always)]
pub(crate) fn row_of(name: Name) -> InstrRow
    ensures text { result.text.now ≡ (row_of name).text }
    ensures form { result.form ≡ (row_of name).form }
    ensures last { result.last.now ≡ (row_of name).last }
{
    instructions!(find_row name)
}
