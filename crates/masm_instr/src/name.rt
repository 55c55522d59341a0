ghost use Rattle.std.specs.Prelude.{◌≡◌, Some, slice_get};
ghost use Rattle.masm_instr.specs.Instructions.{names_local};
ghost use Rattle.masm_instr.specs.Table.{fixed, form_of, text_of};
ghost use Rattle.masm_instr.specs.Names.{first_named, name_of, NamesAreTexts};

use crate::form::Form;
use crate::slot::{SLOTS, slot};
use crate::table::{EVERY, row_of};
use vm_ops::Op;

/// The name of an instruction.
#[derive(Clone, Copy, Debug, PartialEq, Eq)]
pub enum Name {
    Add,
    Sub,
    Mul,
    Div,
    Neg,
    Inv,
    Exp,
    Pow2,
    Not,
    And,
    Or,
    Xor,
    Eq,
    Neq,
    Lt,
    Gt,
    Lte,
    Gte,
    IsOdd,
    Eqw,
    Assert,
    Assertz,
    AssertEq,
    AssertEqw,
    U32Test,
    U32Assert,
    U32Assertw,
    U32Cast,
    U32Split,
    U32CheckedAdd,
    U32CheckedSub,
    U32CheckedMul,
    U32WrappingAdd,
    U32WrappingSub,
    U32WrappingMul,
    U32OverflowingAdd,
    U32OverflowingSub,
    U32OverflowingMul,
    U32OverflowingAdd3,
    U32WrappingAdd3,
    U32OverflowingMadd,
    U32WrappingMadd,
    U32CheckedDiv,
    U32CheckedMod,
    U32CheckedDivmod,
    U32CheckedAnd,
    U32CheckedXor,
    U32CheckedOr,
    U32CheckedNot,
    U32CheckedShl,
    U32CheckedShr,
    U32CheckedRotl,
    U32CheckedRotr,
    U32CheckedLt,
    U32CheckedGte,
    U32CheckedGt,
    U32CheckedLte,
    U32CheckedMax,
    U32CheckedMin,
    Drop,
    Dropw,
    Padw,
    Dup,
    Dupw,
    Movup,
    Movdn,
    Swap,
    Swapw,
    Swapdw,
    Movupw,
    Movdnw,
    Cswap,
    Cswapw,
    Cdrop,
    Cdropw,
    Push,
    Sdepth,
    Caller,
    Clk,
    AdvPush,
    AdvLoadw,
    MemLoad,
    MemLoadw,
    MemStore,
    MemStorew,
    Locaddr,
    LocLoad,
    LocLoadw,
    LocStore,
    LocStorew,
    Hperm,
    Hmerge,
}

impl Name {
    /// How the name is written in a source.
    pub fn text(self) -> &'static [u8]
        ensures { result.now ≡ text_of self }
    {
        row_of(self).text
    }

    /// The numbers that the instruction takes.
    pub fn form(self) -> Form
        ensures { result ≡ form_of self }
    {
        row_of(self).form
    }

    /// The operations that stand last in its list, whatever its numbers.
    pub fn last_operations(self) -> &'static [Op]
        ensures { result.now ≡ fixed self }
    {
        row_of(self).last
    }

    /// Whether the instruction's number is that of a local.
    pub fn names_local(self) -> bool
        ensures { result ≡ names_local self }
    {
        matches!(
            self,
            Name::Locaddr | Name::LocLoad | Name::LocLoadw | Name::LocStore | Name::LocStorew
        )
    }
}

fn name_at(names: &[Name], place: usize) -> Option<Name>
    ensures { result ≡ slice_get names.now place }
{
    names.get(place).copied()
}

// The name that has this text, if any name has it.
fn guess(text: &[u8]) -> Option<Name>
    ensures { (name : Name) → text_of name ≡ text.now → result ≡ Some name }
{
    name_at(&EVERY, usize::from(SLOTS[slot(text)]))
}

/// The name that has this text.
pub fn name_of(text: &[u8]) -> Option<Name>
    ensures { result ≡ name_of text.now }
{
    match guess(text) {
        Some(name) if name.text() == text => Some(name),
        _ => None,
    }
}

/// A text is a name's exactly where it is the one that the name is written with.
pub fn names_are_texts()
    ensures { NamesAreTexts }
{}
