ghost use Rattle.std.specs.Prelude.{◌≡◌, ◌++◌, IfOk, OnOk};
ghost use Rattle.masm_expand.specs.Expansion.{plain};
ghost use Rattle.std_u64.specs.Lists.{operations};

use crate::names::U64Procedure;
use std::alloc::Global;
use vm_field::Memory;
use vm_ops::{Item, Items, Op};

// The carry and the sum, and then more: the low limbs first, and then the high ones with their
// carry.
macro_rules! adding {
    ($($more:ident),*) => {
        &[Op::Swap, Op::MovUp3, Op::U32Add, Op::MovUp3, Op::MovUp3, Op::U32Add3 $(, Op::$more)*]
    };
}

// The borrow and the difference, and then more: the low limbs, the high ones, and the borrow of the
// low ones from these. At most one of the last two subtractions borrows, and then the whole
// difference does. In front may stand an exchange of the numbers.
macro_rules! subtracting {
    ($($front:ident),*; $($more:ident),*) => {
        &[
            $(Op::$front,)* Op::MovUp3, Op::MovUp2, Op::U32Sub, Op::MovUp3, Op::MovUp3, Op::U32Sub, Op::Swap, Op::MovUp2,
            Op::U32Sub, Op::MovUp2, Op::Or $(, Op::$more)*
        ]
    };
}

// The operations of a procedure. None has an immediate.
fn list(procedure: U64Procedure) -> &'static [Op]
    ensures { plain result.now ≡ operations procedure }
{
    match procedure {
        U64Procedure::OverflowingAdd => adding!(),
        U64Procedure::WrappingAdd => adding!(Drop),
        U64Procedure::CheckedAdd => adding!(Eqz, Assert),
        U64Procedure::OverflowingSub => subtracting!(;),
        U64Procedure::WrappingSub => subtracting!(; Drop),
        U64Procedure::CheckedSub => subtracting!(; Eqz, Assert),
        U64Procedure::Lt => subtracting!(; MovDn2, Drop, Drop),
        U64Procedure::Gte => subtracting!(; MovDn2, Drop, Drop, Not),
        U64Procedure::Gt => subtracting!(MovUp3, MovUp3; MovDn2, Drop, Drop),
        U64Procedure::Lte => subtracting!(MovUp3, MovUp3; MovDn2, Drop, Drop, Not),
        U64Procedure::Eq => &[
            Op::U32Assert2,
            Op::MovUp3,
            Op::MovUp3,
            Op::U32Assert2,
            Op::MovUp3,
            Op::MovUp3,
            Op::MovUp2,
            Op::Eq,
            Op::MovDn2,
            Op::Eq,
            Op::And,
        ],
    }
}

// Adds operations with no immediate.
fn add(items: &mut Items, more: &[Op]) -> Result<(), Memory>
    ensures { OnOk result (items.new ≡ items.old ++ plain more.now) }
{
    for operation in more {
        items.push(Item::plain(*operation))?;
    }
    Ok(())
}

/// The operations of a procedure: those of its instructions, in order.
pub fn procedure(alloc: Global, procedure: U64Procedure) -> Result<Items, Memory>
    ensures { IfOk result (λ items. items ≡ operations procedure) }
{
    let mut items = Items::new(alloc);
    add(&mut items, list(procedure))?;
    Ok(items)
}
