ghost use Rattle.std.specs.Prelude.{◌≡◌, ◌≤◌, ◌^◌, ◌-◌, ◌%◌, ◌++◌, [], ◌∷◌, OnOk};
ghost use Rattle.std.specs.List.{flat_map};
ghost use Rattle.vm_ops.specs.Items.{push_item};
ghost use Rattle.masm_expand.specs.Expansion.{plain, exp_digit, exp_digits, pow2, pow2_step};

use crate::pieces::{add_plain, element};
use vm_field::Memory;
use vm_ops::{Item, Items, Op};

// Adds PUSH of a number.
pub(crate) fn add_push(items: &mut Items, number: u32) -> Result<(), Memory>
    ensures { OnOk result (items.new ≡ items.old ++ push_item number ∷ []) }
{
    items.push(Item::push(element(u64::from(number))))
}

// The digit of an exponent of which the digits down to it make the number.
fn add_digit(items: &mut Items, number: u64) -> Result<(), Memory>
    ensures { OnOk result (items.new ≡ items.old ++ plain (exp_digit number)) }
{
    if number == 0 {
        Ok(())
    } else if number % 2 == 1 {
        add_plain(items, &[Op::Dup0, Op::Mul, Op::Dup1, Op::Mul])
    } else {
        add_plain(items, &[Op::Dup0, Op::Mul])
    }
}

// The binary digits of an exponent, the highest first.
pub(crate) fn add_digits(items: &mut Items, exponent: u64) -> Result<(), Memory>
    ensures { OnOk result (items.new ≡ items.old ++ plain (exp_digits 64 exponent)) }
{
    for place in (0..64u32).rev() {
        add_digit(items, exponent >> place)?;
    }
    Ok(())
}

// A step of pow2, by its factor less 1.
fn add_step(items: &mut Items, less: u32) -> Result<(), Memory>
    ensures { OnOk result (items.new ≡ items.old ++ pow2_step less) }
{
    add_push(items, 2)?;
    add_plain(items, &[Op::U32Div])?;
    add_push(items, less)?;
    add_plain(items, &[Op::Mul, Op::Incr, Op::MovUp2, Op::Mul, Op::Swap])
}

fn add_steps(items: &mut Items, factors: &[u32]) -> Result<(), Memory>
    ensures { OnOk result (items.new ≡ items.old ++ flat_map pow2_step factors.now) }
{
    for less in factors {
        add_step(items, *less)?;
    }
    Ok(())
}

// 2 to the power of the top.
#[tactic(auto, using(crate::proofs::Joined::pow2_joined))]
pub(crate) fn add_pow2(items: &mut Items) -> Result<(), Memory>
    ensures { OnOk result (items.new ≡ items.old ++ pow2) }
{
    add_push(items, 1)?;
    add_plain(items, &[Op::Swap])?;
    add_steps(items, &[1, 3, 15, 255, 65535, 4294967295])?;
    add_plain(items, &[Op::Eqz, Op::Assert])?;
    Ok(())
}

// PUSH of 2 to the power of the number.
pub(crate) fn add_power(items: &mut Items, exponent: u32) -> Result<(), Memory>
    requires { exponent ≤ 31 }
    ensures { OnOk result (items.new ≡ items.old ++ push_item (2 ^ exponent) ∷ []) }
{
    add_push(items, 2u32.pow(exponent))
}
