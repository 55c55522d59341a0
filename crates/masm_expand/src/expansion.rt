ghost use Rattle.std.specs.Prelude.{◌≡◌, ◌-◌, ◌%◌, ◌^◌, ◌<◌, ◌≤◌, [], ◌∷◌, ◌++◌, true, OnOk, IfOk};
ghost use Rattle.vm_field.specs.Field.{prime};
ghost use Rattle.masm_instr.specs.Table.{form_of};
ghost use Rattle.masm_instr.specs.Instructions.{first, first_or, is_in_form, IsInForm, names_local, HasLocal};
ghost use Rattle.vm_ops.specs.declared.op.Op.TheVariants as ops;
ghost use Rattle.vm_ops.specs.Items.{push_item};
ghost use Rattle.masm_expand.specs.Packable.{ArePackable, ExpansionsArePackable};
ghost use Rattle.masm_expand.specs.Expansion.{plain, lit, local, assert_u32, two_to, exp_digits, front, expansion};

use crate::moves::{
    add_dup, add_dupw, add_movdn, add_movdnw, add_movup, add_movupw, add_swap, add_swapw,
};
use crate::pieces::{add_literals, add_plain, add_times, element, literal};
use crate::powers::{add_digits, add_pow2, add_power, add_push};
use masm_instr::{Instr, Name};
use std::alloc::Global;
use vm_field::Memory;
use vm_ops::{Items, Op};

// 2^64 - 2^32 + 1
const PRIME: u64 = 18446744069414584321;

// The first number of an instruction that has one.
fn first_number(name: Name, numbers: &[u128]) -> u128
    requires form { is_in_form name numbers.now ≡ true }
    requires some { 1 ≤ (form_of name).least }
    ensures value { result ≡ first numbers.now }
    ensures low { (form_of name).low ≤ result }
    ensures high { result ≤ (form_of name).high }
{
    numbers[0]
}

// The first number of an instruction, or the default where it has none.
fn first_number_or(name: Name, numbers: &[u128], default: u128) -> u128
    requires form { is_in_form name numbers.now ≡ true }
    requires low { (form_of name).low ≤ default }
    requires high { default ≤ (form_of name).high }
    ensures value { result ≡ first_or default numbers.now }
    ensures low { (form_of name).low ≤ result }
    ensures high { result ≤ (form_of name).high }
{
    match numbers {
        [first, ..] => *first,
        [] => default,
    }
}

// The address of a local, less the frame pointer.
fn add_local(items: &mut Items, locals: u32, number: u128) -> Result<(), Memory>
    requires { number < locals }
    ensures { OnOk result (items.new ≡ items.old ++ local locals number ∷ []) }
{
    let behind = u64::from(locals) - number as u64;
    items.push(literal(element(PRIME - behind)))
}

// One or two numbers that must be of 32 bits.
fn add_assert_u32(items: &mut Items, numbers: &[u128]) -> Result<(), Memory>
    ensures { OnOk result (items.new ≡ items.old ++ plain (assert_u32 numbers.now)) }
{
    match numbers {
        [] => add_plain(items, &[Op::Pad, Op::U32Assert2, Op::Drop]),
        [..] => add_plain(items, &[Op::U32Assert2]),
    }
}

// 2 to the power of the number, or of the top where no number is given.
fn add_two_to(items: &mut Items, numbers: &[u128]) -> Result<(), Memory>
    requires { first numbers.now ≤ 31 }
    ensures { OnOk result (items.new ≡ items.old ++ two_to numbers.now) }
{
    match numbers {
        [] => add_pow2(items),
        [amount, ..] => add_power(items, *amount as u32),
    }
}

// 2 to the power of 32 less the number, for a rotation to the right.
fn add_rotation(items: &mut Items, amount: u128) -> Result<(), Memory>
    requires { amount ≤ 31 }
    ensures { OnOk result (items.new ≡ items.old ++ push_item (2 ^ ((32 - amount) % 32)) ∷ []) }
{
    add_power(items, (32 - amount as u32) % 32)
}

// 1, and then the power of the operand by its exponent's digits.
fn add_exp(items: &mut Items, exponent: u128) -> Result<(), Memory>
    requires { exponent < prime }
    ensures { OnOk result (items.new ≡ items.old ++ lit 1 ∷ plain (exp_digits 64 exponent)) }
{
    add_push(items, 1)?;
    add_digits(items, exponent as u64)?;
    Ok(())
}

// The front of `is_odd`.
fn add_halving(items: &mut Items) -> Result<(), Memory>
    ensures { OnOk result (items.new ≡ items.old ++ (plain (ops.U32Split ∷ ops.Drop ∷ []) ++ push_item 2 ∷ [])) }
{
    add_plain(items, &[Op::U32Split, Op::Drop])?;
    add_push(items, 2)?;
    Ok(())
}

// What the numbers of an instruction decide.
#[tactic(auto, unfolding(crate::specs::Expansion::front), using(crate::proofs::Fronts::front_plain))]
fn add_front(items: &mut Items, name: Name, numbers: &[u128], locals: u32) -> Result<(), Memory>
    requires form { is_in_form name numbers.now ≡ true }
    requires local { names_local name ≡ true → first numbers.now < locals }
    ensures { OnOk result (items.new ≡ items.old ++ front name numbers.now locals) }
{
    match name {
        Name::Exp => add_exp(items, first_number(name, numbers)),
        Name::Pow2 => add_pow2(items),
        Name::IsOdd => add_halving(items),
        Name::U32Assert => add_assert_u32(items, numbers),
        Name::U32CheckedNot => add_push(items, 4294967295),
        Name::U32CheckedShl | Name::U32CheckedShr | Name::U32CheckedRotl => {
            add_two_to(items, numbers)
        }
        Name::U32CheckedRotr => add_rotation(items, first_number(name, numbers)),
        Name::Dup => add_dup(items, first_number_or(name, numbers, 0)),
        Name::Dupw => add_dupw(items, first_number_or(name, numbers, 0)),
        Name::Movup => add_movup(items, first_number(name, numbers)),
        Name::Movdn => add_movdn(items, first_number(name, numbers)),
        Name::Swap => add_swap(items, first_number_or(name, numbers, 1)),
        Name::Swapw => add_swapw(items, first_number_or(name, numbers, 1)),
        Name::Movupw => add_movupw(items, first_number(name, numbers)),
        Name::Movdnw => add_movdnw(items, first_number(name, numbers)),
        Name::AdvPush => add_times(items, first_number(name, numbers), Op::AdvPop),
        Name::Locaddr | Name::LocLoad | Name::LocLoadw | Name::LocStore | Name::LocStorew =>
            add_local(items, locals, first_number(name, numbers)),
        _ => add_literals(items, numbers),
    }
}

// The operations of an instruction: its front, and those that stand last.
#[tactic(auto, unfolding(crate::specs::Expansion::expansion))]
fn add_expansion(items: &mut Items, instr: &Instr, locals: u32) -> Result<(), Memory>
    requires { HasLocal instr.now locals }
    ensures items { OnOk result (items.new ≡ items.old ++ expansion instr.now.name instr.now.numbers locals) }
    ensures form { IsInForm instr.now }
{
    add_front(items, instr.name(), instr.numbers(), locals)?;
    add_plain(items, instr.name().last_operations())
}

/// The operations that an instruction stands for, in a procedure of so many locals. There is at
/// least one, and each can be packed into a batch.
pub fn expand(alloc: Global, instr: &Instr, locals: u32) -> Result<Items, Memory>
    requires { HasLocal instr.now locals }
    ensures items { IfOk result (λ items. items ≡ expansion instr.now.name instr.now.numbers locals) }
    ensures packable { IfOk result (λ items. ArePackable items) }
{
    let mut items = Items::new(alloc);
    add_expansion(&mut items, instr, locals)?;
    Ok(items)
}

/// Numbers in form, and a local that is one of so many, give at least one operation, each of which
/// can be packed into a batch.
pub fn expansions_are_packable()
    ensures { ExpansionsArePackable }
{}
