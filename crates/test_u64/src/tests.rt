ghost use Rattle.std.specs.Prelude.{IsTrue};
ghost use Rattle.vm_ops.specs.Codes.{is_ordinary_op};
ghost use Rattle.vm_ops.specs.Items.{IsOrdinaryItem};

use op_steps::{StepStop, step};
use rpo_hash::Params;
use std::alloc::Global;
use std_u64::{U64Procedure, by_name, procedure};
use vm_field::{Felt, Felts, Memory};
use vm_ops::{Cause, Item, Op, is_ordinary};
use vm_state::{Inputs, State};

// Each procedure with its name in a source.
const PROCEDURES: [(U64Procedure, &[u8]); 11] = [
    (U64Procedure::OverflowingAdd, b"u64_overflowing_add"),
    (U64Procedure::WrappingAdd, b"u64_wrapping_add"),
    (U64Procedure::CheckedAdd, b"u64_checked_add"),
    (U64Procedure::OverflowingSub, b"u64_overflowing_sub"),
    (U64Procedure::WrappingSub, b"u64_wrapping_sub"),
    (U64Procedure::CheckedSub, b"u64_checked_sub"),
    (U64Procedure::Lt, b"u64_lt"),
    (U64Procedure::Gte, b"u64_gte"),
    (U64Procedure::Gt, b"u64_gt"),
    (U64Procedure::Lte, b"u64_lte"),
    (U64Procedure::Eq, b"u64_eq"),
];

// Numbers at the bounds of limbs, and some whose limbs borrow and carry apart.
const NUMBERS: [u64; 10] = [
    0,
    1,
    0xffff_ffff,
    0x1_0000_0000,
    0x1_0000_0001,
    0x8000_0000_0000_0000,
    0x7fff_ffff_ffff_ffff,
    0x0123_4567_89ab_cdef,
    0xffff_ffff_0000_0000,
    0xffff_ffff_ffff_ffff,
];

// The cells below the two numbers.
const BELOW: [u64; 2] = [7, 8];

// What replaces the two numbers: a truth value, a number, or a truth value on top of a number.
#[derive(Clone, Copy)]
struct Left {
    bit: Option<bool>,
    number: Option<u64>,
}

fn bit(bit: bool) -> Option<Left> {
    Some(Left {
        bit: Some(bit),
        number: None,
    })
}

fn number(number: u64) -> Option<Left> {
    Some(Left {
        bit: None,
        number: Some(number),
    })
}

fn both(number: u64, bit: bool) -> Option<Left> {
    Some(Left {
        bit: Some(bit),
        number: Some(number),
    })
}

fn checked(value: Option<u64>) -> Option<Left> {
    match value {
        Some(value) => number(value),
        None => None,
    }
}

// What the host's numbers say; nothing where a result is out of range.
fn expected(procedure: U64Procedure, b: u64, a: u64) -> Option<Left> {
    match procedure {
        U64Procedure::OverflowingAdd => {
            let (sum, carry) = a.overflowing_add(b);
            both(sum, carry)
        }
        U64Procedure::WrappingAdd => number(a.wrapping_add(b)),
        U64Procedure::CheckedAdd => checked(a.checked_add(b)),
        U64Procedure::OverflowingSub => {
            let (difference, borrow) = a.overflowing_sub(b);
            both(difference, borrow)
        }
        U64Procedure::WrappingSub => number(a.wrapping_sub(b)),
        U64Procedure::CheckedSub => checked(a.checked_sub(b)),
        U64Procedure::Lt => bit(a < b),
        U64Procedure::Gte => bit(a >= b),
        U64Procedure::Gt => bit(a > b),
        U64Procedure::Lte => bit(a <= b),
        U64Procedure::Eq => bit(a == b),
    }
}

fn cell_below(place: usize) -> u64 {
    match BELOW.get(place) {
        Some(cell) => *cell,
        None => 0,
    }
}

fn cell_of_number(number: Option<u64>, place: usize) -> u64 {
    match number {
        None => cell_below(place),
        Some(value) if place == 0 => value >> 32,
        Some(value) if place == 1 => value & 0xffff_ffff,
        Some(_) => cell_below(place.saturating_sub(2)),
    }
}

fn cell_left(left: Left, place: usize) -> u64 {
    match left.bit {
        None => cell_of_number(left.number, place),
        Some(bit) if place == 0 => u64::from(bit),
        Some(_) => cell_of_number(left.number, place.saturating_sub(1)),
    }
}

fn is_left(left: Left, state: &State) -> bool {
    if state.depth() != 16 {
        return false;
    }
    for place in 0..state.depth() {
        if state.peek(place).value() != cell_left(left, place) {
            return false;
        }
    }
    true
}

// The permutation with no constants; no procedure hashes.
fn params() -> Params {
    Params {
        first: [[Felt::ZERO; 12]; 7],
        second: [[Felt::ZERO; 12]; 7],
    }
}

fn started(alloc: Global, limbs: &[u64; 4]) -> Result<State, Memory> {
    let mut stack = Felts::new(alloc);
    for limb in limbs {
        stack.push(Felt::reduced(u128::from(*limb)))?;
    }
    for cell in &BELOW {
        stack.push(Felt::reduced(u128::from(*cell)))?;
    }
    if stack.len() > 16 {
        return Err(Memory::Memory);
    }
    State::start(alloc, &Inputs::new(stack, Felts::new(alloc)))
}

fn same(item: &Item) -> Item
    requires { IsTrue (is_ordinary_op item.now.op) }
    ensures { IsOrdinaryItem result }
{
    if item.op == Op::Push {
        let value = item.imm.unwrap_or(Felt::ZERO);
        let _ = value.value();
        Item::push(value)
    } else {
        Item::plain(item.op)
    }
}

// The operations step by step, up to the first trap.
fn perform(alloc: Global, items: &[Item], state: &mut State) -> Result<(), StepStop> {
    let params = params();
    for item in items {
        if !is_ordinary(item.op) || state.clock > 524287 {
            return Err(StepStop::Memory);
        }
        step(alloc, &params, &same(item), state)?;
    }
    Ok(())
}

// The state behind a procedure, from the four limbs on top of the stack.
fn run(alloc: Global, of: U64Procedure, limbs: &[u64; 4]) -> Result<State, StepStop> {
    let Ok(items) = procedure(alloc, of) else {
        return Err(StepStop::Memory);
    };
    let Ok(mut state) = started(alloc, limbs) else {
        return Err(StepStop::Memory);
    };
    perform(alloc, items.as_slice(), &mut state)?;
    if state.clock as usize != items.len() {
        return Err(StepStop::Memory);
    }
    Ok(state)
}

fn is_met(alloc: Global, of: U64Procedure, b: u64, a: u64) -> bool {
    let limbs = [b >> 32, b & 0xffff_ffff, a >> 32, a & 0xffff_ffff];
    match (run(alloc, of, &limbs), expected(of, b, a)) {
        (Ok(state), Some(left)) => is_left(left, &state),
        (Err(StepStop::Trap(cause)), None) => cause == Cause::AssertFailed,
        _ => false,
    }
}

fn all_met(alloc: Global, of: U64Procedure) -> bool {
    for b in NUMBERS {
        for a in NUMBERS {
            if !is_met(alloc, of, b, a) {
                return false;
            }
        }
    }
    true
}

#[test]
fn computes_as_the_host_does(rt: HostRuntime) {
    for (of, _) in PROCEDURES {
        assert!(rt; all_met(rt.alloc(), of));
    }
}

fn traps(alloc: Global, of: U64Procedure, limbs: &[u64; 4]) -> bool {
    match run(alloc, of, limbs) {
        Err(StepStop::Trap(cause)) => cause == Cause::NotU32,
        _ => false,
    }
}

// Each limb in turn is 2^32, or the greatest element.
fn all_trap(alloc: Global, of: U64Procedure) -> bool {
    for wide in [0x1_0000_0000, 0xffff_ffff_0000_0000] {
        if !traps(alloc, of, &[wide, 1, 2, 3])
            || !traps(alloc, of, &[1, wide, 2, 3])
            || !traps(alloc, of, &[1, 2, wide, 3])
            || !traps(alloc, of, &[1, 2, 3, wide])
        {
            return false;
        }
    }
    true
}

#[test]
fn wide_limbs_trap(rt: HostRuntime) {
    for (of, _) in PROCEDURES {
        assert!(rt; all_trap(rt.alloc(), of));
    }
}

#[test]
fn names_are_found(rt: HostRuntime) {
    for (of, name) in PROCEDURES {
        assert!(rt; of.name() == name);
        assert!(rt; by_name(name) == Some(of));
    }
    assert!(rt; by_name(b"u64_add").is_none());
    assert!(rt; by_name(b"").is_none());
}
