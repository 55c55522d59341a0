ghost use Rattle.std.specs.Prelude.{◌≡◌, ◌≤◌, IsTrue};
ghost use Rattle.vm_ops.specs.Codes.{is_ordinary_op};
ghost use Rattle.vm_ops.specs.Items.{IsOrdinaryItem};

use op_steps::{StepStop, is_quiet, step, step_quiet};
use rpo_hash::Params;
use std::alloc::Global;
use std::process::Abort;
use vm_field::{Felt, Felts, Memory, Word};
use vm_ops::{Cause, Item, Op, is_ordinary};
use vm_state::{Inputs, State};

mod rows;

use rows::{
    BITS, Besides, COPIES, FIELD, Gives, INSIDE, MEMORY, MOVES, NINETEEN, NO_TAPE, OUTSIDE,
    PERMUTATION, Row, SIXTEEN, THREE_LEFT, WORDS,
};

/// Where a row's operation starts: so many cells on the stack and elements of the tape.
#[derive(Clone, Copy)]
struct At {
    depth: usize,
    tape: usize,
    in_syscall: bool,
}

// Sixteen cells, with a zero to come in below.
const SHALLOW: At = At {
    depth: 16,
    tape: 6,
    in_syscall: true,
};

const DEEP: At = At {
    depth: 19,
    tape: 6,
    in_syscall: false,
};

const CONTEXT: u32 = 2;

fn felt(number: u64) -> Felt {
    Felt::reduced(u128::from(number))
}

// A word of a number and those that come next.
fn word_from(first: u64) -> [Felt; 4] {
    [
        felt(first),
        felt(first.wrapping_add(1)),
        felt(first.wrapping_add(2)),
        felt(first.wrapping_add(3)),
    ]
}

// Round constants that all differ.
fn constants(from: u64) -> [[Felt; 12]; 7] {
    let mut constants = [[Felt::ZERO; 12]; 7];
    for k in 0..7 {
        for i in 0..12 {
            let number = u128::from(from) + 1000 * k as u128 + i as u128;
            constants[k][i] = Felt::reduced(number);
        }
    }
    constants
}

// The element of the tape that comes after so many others.
fn advice_after(taken: usize) -> u64 {
    31 + (taken % 100) as u64
}

// The cell of the stack below so many others, of so many.
fn cell_below(place: usize, depth: usize) -> u64 {
    if place < depth {
        (place as u64).wrapping_add(1)
    } else {
        0
    }
}

// The cell before the row's operation.
fn cell_before(row: &Row, at: &At, cell: usize) -> u64 {
    row.top
        .get(cell)
        .copied()
        .unwrap_or(cell_below(cell, at.depth))
}

fn inputs(alloc: Global, row: &Row, at: &At) -> Result<Inputs, Memory> {
    let mut stack = Felts::new(alloc);
    for j in 0..16 {
        let cell = at.depth.wrapping_sub(16).wrapping_add(j);
        stack.push(felt(cell_before(row, at, cell)))?;
    }
    let mut advice = Felts::new(alloc);
    for taken in 0..at.tape {
        advice.push(felt(advice_after(taken)))?;
    }
    if stack.len() > 16 || advice.len() > 1048576 {
        return Err(Memory::Memory);
    }
    Ok(Inputs::new(stack, advice))
}

fn raise(state: &mut State, row: &Row, at: &At) -> Result<(), Memory> {
    for above in 16..at.depth {
        let cell = at.depth - 1 - above;
        state.push(felt(cell_before(row, at, cell)))?;
    }
    Ok(())
}

// Makes a state that starts the one before the row's operation.
fn prepare(state: &mut State, row: &Row, at: &At) -> Result<(), Memory> {
    raise(state, row, at)?;
    state.clock = 468771;
    state.context = CONTEXT;
    state.fmp = felt(1073741831);
    state.in_syscall = at.in_syscall;
    state.digest = Word(word_from(21));
    state.store(CONTEXT, 5, word_from(11))
}

fn item(op: Op) -> Item
    requires { IsTrue (is_ordinary_op op) }
    ensures ordinary { IsOrdinaryItem result }
    ensures same { result.op ≡ op }
{
    let imm = felt(14948612764677088114);
    let _ = imm.value();
    if op == Op::Push {
        Item::push(imm)
    } else {
        Item::plain(op)
    }
}

// The stack is these cells, and the standard ones below so many that are gone.
fn has_stack(state: &State, cells: &[u64], gone: usize, at: &At) -> bool {
    let below = at.depth.saturating_sub(gone);
    if state.depth() != cells.len().saturating_add(below).max(16) {
        return false;
    }
    for j in 0..state.depth() {
        let wanted = match cells.get(j) {
            Some(cell) => *cell,
            None => cell_below((j - cells.len()).wrapping_add(gone), at.depth),
        };
        if state.peek(j).value() != wanted {
            return false;
        }
    }
    true
}

// The tape is what is left behind so many elements.
fn has_tape(state: &State, taken: usize, at: &At) -> bool {
    if Some(state.advice_left()) != at.tape.checked_sub(taken) {
        return false;
    }
    for j in 0..state.advice_left() {
        if state.advice_at(j).value() != advice_after(j.wrapping_add(taken)) {
            return false;
        }
    }
    true
}

// The word at address 5 of the context.
fn word_behind(besides: &Besides) -> [Felt; 4] {
    match besides {
        Besides::Word([a, b, c, d]) => [felt(*a), felt(*b), felt(*c), felt(*d)],
        _ => word_from(11),
    }
}

// What stands besides the stack is what stood before, but for this.
fn has_rest(state: &State, besides: &Besides, at: &At) -> bool {
    let (fmp, taken) = match besides {
        Besides::Pointer(fmp) => (*fmp, 0),
        Besides::Taken(count) => (1073741831, *count),
        _ => (1073741831, 0),
    };
    has_tape(state, taken, at)
        && (state.context, state.fmp, state.in_syscall) == (CONTEXT, felt(fmp), at.in_syscall)
        && state.digest == Word(word_from(21))
        && state.word_at(CONTEXT, 5) == word_behind(besides)
        && state.word_at(0, 5) == [Felt::ZERO; 4]
}

fn perform(alloc: Global, params: &Params, op: Op, state: &mut State) -> Result<(), StepStop> {
    if !is_ordinary(op) || state.clock > 524287 {
        return Err(StepStop::Memory);
    }
    step(alloc, params, &item(op), state)
}

fn ends_as(gives: &Gives, done: Result<(), StepStop>) -> bool {
    match (gives, done) {
        (Gives::Left(_), Ok(())) => true,
        (Gives::Trap(cause), Err(StepStop::Trap(found))) => *cause == found,
        _ => false,
    }
}

// The state is what the row leaves.
fn is_left(row: &Row, at: &At, state: &State) -> bool {
    let (clock, cells) = match row.gives {
        Gives::Left(cells) => (468772, cells),
        Gives::Trap(_) => (468771, row.top),
    };
    state.clock == clock
        && has_stack(state, cells, row.top.len(), at)
        && has_rest(state, &row.besides, at)
}

fn turns(alloc: Global, params: &Params, row: &Row, at: &At, state: &mut State) -> bool {
    prepare(state, row, at).is_ok()
        && ends_as(&row.gives, perform(alloc, params, row.op, state))
        && is_left(row, at, state)
}

fn started(alloc: Global, row: &Row, at: &At) -> Result<State, Memory> {
    State::start(alloc, &inputs(alloc, row, at)?)
}

// The row's operation gives what was computed outside.
fn is_met(alloc: Global, params: &Params, row: &Row, at: &At) -> bool {
    match started(alloc, row, at) {
        Ok(mut state) => turns(alloc, params, row, at, &mut state),
        Err(_) => false,
    }
}

fn params() -> Params {
    Params {
        first: constants(1),
        second: constants(7),
    }
}

// How many rows come before the first that is not met there.
fn met(alloc: Global, rows: &[Row], at: &At) -> usize {
    let params = params();
    for place in 0..rows.len() {
        if !is_met(alloc, &params, &rows[place], at) {
            return place;
        }
    }
    rows.len()
}

fn check(rt: &impl Abort, alloc: Global, rows: &[Row], at: &At) {
    assert_eq!(rt; met(alloc, rows, at), rows.len());
}

fn check_both(rt: &impl Abort, alloc: Global, rows: &[Row]) {
    check(rt, alloc, rows, &SHALLOW);
    check(rt, alloc, rows, &DEEP);
}

#[test]
fn steps_of_field(rt: HostRuntime) {
    check_both(&rt, rt.alloc(), &FIELD);
}

#[test]
fn steps_of_bits(rt: HostRuntime) {
    check_both(&rt, rt.alloc(), &BITS);
}

#[test]
fn steps_of_words(rt: HostRuntime) {
    check_both(&rt, rt.alloc(), &WORDS);
}

#[test]
fn steps_of_copies(rt: HostRuntime) {
    check_both(&rt, rt.alloc(), &COPIES);
}

#[test]
fn steps_of_moves(rt: HostRuntime) {
    check_both(&rt, rt.alloc(), &MOVES);
}

#[test]
fn steps_of_memory(rt: HostRuntime) {
    check_both(&rt, rt.alloc(), &MEMORY);
}

#[test]
fn steps_of_permutation(rt: HostRuntime) {
    check_both(&rt, rt.alloc(), &PERMUTATION);
}

#[test]
fn steps_in_syscalls(rt: HostRuntime) {
    check(&rt, rt.alloc(), &INSIDE, &SHALLOW);
}

#[test]
fn steps_outside_syscalls(rt: HostRuntime) {
    check(&rt, rt.alloc(), &OUTSIDE, &DEEP);
}

#[test]
fn steps_of_depth(rt: HostRuntime) {
    check(&rt, rt.alloc(), &SIXTEEN, &SHALLOW);
    check(&rt, rt.alloc(), &NINETEEN, &DEEP);
}

#[test]
fn steps_on_short_tapes(rt: HostRuntime) {
    check(&rt, rt.alloc(), &NO_TAPE, &At { tape: 0, ..SHALLOW });
    check(&rt, rt.alloc(), &THREE_LEFT, &At { tape: 3, ..DEEP });
}

// The operation's end, and then the clock and the cell on top.
fn quietly(params: &Params, op: Op, state: &mut State) -> Option<(Result<(), Cause>, u32, u64)> {
    if !is_ordinary(op) || !is_quiet(op) || state.clock > 524287 {
        return None;
    }
    let done = step_quiet(params, &item(op), state);
    Some((done, state.clock, state.visible()[0].value()))
}

fn at_start(alloc: Global) -> Result<State, Memory> {
    State::start(alloc, &Inputs::new(Felts::new(alloc), Felts::new(alloc)))
}

// A quiet operation on the state at the start of a run.
fn quietly_first(alloc: Global, op: Op) -> Option<(Result<(), Cause>, u32, u64)> {
    match at_start(alloc) {
        Ok(mut state) => quietly(&params(), op, &mut state),
        Err(_) => None,
    }
}

#[test]
fn quiet_steps(rt: HostRuntime) {
    let inverse = quietly_first(rt.alloc(), Op::Inv);
    assert!(rt; inverse == Some((Err(Cause::ZeroInverse), 0, 0)));
    assert!(rt; quietly_first(rt.alloc(), Op::Incr) == Some((Ok(()), 1, 1)));
}

#[test]
fn quiet_operations(rt: HostRuntime) {
    assert!(rt; !is_quiet(Op::MStore) && !is_quiet(Op::MStoreW) && !is_quiet(Op::Pad));
}
