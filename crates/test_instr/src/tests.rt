ghost use Rattle.std.specs.Prelude.{◌≤◌, IsTrue};
ghost use Rattle.vm_ops.specs.Codes.{is_ordinary_op};
ghost use Rattle.vm_ops.specs.Items.{IsOrdinaryItem};

use masm_expand::expand;
use masm_instr::Instr;
use masm_reading::{Consts, read_instr};
use op_steps::{StepStop, step};
use rpo_hash::Params;
use std::alloc::Global;
use std::process::Abort;
use vm_field::{Felt, Felts, Memory, Word};
use vm_ops::{Item, Items, Op, is_ordinary};
use vm_state::{Inputs, State};

mod rows;

use rows::{
    BITS, CARRIES, CELLS, DIGEST, FIELD, Gives, ORDER, RANGES, Row, STATES, STORES, SWAPS, TRUTHS,
    UNTOUCHED, WORD_ORDER, WORDS,
};

fn felt(number: u64) -> Felt {
    Felt::reduced(u128::from(number))
}

fn word(numbers: &[u64; 4]) -> [Felt; 4] {
    let [a, b, c, d] = *numbers;
    [felt(a), felt(b), felt(c), felt(d)]
}

// The permutation with no constants.
fn params() -> Params {
    Params {
        first: [[Felt::ZERO; 12]; 7],
        second: [[Felt::ZERO; 12]; 7],
    }
}

// The cell of the stack before the row's instruction, and a zero below them all.
fn cell_before(row: &Row, place: usize) -> u64 {
    match row.top.get(place) {
        Some(cell) => *cell,
        None if place < row.depth => row.base.wrapping_add(place as u64),
        None => 0,
    }
}

// The sixteen cells that the stack starts with.
fn lowest(alloc: Global, row: &Row) -> Result<Felts, Memory> {
    let mut felts = Felts::new(alloc);
    for place in row.depth.saturating_sub(16)..row.depth {
        felts.push(felt(cell_before(row, place)))?;
    }
    Ok(felts)
}

fn tape(alloc: Global, row: &Row) -> Result<Felts, Memory> {
    let mut felts = Felts::new(alloc);
    for element in row.tape.unwrap_or(&[]) {
        felts.push(felt(*element))?;
    }
    Ok(felts)
}

fn inputs(alloc: Global, row: &Row) -> Result<Inputs, Memory> {
    let stack = lowest(alloc, row)?;
    let advice = tape(alloc, row)?;
    if stack.len() > 16 || advice.len() > 16 {
        return Err(Memory::Memory);
    }
    Ok(Inputs::new(stack, advice))
}

fn started(alloc: Global, row: &Row) -> Result<State, Memory> {
    State::start(alloc, &inputs(alloc, row)?)
}

// Pushes the cells that stand above the sixteen of the start.
fn raise(state: &mut State, row: &Row) -> Result<(), Memory> {
    for below in 16..row.depth {
        let place = row.depth - 1 - below;
        state.push(felt(cell_before(row, place)))?;
    }
    Ok(())
}

// Makes a state that starts the one before the row's instruction.
fn prepare(state: &mut State, row: &Row) -> Result<(), Memory> {
    raise(state, row)?;
    state.clock = 9;
    state.context = 3;
    state.fmp = felt(7);
    state.in_syscall = row.in_syscall;
    state.digest = Word(word(&DIGEST));
    state.store(3, 5, word(&UNTOUCHED))
}

// The operations of an instruction in a procedure of two locals; none where it is refused.
fn expanded(alloc: Global, instr: &Instr) -> Option<Items> {
    if instr.name().names_local() && instr.numbers().first().copied().unwrap_or(2) >= 2 {
        return None;
    }
    expand(alloc, instr, 2).ok()
}

fn operations(alloc: Global, token: &[u8]) -> Option<Items> {
    match read_instr(alloc, token, &Consts::new(alloc)) {
        Ok(instr) => expanded(alloc, &instr),
        Err(_) => None,
    }
}

fn same(item: &Item) -> Item
    requires { IsTrue (is_ordinary_op item.now.op) }
    ensures { IsOrdinaryItem result }
{
    if item.op == Op::Push {
        let value = item.imm.unwrap_or(Felt::ZERO);
        let _ = value.value();
        Item::push(value)
    } else {
        Item::plain(item.op)
    }
}

// The operations step by step, up to the first trap.
fn perform(
    alloc: Global,
    params: &Params,
    items: &[Item],
    state: &mut State,
) -> Result<(), StepStop> {
    for item in items {
        if !is_ordinary(item.op) || state.clock > 524287 {
            return Err(StepStop::Memory);
        }
        step(alloc, params, &same(item), state)?;
    }
    Ok(())
}

// The cell that stands behind the instruction.
fn cell_behind(row: &Row, cells: &[u64], place: usize) -> u64 {
    match cells.get(place) {
        Some(cell) => *cell,
        None => cell_before(row, (place - cells.len()).wrapping_add(row.gone)),
    }
}

fn has_cells(row: &Row, cells: &[u64], state: &State) -> bool {
    let below = row.depth.saturating_sub(row.gone);
    if state.depth() != cells.len().saturating_add(below).max(16) {
        return false;
    }
    for place in 0..state.depth() {
        if state.peek(place).value() != cell_behind(row, cells, place) {
            return false;
        }
    }
    true
}

fn has_tape(row: &Row, state: &State) -> bool {
    let tape = row.tape.unwrap_or(&[]);
    let rest = tape.get(row.taken..).unwrap_or(&[]);
    if state.advice_left() != rest.len() {
        return false;
    }
    for j in 0..state.advice_left().min(rest.len()) {
        if state.advice_at(j).value() != rest[j] {
            return false;
        }
    }
    true
}

// The state is what the row leaves, so many operations later.
fn is_left(row: &Row, cells: &[u64], state: &State, operations: usize) -> bool {
    (state.clock as usize).checked_sub(9) == Some(operations)
        && (state.context, state.fmp, state.in_syscall) == (3, felt(7), row.in_syscall)
        && state.digest == Word(word(&DIGEST))
        && state.word_at(3, 5) == word(&row.word)
        && has_cells(row, cells, state)
        && has_tape(row, state)
}

fn ends_as(row: &Row, done: Result<(), StepStop>, state: &State, operations: usize) -> bool {
    match (&row.gives, done) {
        (Gives::Left(cells), Ok(())) => is_left(row, cells, state, operations),
        (Gives::Trap(cause), Err(StepStop::Trap(found))) => *cause == found,
        _ => false,
    }
}

fn turns(alloc: Global, params: &Params, row: &Row, items: &[Item], state: &mut State) -> bool {
    prepare(state, row).is_ok()
        && {
            let done = perform(alloc, params, items, state);
            ends_as(row, done, state, items.len())
        }
}

fn runs(alloc: Global, params: &Params, row: &Row, items: &[Item]) -> bool {
    match started(alloc, row) {
        Ok(mut state) => turns(alloc, params, row, items, &mut state),
        Err(_) => false,
    }
}

// The row's instruction gives what was computed outside.
fn is_met(alloc: Global, params: &Params, row: &Row) -> bool {
    match operations(alloc, row.token) {
        Some(items) => runs(alloc, params, row, items.as_slice()),
        None => false,
    }
}

// How many rows come before the first that is not met.
fn met(alloc: Global, rows: &[Row]) -> usize {
    let params = params();
    for place in 0..rows.len() {
        if !is_met(alloc, &params, &rows[place]) {
            return place;
        }
    }
    rows.len()
}

fn check(rt: &impl Abort, alloc: Global, rows: &[Row]) {
    assert_eq!(rt; met(alloc, rows), rows.len());
}

#[test]
fn computes_in_the_field(rt: HostRuntime) {
    check(&rt, rt.alloc(), &FIELD);
}

#[test]
fn orders_elements(rt: HostRuntime) {
    check(&rt, rt.alloc(), &ORDER);
}

#[test]
fn decides_truth_values(rt: HostRuntime) {
    check(&rt, rt.alloc(), &TRUTHS);
}

#[test]
fn tests_ranges(rt: HostRuntime) {
    check(&rt, rt.alloc(), &RANGES);
}

#[test]
fn computes_with_words(rt: HostRuntime) {
    check(&rt, rt.alloc(), &WORDS);
}

#[test]
fn carries_and_divides(rt: HostRuntime) {
    check(&rt, rt.alloc(), &CARRIES);
}

#[test]
fn turns_bits(rt: HostRuntime) {
    check(&rt, rt.alloc(), &BITS);
}

#[test]
fn orders_words(rt: HostRuntime) {
    check(&rt, rt.alloc(), &WORD_ORDER);
}

#[test]
fn moves_cells(rt: HostRuntime) {
    check(&rt, rt.alloc(), &CELLS);
}

#[test]
fn swaps_cells(rt: HostRuntime) {
    check(&rt, rt.alloc(), &SWAPS);
}

#[test]
fn reads_states(rt: HostRuntime) {
    check(&rt, rt.alloc(), &STATES);
}

#[test]
fn reads_and_writes(rt: HostRuntime) {
    check(&rt, rt.alloc(), &STORES);
}
