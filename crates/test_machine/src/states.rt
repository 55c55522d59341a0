use std::alloc::Global;
use std::test::Fail;
use vm_field::{Felt, Felts, Memory, Word, Words};
use vm_state::{Inputs, State, Statement, types_cross};

fn element(number: u64) -> Felt {
    Felt::try_from_u64(number).unwrap_or(Felt::ZERO)
}

// The elements from one number up to before another.
fn counted(alloc: Global, from: u64, to: u64) -> Result<Felts, Memory> {
    let mut elements = Felts::new(alloc);
    for number in from..to {
        elements.push(element(number))?;
    }
    Ok(elements)
}

// A state whose stack is 1 to 16 and whose tape is 21, 22, 23.
fn started(alloc: Global) -> Result<State, Memory> {
    let stack = counted(alloc, 1, 17)?;
    let advice = counted(alloc, 21, 24)?;
    if 16 < stack.len() || 1048576 < advice.len() {
        return Err(Memory::Memory);
    }
    State::start(alloc, &Inputs::new(stack, advice))
}

fn is_at_start(state: &State) -> bool {
    state.clock == 0
        && state.context == 0
        && state.fmp == element(1073741824)
        && !state.in_syscall
        && state.digest == Word::ZERO
        && state.nesting == 0
}

// Whether a state has this depth, and these as its first and its sixteenth cell.
fn shows(state: &State, depth: usize, first: u64, last: u64) -> bool {
    let cells = state.visible();
    let (top, sixteenth) = (cells[0], cells[15]);
    state.depth() == depth && top == element(first) && sixteenth == element(last)
}

#[test]
fn starts(rt: HostRuntime) -> Result<(), Fail> {
    let state = started(rt.alloc())?;
    assert!(rt; is_at_start(&state));
    assert!(rt; shows(&state, 16, 1, 16));
    assert!(rt; state.word_at(0, 0) == [Felt::ZERO; 4] && state.advice_left() == 3);
    Ok(())
}

// Whether a state has exactly these two cells below the sixteenth.
fn has_below(state: &State, first: u64, second: u64) -> bool {
    state.depth() == 18 && state.peek(16) == element(first) && state.peek(17) == element(second)
}

fn hides_cells(alloc: Global) -> Result<bool, Memory> {
    let mut state = started(alloc)?;
    // at depth 16 a zero comes in
    state.drop_top();
    let drops = shows(&state, 16, 2, 0);
    state.push(element(31))?;
    state.push(element(32))?;
    state.set(15, element(33));
    let pushes = state.depth() == 18;
    let hidden = state.hide()?;
    let hides = hidden.as_slice() == [element(16), Felt::ZERO].as_slice();
    if state.depth() != 16 {
        return Ok(false);
    }
    state.restore(&hidden)?;
    Ok(drops && pushes && hides && shows(&state, 18, 32, 33) && has_below(&state, 16, 0))
}

fn sets_cells_aside(alloc: Global) -> Result<bool, Memory> {
    let mut state = started(alloc)?;
    state.push(element(31))?;
    state.push(element(32))?;
    let aside = state.set_aside();
    if state.depth() != 16 {
        return Ok(false);
    }
    state.drop_top();
    state.bring_back(aside);
    // behind the zero that came in
    Ok(shows(&state, 18, 31, 0) && has_below(&state, 15, 16))
}

#[test]
fn keeps_cells(rt: HostRuntime) -> Result<(), Fail> {
    assert!(rt; hides_cells(rt.alloc())?);
    assert!(rt; sets_cells_aside(rt.alloc())?);
    Ok(())
}

fn stores_words(alloc: Global) -> Result<bool, Memory> {
    let mut state = started(alloc)?;
    let word = [element(1), element(2), element(3), element(4)];
    state.store(7, 4294967295, word)?;
    let stores = state.word_at(7, 4294967295) == word;
    let leaves = state.word_at(4294967295, 7) == [Felt::ZERO; 4];
    state.store(7, 4294967295, [Felt::ONE; 4])?;
    Ok(stores && leaves && state.word_at(7, 4294967295) == [Felt::ONE; 4])
}

fn takes_advice(alloc: Global) -> Result<bool, Memory> {
    let mut state = started(alloc)?;
    let seen = 2 < state.advice_left() && state.advice_at(2) == element(23);
    let first = state.next_advice() == Some(element(21));
    let second = state.next_advice() == Some(element(22));
    let third = state.next_advice() == Some(element(23));
    let ends = state.next_advice().is_none() && state.advice_left() == 0;
    Ok(seen && first && second && third && ends)
}

#[test]
fn keeps_words_and_the_tape(rt: HostRuntime) -> Result<(), Fail> {
    assert!(rt; stores_words(rt.alloc())?);
    assert!(rt; takes_advice(rt.alloc())?);
    Ok(())
}

#[test]
fn holds_a_statement(rt: HostRuntime) -> Result<(), Fail> {
    let outputs = counted(rt.alloc(), 1, 17)?;
    assert!(rt; outputs.len() == 16);
    let statement = Statement::new(
        Word::ZERO,
        Words::new(rt.alloc()),
        Felts::new(rt.alloc()),
        outputs,
    );
    assert_eq!(rt; statement.outputs.len(), 16);
    assert_eq!(rt; statement.kernel.len(), 0);
    types_cross();
    Ok(())
}
