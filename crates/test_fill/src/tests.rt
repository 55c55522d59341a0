ghost use Rattle.vm_state.specs.Views.{core_of};
ghost use Rattle.machine_cycles.specs.Events.{visible_of};
ghost use Rattle.processor.specs.Executed.{WasExecuted};
ghost use Rattle.complete_rows.specs.Numbers.{HasSmallNumbers};

use air_kit::Requests;
use block_tree::{Exports, Program, Tree, Trees, are_distinct, dynamic};
use fill_main::fill_main;
use machine_cycles::Stop;
use op_pack::Batches;
use processor::{Run, execute};
use rpo_hash::{Params, known_constants};
use std::alloc::Global;
use vm_field::{Felt, Felts, Memory, Words};
use vm_ops::{Op, opcode};
use vm_state::Inputs;
use vm_table::{Table, View};

/// Constants that are all 0.
pub const NO_CONSTANTS: Params = Params {
    first: [[Felt::ZERO; 12]; 7],
    second: [[Felt::ZERO; 12]; 7],
};

// The cell of a row and a column, if there is one.
fn cell(table: &Table<65>, row: usize, column: usize) -> Option<u64> {
    if row < table.rows() && column < 65 {
        Some(table.row(row).cell(column).value())
    } else {
        None
    }
}

/// A span of one group, and the immediates behind it.
pub fn span(alloc: Global, ops: &[Op], numbers: &[u32]) -> Result<Tree, Memory> {
    let mut number: u64 = 0;
    for op in ops.iter().rev() {
        number = number
            .wrapping_mul(128)
            .wrapping_add(u64::from(opcode(*op)));
    }
    let mut batch = [Felt::reduced(u128::from(number)); 8];
    for i in 0..7 {
        batch[1 + i] = Felt::from_u32(numbers.get(i).copied().unwrap_or(0));
    }
    Ok(Tree::Span(Batches::of(alloc, batch)?))
}

/// The program of a tree, with no kernel.
pub fn program(alloc: Global, tree: Tree) -> Result<Program, Memory> {
    program_over(alloc, Words::new(alloc), tree)
}

/// The program of a tree over a kernel.
pub fn program_over(alloc: Global, kernel: Words, tree: Tree) -> Result<Program, Memory> {
    if kernel.len() > 255 || !are_distinct(kernel.as_slice()) {
        return Err(Memory::Memory);
    }
    Ok(Program::new(tree, kernel, Exports::new(alloc)))
}

/// The inputs of a stack of so many ones, and of no advice.
pub fn inputs_of_ones(alloc: Global, ones: usize) -> Result<Inputs, Memory> {
    let mut stack = Felts::new(alloc);
    for _ in 0..ones {
        stack.push(Felt::ONE)?;
    }
    if stack.len() > Inputs::MOST_STACK {
        return Err(Memory::Memory);
    }
    Ok(Inputs::new(stack, Felts::new(alloc)))
}

// A program whose main table is filled.
#[derive(Clone, Copy)]
enum Case {
    NoOperation,
    Pushes,
    Loop,
    Dynamic,
    Limbs,
    Bits,
    Accesses,
}

// A loop round a span of no operation.
fn repeated(alloc: Global) -> Result<Tree, Memory> {
    let body = span(alloc, &[Op::Noop], &[])?;
    Ok(Tree::Loop(Box::new(alloc, body)?))
}

fn joined(alloc: Global, first: Tree, second: Tree) -> Result<Tree, Memory> {
    Ok(Tree::Join(Box::new(alloc, first)?, Box::new(alloc, second)?))
}

// A span of no operation. Under constants that are all 0 its digest is the word of zeros.
fn target(alloc: Global) -> Result<Trees, Memory> {
    let mut targets = Trees::new(alloc);
    targets.push(span(alloc, &[Op::Noop], &[])?)?;
    Ok(targets)
}

// That digest is pushed, a dynamic block runs the span, and the digest is dropped.
fn chosen(alloc: Global) -> Result<Tree, Memory> {
    let pushed = span(alloc, &[Op::Pad; 4], &[])?;
    let run = joined(alloc, pushed, dynamic(target(alloc)?))?;
    joined(alloc, run, span(alloc, &[Op::Drop; 4], &[])?)
}

fn tree(alloc: Global, case: Case) -> Result<Tree, Memory> {
    match case {
        Case::NoOperation => span(alloc, &[Op::Noop], &[]),
        Case::Pushes => span(alloc, &[Op::Push, Op::Push, Op::Add, Op::Push], &[2, 3, 7]),
        Case::Loop => repeated(alloc),
        Case::Dynamic => chosen(alloc),
        Case::Limbs => span(alloc, &[Op::Push, Op::Push, Op::U32Sub], &[65541, 196610]),
        Case::Bits => span(alloc, &[Op::Push, Op::Push, Op::U32And], &[12, 10]),
        Case::Accesses => span(alloc, &[Op::Push, Op::Push, Op::MStore], &[7, 3]),
    }
}

// What is known of the numbers of a run that was executed. A run does nothing.
fn known_numbers(params: &Params, _program: &Program, _run: &Run)
    requires { WasExecuted params.now _program.now _run.now }
    ensures { HasSmallNumbers (visible_of (core_of _run.now.state)) _run.now.events }
{
    known_constants(params);
}

/// The main table of a program's run from so many ones, and what it asks.
pub fn filled(
    alloc: Global,
    program: &Program,
    ones: usize,
) -> Result<(Table<65>, Requests), Stop> {
    let inputs = inputs_of_ones(alloc, ones)?;
    let mut run = execute(alloc, &NO_CONSTANTS, program, &inputs, 100)?;
    known_numbers(&NO_CONSTANTS, program, &run);
    Ok(fill_main(alloc, &mut run.permutations, &run.state, &run.events)?)
}

// The loop is entered for the first one, and its body runs again for the second.
fn case_filled(alloc: Global, case: Case) -> Result<(Table<65>, Requests), Stop> {
    let ones = if let Case::Loop = case { 2 } else { 0 };
    filled(alloc, &program(alloc, tree(alloc, case)?)?, ones)
}

/// A row, a column and the cell there.
pub type Cell = (usize, usize, u64);

// A row of a table is a line: its number, and the columns and values of some of its cells.
macro_rules! cells {
    ($($row:literal: $($column:literal = $value:literal)*;)*) => {
        [$($(($row, $column, $value)),*),*]
    };
}

pub(crate) use cells;

static EMPTY: [Cell; 12] = cells! {
    0: 8=0 9=1 50=0;
    1: 0=1 8=1 24=1 49=1;
    2: 16=0 21=1;
    3: 0=3 8=0 46=16;
};

// A span that pushes: its address and the place in the group, keys, and what is left of the group.
static PUSHED: [Cell; 12] = cells! {
    0: 27=0 28=1;
    1: 25=3;
    2: 25=2 26=1;
    3: 46=18 47=2;
    4: 47=1;
    5: 30=7 31=5 47=4 16=0;
};

/// Whether these cells stand in a table.
pub fn shows(table: &Table<65>, cells: &[Cell]) -> bool {
    let mut all = true;
    for (row, column, value) in cells {
        all = all && cell(table, *row, *column) == Some(*value);
    }
    all
}

// A loop whose body runs twice: the turn behind the first one, the blocks that are open, their
// addresses, and what END says of the block.
static REPEATED: [Cell; 14] = cells! {
    0: 51=1 50=0;
    1: 8=1;
    2: 8=9 49=9 50=2;
    3: 21=1;
    4: 8=1 49=0;
    6: 8=17 51=0;
    8: 20=1 50=1;
    9: 8=0;
};

// A dynamic block at address 25 and the span that it runs at 33: its bits spell 80, its hash is zeros,
// and its END says nothing of the block.
static CHOSEN: [Cell; 14] = cells! {
    8: 8=9 13=1 15=1 16=0 23=0 24=0 50=2;
    9: 8=25 50=3;
    10: 8=33 49=33;
    11: 21=1;
    12: 8=25 21=0;
};

// A subtraction of 196610 from 65541: the limbs of both and of what is left.
static SUBTRACTED: [Cell; 7] = cells! {
    3: 55=2 56=3 57=5 58=1 59=3 60=65534 61=0;
};

fn fills_no_operation(table: &Table<65>, requests: &Requests) -> bool {
    let asked = requests.perms.len() == 1 && requests.ranges.as_slice() == [1023].as_slice();
    table.rows() == 4 && asked && requests.keys.is_empty() && shows(table, &EMPTY)
}

fn fills_pushes(table: &Table<65>, requests: &Requests) -> bool {
    let keys = requests.keys.as_slice() == [Felt::from_u32(4), Felt::ONE].as_slice();
    table.rows() == 8 && keys && shows(table, &PUSHED)
}

fn fills_loop(table: &Table<65>, requests: &Requests) -> bool {
    let ranges = requests.ranges.as_slice() == [1023, 1022, 1022].as_slice();
    let asked = ranges && requests.perms.len() == 3;
    table.rows() == 10 && asked && shows(table, &REPEATED)
}

// The fourth permutation is that of the dynamic block's hash: of the domain 80 and eight zeros.
fn fills_dynamic(table: &Table<65>, requests: &Requests) -> bool {
    let hashed = match requests.perms.as_slice() {
        [_, _, _, perm, _, _] => {
            let start = &perm.start;
            (start[1].value(), start[4].value(), start[11].value()) == (80, 0, 0)
        }
        _ => false,
    };
    let ranges = requests.ranges.as_slice() == [1023, 1022, 1021, 1021, 1020, 1022].as_slice();
    table.rows() == 22 && hashed && ranges && shows(table, &CHOSEN)
}

fn fills_limbs(table: &Table<65>, requests: &Requests) -> bool {
    let ranges = requests.ranges.as_slice() == [1023, 2, 3, 5, 1, 3, 65534].as_slice();
    ranges && shows(table, &SUBTRACTED)
}

fn asks_bits(requests: &Requests) -> bool {
    match requests.bits.as_slice() {
        [op] => !op.xor && op.a == 10 && op.b == 12,
        _ => false,
    }
}

// The number 7 is stored at the address 3, in the cycle at clock 3.
fn asks_accesses(requests: &Requests) -> bool {
    match requests.accesses.as_slice() {
        [access] => {
            access.kind == 2
                && access.addr == 3
                && access.clk == 3
                && access.word == [Felt::from_u32(7), Felt::ZERO, Felt::ZERO, Felt::ZERO]
        }
        _ => false,
    }
}

fn is_right(case: Case, table: &Table<65>, requests: &Requests) -> bool {
    match case {
        Case::NoOperation => fills_no_operation(table, requests),
        Case::Pushes => fills_pushes(table, requests),
        Case::Loop => fills_loop(table, requests),
        Case::Dynamic => fills_dynamic(table, requests),
        Case::Limbs => fills_limbs(table, requests),
        Case::Bits => asks_bits(requests),
        Case::Accesses => asks_accesses(requests),
    }
}

// Whether the main table of the case is filled right, and asks what it should. The tables and the
// requests are owned here alone, since a proof pays for each owner.
fn is_met(alloc: Global, case: Case) -> bool {
    match case_filled(alloc, case) {
        Ok((table, requests)) => is_right(case, &table, &requests),
        Err(_) => false,
    }
}

#[test]
fn fills_rows(rt: HostRuntime) {
    assert!(rt; is_met(rt.alloc(), Case::NoOperation));
    assert!(rt; is_met(rt.alloc(), Case::Pushes));
}

#[test]
fn fills_turns_and_limbs(rt: HostRuntime) {
    assert!(rt; is_met(rt.alloc(), Case::Loop));
    assert!(rt; is_met(rt.alloc(), Case::Limbs));
}

#[test]
fn fills_dynamic_blocks(rt: HostRuntime) {
    assert!(rt; is_met(rt.alloc(), Case::Dynamic));
}

#[test]
fn asks_small_tables(rt: HostRuntime) {
    assert!(rt; is_met(rt.alloc(), Case::Bits));
    assert!(rt; is_met(rt.alloc(), Case::Accesses));
}
