use block_tree::{Exports, Program, Tree, Trees, are_distinct, digest};
use machine_cycles::{Event, Events, Stop};
use op_pack::Batches;
use processor::{Progress, Run, advance, execute};
use rpo_hash::Params;
use std::alloc::Global;
use std::process::Abort;
use vm_field::{Felt, Felts, Memory, Word, Words};
use vm_ops::{Op, opcode};
use vm_state::{Inputs, State};

mod advances;
mod logs;
mod parts;
mod rows;

use advances::{Advance, BEFORE_TRAPS, EACH_LIMIT, Reached, Stand, TURNS_CUT};
use logs::{BEFORE, Before, Hash, JOINED, Line, Log, NO_TURN, SERVED, STORED, Shown, TURNS};
use parts::Part;
use rows::{
    BLOCK_TRAPS, BRANCHES, CALLING, CALLS, CUT_OFF, DYNAMIC, ENDLESS, End, Ends, LAST_CYCLE, LOOPS,
    NO_CYCLE, OPERATION_TRAPS, Row, SERVES, SYSCALL_TRAPS, SYSCALLS,
};

// The permutation with no constants.
fn params() -> Params {
    Params {
        first: [[Felt::ZERO; 12]; 7],
        second: [[Felt::ZERO; 12]; 7],
    }
}

fn felt(number: u64) -> Felt {
    Felt::reduced(u128::from(number))
}

fn word(numbers: &[u64; 4]) -> [Felt; 4] {
    let [a, b, c, d] = *numbers;
    [felt(a), felt(b), felt(c), felt(d)]
}

fn felts(alloc: Global, numbers: &[u64]) -> Result<Felts, Memory> {
    let mut felts = Felts::new(alloc);
    for number in numbers {
        felts.push(felt(*number))?;
    }
    Ok(felts)
}

// The element that holds the operations, the first in the lowest bits.
fn packed(ops: &[Op]) -> Felt {
    let mut number: u64 = 0;
    for op in ops.iter().rev() {
        number = number
            .wrapping_mul(128)
            .wrapping_add(u64::from(opcode(*op)));
    }
    felt(number)
}

// The batch of one group, and the immediates behind it.
fn batch(ops: &[Op], immediates: &[u64]) -> [Felt; 8] {
    let mut batch = [packed(ops); 8];
    for i in 1..8 {
        batch[i] = felt(immediates.get(i - 1).copied().unwrap_or(0));
    }
    batch
}

fn latest(trees: &mut Vec<Tree>) -> Result<Tree, Memory> {
    trees.pop().ok_or(Memory::Memory)
}

fn boxed(alloc: Global, trees: &mut Vec<Tree>) -> Result<Box<Tree>, Memory> {
    Ok(Box::new(alloc, latest(trees)?)?)
}

fn with_batch(tree: Tree, ops: &[Op]) -> Result<Tree, Memory> {
    match tree {
        Tree::Span(mut batches) => {
            batches.push(batch(ops, &[]))?;
            Ok(Tree::Span(batches))
        }
        _ => Err(Memory::Memory),
    }
}

// So many joins round a tree, each with an opaque block behind it.
fn deep(alloc: Global, tree: Tree, joins: usize) -> Result<Tree, Memory> {
    let mut tree = tree;
    for _ in 0..joins {
        let first = Box::new(alloc, tree)?;
        tree = Tree::Join(first, Box::new(alloc, Tree::Opaque(Word::ZERO))?);
    }
    Ok(tree)
}

// A dynamic block of so many of the latest trees, in their order.
fn dynamic(alloc: Global, trees: &mut Vec<Tree>, count: usize) -> Result<Tree, Memory> {
    let mut latest_first: Vec<Tree> = Vec::new(alloc);
    for _ in 0..count {
        latest_first.push(latest(trees)?)?;
    }
    let mut targets = Trees::new(alloc);
    for _ in 0..count {
        targets.push(latest(&mut latest_first)?)?;
    }
    Ok(block_tree::dynamic(targets))
}

// The tree of one part round the latest one.
fn of_one(alloc: Global, trees: &mut Vec<Tree>, part: &Part) -> Result<Tree, Memory> {
    let child = boxed(alloc, trees)?;
    Ok(match part {
        Part::Loop => Tree::Loop(child),
        Part::Call => Tree::Call(child),
        _ => Tree::Syscall(child),
    })
}

// The tree of one part round the latest two.
fn of_two(alloc: Global, trees: &mut Vec<Tree>, part: &Part) -> Result<Tree, Memory> {
    let second = boxed(alloc, trees)?;
    let first = boxed(alloc, trees)?;
    Ok(match part {
        Part::Join => Tree::Join(first, second),
        _ => Tree::Split(first, second),
    })
}

// The tree of one part and those that it takes.
fn made(alloc: Global, trees: &mut Vec<Tree>, part: &Part) -> Result<Tree, Memory> {
    match part {
        Part::Span(ops, numbers) => Ok(Tree::Span(Batches::of(alloc, batch(ops, numbers))?)),
        Part::Batch(ops) => with_batch(latest(trees)?, ops),
        Part::Opaque => Ok(Tree::Opaque(Word::ZERO)),
        Part::Join | Part::Split => of_two(alloc, trees, part),
        Part::Loop | Part::Call | Part::Syscall => of_one(alloc, trees, part),
        Part::Deep(joins) => deep(alloc, latest(trees)?, *joins),
        Part::Dynamic(targets) => dynamic(alloc, trees, *targets),
    }
}

fn tree(alloc: Global, parts: &[Part]) -> Result<Tree, Memory> {
    let mut trees: Vec<Tree> = Vec::new(alloc);
    for part in parts {
        let tree = made(alloc, &mut trees, part)?;
        trees.push(tree)?;
    }
    latest(&mut trees)
}

fn digests(alloc: Global, params: &Params, trees: &[&[Part]]) -> Result<Words, Memory> {
    let mut digests = Words::new(alloc);
    for parts in trees {
        let tree = tree(alloc, parts)?;
        digests.push(digest(params, &tree))?;
    }
    Ok(digests)
}

fn program(
    alloc: Global,
    params: &Params,
    parts: &[Part],
    kernel: &[&[Part]],
) -> Result<Program, Memory> {
    let kernel = digests(alloc, params, kernel)?;
    if kernel.len() > 255 || !are_distinct(kernel.as_slice()) {
        return Err(Memory::Memory);
    }
    Ok(Program::new(tree(alloc, parts)?, kernel, Exports::new(alloc)))
}

fn inputs(alloc: Global, stack: &[u64], advice: &[u64]) -> Result<Inputs, Memory> {
    let stack = felts(alloc, stack)?;
    let advice = felts(alloc, advice)?;
    if stack.len() > 16 || advice.len() > 1048576 {
        return Err(Memory::Memory);
    }
    Ok(Inputs::new(stack, advice))
}

fn ran(
    alloc: Global,
    params: &Params,
    row: &Row,
    program: &Program,
    limit: u16,
) -> Result<Run, Stop> {
    let inputs = inputs(alloc, row.stack, row.advice)?;
    execute(alloc, params, program, &inputs, u32::from(limit))
}

fn has_cells(state: &State, cells: &[u64]) -> bool {
    for j in 0..state.depth() {
        if state.peek(j).value() != cells.get(j).copied().unwrap_or(0) {
            return false;
        }
    }
    true
}

// The elements are these numbers, with zeros behind them.
fn are_numbers(elements: &[Felt], numbers: &[u64]) -> bool {
    for i in 0..elements.len() {
        if elements[i].value() != numbers.get(i).copied().unwrap_or(0) {
            return false;
        }
    }
    true
}

// The run took the tape's elements but for so many.
fn took(run: &Run, advice: &[u64], left: usize) -> bool {
    run.state.advice_left() == left
        && run.tape.len().checked_add(left) == Some(advice.len())
        && are_numbers(run.tape.as_slice(), advice)
}

fn has_ended(run: &Run, row: &Row, ends: &Ends) -> bool {
    run.events.len() == ends.cycles
        && run.state.clock as usize == ends.cycles
        && run.state.depth() == ends.depth
        && run.state.nesting == 0
        && has_cells(&run.state, ends.cells)
        && took(run, row.advice, ends.left)
}

fn has_stopped(stop: Stop, end: &End) -> bool {
    match (stop, end) {
        (Stop::Trap { clock, cause }, End::Trap(at, why)) => (clock, cause) == (*at, *why),
        (Stop::OutOfCycles, End::OutOfCycles) => true,
        _ => false,
    }
}

fn is_run(alloc: Global, params: &Params, row: &Row, run: &Run) -> bool {
    match &row.end {
        End::Ends(ends) => has_ended(run, row, ends),
        End::Shows(log, shown) => is_shown(alloc, params, run, log, *shown),
        _ => false,
    }
}

// The program ends as the row says.
fn ends(alloc: Global, params: &Params, row: &Row, program: &Program, limit: u16) -> bool {
    match ran(alloc, params, row, program, limit) {
        Ok(run) => is_run(alloc, params, row, &run),
        Err(stop) => has_stopped(stop, &row.end),
    }
}

fn is_met(alloc: Global, params: &Params, row: &Row, kernel: &[&[Part]], limit: u16) -> bool {
    match program(alloc, params, row.parts, kernel) {
        Ok(program) => ends(alloc, params, row, &program, limit),
        Err(_) => false,
    }
}

// How many rows come before the first that is not met.
fn met(alloc: Global, rows: &[Row], kernel: &[&[Part]], limit: u16) -> usize {
    let params = params();
    for place in 0..rows.len() {
        if !is_met(alloc, &params, &rows[place], kernel, limit) {
            return place;
        }
    }
    rows.len()
}

fn check(rt: &impl Abort, alloc: Global, rows: &[Row], kernel: &[&[Part]], limit: u16) {
    assert_eq!(rt; met(alloc, rows, kernel, limit), rows.len());
}

#[test]
fn runs_spans_and_branches(rt: HostRuntime) {
    check(&rt, rt.alloc(), &BRANCHES, &[], 10000);
}

#[test]
fn runs_loops(rt: HostRuntime) {
    check(&rt, rt.alloc(), &LOOPS, &[], 10000);
}

#[test]
fn runs_dynamic_blocks(rt: HostRuntime) {
    check(&rt, rt.alloc(), &DYNAMIC, &[], 10000);
}

#[test]
fn runs_calls(rt: HostRuntime) {
    check(&rt, rt.alloc(), &CALLS, &[], 10000);
}

#[test]
fn runs_syscalls(rt: HostRuntime) {
    check(&rt, rt.alloc(), &SYSCALLS, &SERVES, 10000);
}

#[test]
fn traps_in_blocks(rt: HostRuntime) {
    check(&rt, rt.alloc(), &BLOCK_TRAPS, &[], 10000);
}

#[test]
fn traps_in_syscalls(rt: HostRuntime) {
    check(&rt, rt.alloc(), &SYSCALL_TRAPS, &CALLING, 10000);
}

#[test]
fn traps_in_operations(rt: HostRuntime) {
    check(&rt, rt.alloc(), &OPERATION_TRAPS, &[], 10000);
}

#[test]
fn ends_at_the_limit(rt: HostRuntime) {
    check(&rt, rt.alloc(), &LAST_CYCLE, &[], 8);
}

#[test]
fn stops_at_limits(rt: HostRuntime) {
    for limit in 0..8 {
        check(&rt, rt.alloc(), &CUT_OFF, &[], limit);
    }
}

#[test]
fn stops_before_a_cycle(rt: HostRuntime) {
    check(&rt, rt.alloc(), &NO_CYCLE, &[], 0);
}

#[test]
fn stops_endless_loops(rt: HostRuntime) {
    check(&rt, rt.alloc(), &ENDLESS, &[], 500);
}

fn advanced(alloc: Global, params: &Params, row: &Advance) -> Result<Progress, Stop> {
    let program = program(alloc, params, row.parts, &[])?;
    let inputs = inputs(alloc, row.stack, row.advice)?;
    advance(alloc, params, &program, &inputs, u32::from(row.limit))
}

fn stands_at(progress: &Progress, stand: &Stand) -> bool {
    let state = &progress.state;
    progress.events.len() == stand.cycles
        && state.clock as usize == stand.cycles
        && state.nesting == stand.open
        && state.depth() == stand.depth
        && state.advice_left() == stand.left
        && has_cells(state, stand.cells)
}

fn has_reached(answer: &Result<Progress, Stop>, reached: &Reached) -> bool {
    match (answer, reached) {
        (Ok(progress), Reached::Done(stand)) => progress.is_done && stands_at(progress, stand),
        (Ok(progress), Reached::Cut(stand)) => !progress.is_done && stands_at(progress, stand),
        (Err(Stop::Trap { clock, cause }), Reached::Trap(at, why)) => {
            (*clock, *cause) == (*at, *why)
        }
        _ => false,
    }
}

// How many rows come before the first that is not met.
fn reached(alloc: Global, rows: &[Advance]) -> usize {
    let params = params();
    for place in 0..rows.len() {
        if !has_reached(
            &advanced(alloc, &params, &rows[place]),
            &rows[place].reached,
        ) {
            return place;
        }
    }
    rows.len()
}

#[test]
fn advances_to_each_limit(rt: HostRuntime) {
    assert_eq!(&rt; reached(rt.alloc(), &EACH_LIMIT), EACH_LIMIT.len());
}

#[test]
fn advances_within_loops(rt: HostRuntime) {
    assert_eq!(&rt; reached(rt.alloc(), &TURNS_CUT), TURNS_CUT.len());
}

#[test]
fn advances_up_to_traps(rt: HostRuntime) {
    assert_eq!(&rt; reached(rt.alloc(), &BEFORE_TRAPS), BEFORE_TRAPS.len());
}

// A digest, and what stands behind it.
fn behind(digest: Word, last: [Felt; 4]) -> [Felt; 8] {
    let [a, b, c, d] = digest.elements();
    let [e, f, g, h] = last;
    [a, b, c, d, e, f, g, h]
}

fn flag(place: usize) -> [Felt; 4] {
    let mut flags = [Felt::ZERO; 4];
    flags[place % 4] = Felt::ONE;
    flags
}

fn digest_at(digests: &[Word], tree: usize) -> Word {
    digests.get(tree).copied().unwrap_or(Word::ZERO)
}

fn hash_of(digests: &[Word], hash: &Hash) -> [Felt; 8] {
    match hash {
        Hash::Nothing => [Felt::ZERO; 8],
        Hash::Batch(ops, numbers) => batch(ops, numbers),
        Hash::Both(first, second) => behind(
            digest_at(digests, *first),
            digest_at(digests, *second).elements(),
        ),
        Hash::One(tree) => behind(digest_at(digests, *tree), [Felt::ZERO; 4]),
        Hash::Flagged(tree, place) => behind(digest_at(digests, *tree), flag(*place)),
    }
}

fn shows(digests: &[Word], event: &Event, line: &Line) -> bool {
    let Line(op, hash, result) = line;
    event.op == *op && event.result.value() == *result && event.hash == hash_of(digests, hash)
}

// Each line is shown by the cycle of its number, and there are no other cycles.
fn shows_lines(digests: &[Word], events: &Events, lines: &[Line]) -> bool {
    let mut shown = events.len() == lines.len();
    for place in 0..lines.len().min(events.len()) {
        shown = shown && shows(digests, &events.event(place), &lines[place]);
    }
    shown
}

fn takes_imm(event: &Event, imm: Option<u64>) -> bool {
    match (event.imm, imm) {
        (Some(element), Some(number)) => element.value() == number,
        (None, None) => true,
        _ => false,
    }
}

// The event stands at this clock, and shows this before its cycle.
fn stands(event: &Event, clock: usize, before: &Before, digest: Word) -> bool {
    let visible = &event.before;
    visible.clock as usize == clock
        && (visible.context, visible.nesting, visible.depth)
            == (before.context, before.nesting, before.depth)
        && (visible.fmp.value(), visible.in_syscall) == (1073741824, false)
        && visible.digest == digest
        && are_numbers(&visible.cells, before.cells)
        && takes_imm(event, before.imm)
        && event.tape == word(&before.tape)
        && event.word == word(&before.word)
}

// Each cycle shows its state, where the callee has its digest.
fn shows_before(callee: Word, events: &Events, states: &[Before]) -> bool {
    let mut shown = events.len() == states.len();
    for clock in 0..states.len().min(events.len()) {
        let before = &states[clock];
        let digest = if before.context == 0 {
            Word::ZERO
        } else {
            callee
        };
        shown = shown && stands(&events.event(clock), clock, before, digest);
    }
    shown
}

// The word stands in the callee's memory alone.
fn keeps_word(run: &Run) -> bool {
    run.state.context == 0
        && run.state.word_at(1, 40) == word(&[11, 12, 13, 14])
        && run.state.word_at(0, 40) == [Felt::ZERO; 4]
        && run.tape.len() == 4
}

fn is_shown_by(digests: &[Word], run: &Run, log: &Log, shown: Shown) -> bool {
    match shown {
        Shown::Lines => shows_lines(digests, &run.events, log.lines),
        Shown::Digest => run.digest == digest_at(digests, 0),
        Shown::Before => shows_before(digest_at(digests, 1), &run.events, &BEFORE),
        Shown::Word => keeps_word(run),
    }
}

fn is_shown(alloc: Global, params: &Params, run: &Run, log: &Log, shown: Shown) -> bool {
    match digests(alloc, params, log.trees) {
        Ok(digests) => is_shown_by(digests.as_slice(), run, log, shown),
        Err(_) => false,
    }
}

fn check_log(rt: &impl Abort, alloc: Global, log: &'static Log, shown: Shown) {
    let row = Row {
        parts: log.trees.first().copied().unwrap_or(&[]),
        stack: log.stack,
        advice: log.advice,
        end: End::Shows(log, shown),
    };
    check(rt, alloc, &[row], log.kernel, 10000);
}

#[test]
fn logs_spans_and_joins(rt: HostRuntime) {
    check_log(&rt, rt.alloc(), &JOINED, Shown::Lines);
}

#[test]
fn logs_loops_of_splits(rt: HostRuntime) {
    check_log(&rt, rt.alloc(), &TURNS, Shown::Lines);
    check_log(&rt, rt.alloc(), &NO_TURN, Shown::Lines);
}

#[test]
fn logs_syscalls(rt: HostRuntime) {
    check_log(&rt, rt.alloc(), &SERVED, Shown::Lines);
}

#[test]
fn logs_calls(rt: HostRuntime) {
    check_log(&rt, rt.alloc(), &STORED, Shown::Lines);
}

#[test]
fn holds_the_digest(rt: HostRuntime) {
    check_log(&rt, rt.alloc(), &SERVED, Shown::Digest);
}

#[test]
fn logs_each_cycle(rt: HostRuntime) {
    check_log(&rt, rt.alloc(), &STORED, Shown::Before);
}

#[test]
fn keeps_words_in_contexts(rt: HostRuntime) {
    check_log(&rt, rt.alloc(), &STORED, Shown::Word);
}
