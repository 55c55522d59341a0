ghost use Rattle.std.specs.Prelude.{◌≡◌, ◌++◌, ◌≤◌, length, OnOk};
ghost use Rattle.vm_state.specs.Views.{state_of};
ghost use Rattle.masm_places.specs.Indexed.{texts_in};
ghost use Rattle.masm_places.specs.Pending.{walk_of};
ghost use Rattle.show_cycles.specs.CycleLines.{cycle_line, cycles_text, gone, immediate_text, item_of, moment_text, operation_text, stack_text, stand_line};

use crate::places::append_told;
use decimal_text::{append_element, append_number};
use machine_cycles::{Event, Events};
use masm_places::{Sources, Walk};
use std::alloc::Global;
use vm_field::{Bytes, Felt, Memory};
use vm_ops::Item;
use vm_state::State;

fn append_immediate(text: &mut Bytes, value: Option<Felt>) -> Result<(), Memory>
    ensures { OnOk result (text.new ≡ text.old ++ immediate_text value) }
{
    match value {
        Some(value) => append_element(text, value),
        None => Ok(()),
    }
}

// An operation, and what PUSH pushes.
fn append_operation(text: &mut Bytes, item: &Item) -> Result<(), Memory>
    ensures { OnOk result (text.new ≡ text.old ++ operation_text item.now) }
{
    text.append(vm_ops::text(item.op).as_bytes())?;
    append_immediate(text, item.imm)
}

// The depth of a stack, and its four top cells.
fn append_stack(text: &mut Bytes, depth: usize, cells: &[Felt]) -> Result<(), Memory>
    requires { 4 ≤ length cells.now }
    ensures { OnOk result (text.new ≡ text.old ++ stack_text depth cells.now) }
{
    text.append(b" depth ")?;
    append_number(text, depth as u64)?;
    text.append(b" stack")?;
    append_element(text, cells[0])?;
    append_element(text, cells[1])?;
    append_element(text, cells[2])?;
    append_element(text, cells[3])
}

// A cycle's clock and operation.
fn append_moment(text: &mut Bytes, event: &Event) -> Result<(), Memory>
    ensures { OnOk result (text.new ≡ text.old ++ moment_text event.now) }
{
    text.append(b"clk ")?;
    append_number(text, u64::from(event.before.clock))?;
    text.append(b" ")?;
    append_operation(text, &item_of(event))
}

// The operation of a cycle.
fn item_of(event: &Event) -> Item
    ensures { result ≡ item_of event.now }
{
    Item {
        op: event.op,
        imm: event.imm,
    }
}

// A cycle, with the walk behind it.
fn append_line(text: &mut Bytes, walk: &Walk<'_>, event: &Event) -> Result<(), Memory>
    ensures { OnOk result (text.new ≡ text.old ++ cycle_line (walk_of walk.now) event.now) }
{
    append_moment(text, event)?;
    append_stack(text, event.before.depth, &event.before.cells)?;
    append_told(text, &walk.levels, walk.skipped(event.op))?;
    text.append(b"\n")?;
    Ok(())
}

// A walk goes on by a cycle, which is told.
fn append_cycle<'a>(
    alloc: Global,
    text: &mut Bytes,
    sources: &Sources<'a>,
    walk: &mut Walk<'a>,
    event: &Event,
) -> Result<(), Memory>
    ensures walk { OnOk result (walk_of walk.new ≡ gone (texts_in sources.now) (walk_of walk.old) event.now) }
    ensures text { OnOk result (text.new ≡ text.old ++ cycle_line (walk_of walk.new) event.now) }
{
    walk.step(alloc, sources, &item_of(event), event.before.cells[0])?;
    append_line(text, walk, event)
}

/// Adds the cycles of a run from its start, a line each: its clock, its operation with what PUSH pushes, the depth and the four top cells
/// of the stack before it, the place of the instruction that it belongs to, and the calls that led there with their places.
///
/// # Errors
///
/// `Memory` where the system gave none.
pub fn append_cycles(
    alloc: Global,
    text: &mut Bytes,
    sources: &Sources<'_>,
    log: &Events,
) -> Result<(), Memory>
    ensures { OnOk result (text.new ≡ text.old ++ cycles_text (texts_in sources.now) log.now) }
{
    let mut walk = Walk::begin(alloc, sources)?;
    for place in 0..log.len() {
        let event = log.event(place);
        append_cycle(alloc, text, sources, &mut walk, &event)?;
    }
    Ok(())
}

/// Adds the state in which a run stands: its clock, and the depth and the four top cells of its stack.
///
/// # Errors
///
/// `Memory` where the system gave none for the longer text.
pub fn append_stand(text: &mut Bytes, state: &State) -> Result<(), Memory>
    ensures { OnOk result (text.new ≡ text.old ++ stand_line (state_of state.now)) }
{
    text.append(b"stands clk ")?;
    append_number(text, u64::from(state.clock))?;
    let depth = state.depth();
    let cells = [state.peek(0), state.peek(1), state.peek(2), state.peek(3)];
    append_stack(text, depth, &cells)?;
    text.append(b"\n")
}
