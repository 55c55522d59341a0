ghost use Rattle.std.specs.Prelude.{◌≡◌, ℕ, ◌+◌, ◌^◌, ◌<◌, ◌≤◌, List, slice_index, OnOk, IfOk};
ghost use Rattle.complete_rows.specs.Turns.{repeats_by};
ghost use Rattle.vm_ops.specs.declared.kind.Kind.TheVariants as kinds;
ghost use Rattle.fill_main.specs.Turns.{turns_by, turns_of};

use fill_decoder::Stack;
use machine_cycles::Events;
use std::alloc::Global;
use vm_field::Memory;
use vm_ops::{Kind, kind_of};

// Of each LOOP among events, how often its body is repeated. Few events start a loop, so that the others
// take no memory.
pub(crate) fn turns_of(alloc: Global, events: &Events) -> Result<Stack<u64>, Memory>
    ensures { IfOk result (λ turns. turns ≡ turns_of events.now) }
{
    let mut counts = Stack::new(alloc);
    let mut turns = Stack::new(alloc);
    for i in (0..events.len()).rev() {
        let kind = kind_of(events.op(i));
        add_turns(&mut turns, kind, &counts)?;
        count(&mut counts, kind)?;
    }
    Ok(turns)
}

// Puts the turns of the loop in front that an event of a kind starts, if it starts one.
fn add_turns(turns: &mut Stack<u64>, kind: Kind, counts: &Stack<u64>) -> Result<(), Memory>
    ensures { OnOk result (turns.new ≡ turns_by kind counts.now turns.old) }
{
    match kind {
        Kind::Loop => turns.push(front(counts)),
        _ => Ok(()),
    }
}

// The turns of the loop that an event of a kind starts, which are taken off the front; 0 where it starts none.
pub(crate) fn take_turns(turns: &mut Stack<u64>, kind: Kind) -> u64
    ensures are { (counts later : List ℕ) → turns.old ≡ turns_by kind counts later → kind ≡ kinds.Loop → result ≡ slice_index counts 0 }
    ensures few { (counts later : List ℕ) → turns.old ≡ turns_by kind counts later → result ≤ slice_index counts 0 }
    ensures left { (counts later : List ℕ) → turns.old ≡ turns_by kind counts later → turns.new ≡ later }
{
    match kind {
        Kind::Loop => turns.pop().unwrap_or(0),
        _ => 0,
    }
}

// The number at the front, and 0 where there is none.
#[tactic(auto, using(fill_decoder::proofs::GroupLemmas::first_number))]
fn front(counts: &Stack<u64>) -> u64
    ensures { result ≡ slice_index counts.now 0 }
{
    match counts.first() {
        Some(count) => *count,
        None => 0,
    }
}

// Counts one event more, from the end on.
#[tactic(auto, using(fill_decoder::proofs::GroupLemmas::first_number))]
fn count(counts: &mut Stack<u64>, kind: Kind) -> Result<(), Memory>
    requires { slice_index counts.old 0 + 1 < 2 ^ 64 }
    ensures { OnOk result (counts.new ≡ repeats_by kind counts.old) }
{
    match kind {
        Kind::Ordinary | Kind::Respan | Kind::Halt => Ok(()),
        Kind::Join
        | Kind::Split
        | Kind::Loop
        | Kind::Span
        | Kind::Call
        | Kind::Syscall
        | Kind::Dyn => {
            let _ = counts.pop();
            Ok(())
        }
        Kind::End => counts.push(0),
        Kind::Repeat => {
            let more = counts.pop().unwrap_or(0) + 1;
            counts.push(more)
        }
    }
}
