ghost use Rattle.std.specs.Prelude.{◌≡◌, ◌≤◌, ℕ, drop, length, IfOk};
ghost use Rattle.complete_rows.specs.Filling.{halted, rows_of_run};
ghost use Rattle.vm_ops.specs.declared.kind.Kind.TheVariants as kinds;
ghost use Rattle.complete_rows.specs.Numbers.{HasSmallNumbers};
ghost use Rattle.complete_rows.specs.RunRequests.{requests_of};
ghost use Rattle.complete_rows.specs.Turns.{respans};

use crate::inverses::Inverses;
use crate::row::write_row;
use crate::turns::{take_turns, turns_of};
use air_kit::Requests;
use fill_decoder::{Decoder, into_elements};
use fill_requests::{no_requests, push_requests, respans, seen_behind};
use machine_cycles::{Event, Events, Visible};
use perm_memo::Permutations;
use std::alloc::Global;
use vm_field::{Felt, Memory, Sequence, Word};
use vm_ops::{Kind, Op, kind_of};
use vm_table::Table;

// The rows of the events of a run that ends in a state, and what they ask. Each event is read for
// both at once: a run's events are more than a cache holds.
pub(crate) fn fill(
    alloc: Global,
    permutations: &mut Permutations,
    last: &Visible,
    events: &Events,
) -> Result<(Table<65>, Requests), Memory>
    requires { HasSmallNumbers last.now events.now }
    ensures rows { IfOk result (λ r. r.0 ≡ rows_of_run last.now events.now) }
    ensures requests { IfOk result (λ r. r.1 ≡ requests_of permutations.old last.now events.now) }
    ensures same { permutations.new ≡ permutations.old }
{
    let mut turns = turns_of(alloc, events)?;
    let deep = seen_behind(last, events, 0).depth.saturating_sub(16);
    let mut decoder = Decoder::new(alloc, deep)?;
    let mut inverses = Inverses::new(alloc);
    let mut requests = no_requests(alloc);
    let mut table = Table::new(alloc);
    let count = events.len();
    table.reserve(count.saturating_add(1))?;
    let mut row = [Felt::ZERO; 65];
    for i in 0..count {
        let event = events.event(i);
        let next = seen_behind(last, events, i + 1);
        let kind = kind_of(event.op);
        let turn = take_turns(&mut turns, kind);
        write_row(&mut row, &mut inverses, &decoder, &event, &next, turn);
        table.push_row(&row)?;
        let batches = batches_of(alloc, kind, events, i + 1)?;
        decoder.advance(&event, kind, batches.len())?;
        push_requests(
            &mut requests,
            permutations,
            kind,
            &event,
            &next,
            batches.as_slice(),
        )?;
    }
    write_row(&mut row, &mut inverses, &decoder, &halted(last), last, 0);
    table.push_row(&row)?;
    requests.keys = into_elements(decoder.keys);
    Ok((table, requests))
}

// The later batches of the span that an event of a kind starts, among the events from a place on;
// none where it starts none.
fn batches_of(
    alloc: Global,
    kind: Kind,
    events: &Events,
    first: usize,
) -> Result<Sequence<[Felt; 8]>, Memory>
    ensures are { IfOk result (λ batches. kind ≡ kinds.Span → batches ≡ respans (drop first events.now)) }
    ensures few { IfOk result (λ batches. length batches ≤ length events.now) }
{
    match kind {
        Kind::Span => respans(alloc, events, first),
        _ => Ok(Sequence::new(alloc)),
    }
}

// The HALT behind the last cycle.
fn halted(last: &Visible) -> Event
    ensures { result ≡ halted last.now }
{
    Event {
        op: Op::Halt,
        before: *last,
        imm: None,
        tape: Word::ZERO.elements(),
        word: Word::ZERO.elements(),
        hash: [Felt::ZERO; 8],
        result: Felt::ZERO,
    }
}
