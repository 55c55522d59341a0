ghost use Rattle.std.specs.Prelude.{◌≡◌, ◌++◌, drop, IfOk, OnOk};
ghost use Rattle.complete_rows.specs.Turns.{respans};
ghost use Rattle.fill_requests.specs.Spans.{batch_by, stays};

use machine_cycles::Events;
use std::alloc::Global;
use vm_field::{Felt, Memory, Sequence};
use vm_ops::{Kind, kind_of};

/// The batches of the span that is open, from the next RESPAN on, among the events from a place on.
/// The scan ends with the span.
pub fn respans(alloc: Global, events: &Events, first: usize) -> Result<Sequence<[Felt; 8]>, Memory>
    ensures { IfOk result (λ batches. batches ≡ respans (drop first events.now)) }
{
    let mut batches = Sequence::new(alloc);
    for i in first..events.len() {
        let kind = kind_of(events.op(i));
        if !stays(kind) {
            return Ok(batches);
        }
        push_batch(&mut batches, kind, &events.hash(i))?;
    }
    Ok(batches)
}

// Whether the span is still open behind an event of a kind.
fn stays(kind: Kind) -> bool
    ensures { result ≡ stays kind }
{
    match kind {
        Kind::Ordinary | Kind::Respan => true,
        _ => false,
    }
}

// Adds the batch that begins at an event of a kind, if one does.
fn push_batch(
    batches: &mut Sequence<[Felt; 8]>,
    kind: Kind,
    batch: &[Felt; 8],
) -> Result<(), Memory>
    ensures { OnOk result (batches.new ≡ batches.old ++ batch_by kind batch.now) }
{
    match kind {
        Kind::Respan => batches.push(*batch),
        _ => Ok(()),
    }
}
