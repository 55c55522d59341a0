ghost use Rattle.std.specs.Prelude.{◌≡◌, suc, ◌+◌, ◌<◌, ◌++◌, [], ◌∷◌, length, if◌then◌else◌, IfOk, IfErr, OnOk};
ghost use Rattle.vm_ops.specs.declared.op.Op.TheVariants as ops;
ghost use Rattle.air_kit.specs.Flags.{is_op};
ghost use Rattle.air_kit.specs.MainTuples.{eight};
ghost use Rattle.air_kit.specs.RowStates.{taken_by};
ghost use Rattle.sound_buses.specs.Blocks.{IsAt};
ghost use Rattle.vm_table.specs.Layout.{row_at};
ghost use Rattle.sound_evidence.specs.Walking.{IsFound, IsWalkable, Takes};
ghost use Rattle.tree_merge.specs.Merges.{IsStop};

use crate::cells::{address, batch, marked};
use crate::found::Found;
use crate::tape::append_taken;
use air_kit::{Public, Trace};
use op_pack::Batches;
use std::alloc::Global;
use tree_merge::{AddrTree, MergeStop};
use vm_field::{Felts, Memory};
use vm_ops::Op;

// A span: its batches up to its END, and what its rows take from the tape.
pub(crate) fn span(
    alloc: Global,
    public: &Public,
    trace: &Trace,
    i: usize,
    tape: &mut Felts,
) -> Result<Found, MergeStop>
    requires readable { IsWalkable public.now trace.now }
    requires is { IsAt trace.now.main i ops.Span }
    ensures ok { IfOk result (λ found. IsFound public.now trace.now i found) }
    ensures tape { IfOk result (λ found. Takes trace.now.main i (found.end + 1) tape.old tape.new) }
    ensures err { IfErr result (λ stop. IsStop public.now.params trace.now stop) }
{
    let Ok(mut batches) = Batches::of(alloc, batch(trace, i)) else {
        return Err(MergeStop::Memory);
    };
    let mut a = i + 1;
    loop {
        let op = marked(trace, a);
        if is_end(op) {
            return Ok(Found {
                end: a,
                tree: AddrTree::Span(address(trace, i), batches),
            });
        }
        let Ok(()) = goes_on(trace, a, op, &mut batches, tape) else {
            return Err(MergeStop::Memory);
        };
        a += 1;
    }
}

// RESPAN begins a further batch, and another operation may take from the tape.
fn goes_on(
    trace: &Trace,
    a: usize,
    op: Op,
    batches: &mut Batches,
    tape: &mut Felts,
) -> Result<(), Memory>
    requires { suc a < length trace.now.main }
    ensures batches { OnOk result (batches.new ≡ (if is_op op ops.Respan then batches.old ++ eight (row_at trace.now.main a) ∷ [] else batches.old)) }
    ensures tape { OnOk result (tape.new ≡ tape.old ++ taken_by op (row_at trace.now.main (suc a))) }
{
    if matches!(op, Op::Respan) {
        batches.push(batch(trace, a))
    } else {
        append_taken(tape, trace, a, op)
    }
}

// Whether the operation is END.
pub(crate) fn is_end(op: Op) -> bool
    ensures { result ≡ is_op op ops.End }
{
    matches!(op, Op::End)
}
