ghost use Rattle.std.specs.Prelude.{◌≡◌, ◌+◌, IfOk, IfErr};
ghost use Rattle.vm_ops.specs.declared.op.Op.TheVariants as ops;
ghost use Rattle.sound_buses.specs.Blocks.{IsAt};
ghost use Rattle.vm_table.specs.Layout.{row_at};
ghost use Rattle.vm_table.specs.MainColumns.{s};
ghost use Rattle.sound_evidence.specs.Walking.{IsFound, IsWalkable, Takes};
ghost use Rattle.tree_merge.specs.Merges.{IsStop};

use crate::cells::{address, first_digest, operation};
use crate::found::{Found, boxed};
use crate::spans::is_end;
use crate::walk::block;
use air_kit::{Public, Trace};
use std::alloc::Global;
use tree_merge::{AddrTree, MergeStop, merge};
use vm_field::Felts;

// A loop that was entered: one tree of its body, which refines that of each turn. A turn behind which no END stands is
// followed by REPEAT and the next one.
#[cycle(blocks)]
pub(crate) fn turns(
    alloc: Global,
    public: &Public,
    trace: &Trace,
    i: usize,
    tape: &mut Felts,
) -> Result<Found, MergeStop>
    requires readable { IsWalkable public.now trace.now }
    requires is { IsAt trace.now.main i ops.Loop }
    requires entered { s (row_at trace.now.main i) 0 ≡ 1 }
    ensures ok { IfOk result (λ found. IsFound public.now trace.now i found) }
    ensures tape { IfOk result (λ found. Takes trace.now.main i (found.end + 1) tape.old tape.new) }
    ensures err { IfErr result (λ stop. IsStop public.now.params trace.now stop) }
{
    let mut body = AddrTree::Opaque(first_digest(trace, i));
    let mut a = i + 1;
    loop {
        let turn = block(alloc, public, trace, a, tape)?;
        body = merge(&public.params, trace, body, turn.tree)?;
        if is_end(operation(trace, turn.end + 1)) {
            let one = boxed(alloc, body)?;
            return Ok(Found {
                end: turn.end + 1,
                tree: AddrTree::Loop(address(trace, i), one),
            });
        }
        a = turn.end + 2;
    }
}
