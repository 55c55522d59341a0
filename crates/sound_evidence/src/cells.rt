ghost use Rattle.std.specs.Prelude.{◌≡◌, suc, ◌^◌, ◌<◌, length};
ghost use Rattle.air_kit.specs.MainTuples.{back, called_digest, eight, front};
ghost use Rattle.sound_buses.specs.Blocks.{own};
ghost use Rattle.vm_table.specs.Layout.{row_at};
ghost use Rattle.facts_main.specs.MainRows.{op_in};
ghost use Rattle.vm_table.specs.MainColumns.{s};
ghost use Rattle.air_kit.specs.Flags.{HasBits};
ghost use Rattle.sound_evidence.specs.Walking.{marked_of};

use crate::decode::marked_in;
use air_kit::{Trace, op_in};
use vm_field::{Felt, Word};
use vm_ops::Op;
use vm_table::MainView;

/// The operation of a row of the main table, whose bits are bits.
pub fn operation(trace: &Trace, i: usize) -> Op
    requires within { i < length trace.now.main }
    requires bits { HasBits (row_at trace.now.main i) }
    ensures { result ≡ op_in trace.now.main i }
{
    op_in(&trace.main.row(i))
}

// The operation of a row in a span, if it ends the span, begins a batch or takes from the tape; else NOOP.
pub(crate) fn marked(trace: &Trace, i: usize) -> Op
    requires within { i < length trace.now.main }
    requires bits { HasBits (row_at trace.now.main i) }
    ensures { result ≡ marked_of (op_in trace.now.main i) }
{
    marked_in(&trace.main.row(i))
}

// The cell on top of the stack.
pub(crate) fn top(trace: &Trace, i: usize) -> Felt
    requires { i < length trace.now.main }
    ensures { result ≡ s (row_at trace.now.main i) 0 }
{
    trace.main.row(i).s0()
}

// The address of the hash of the block that starts in row i.
pub(crate) fn address(trace: &Trace, i: usize) -> u32
    requires within { suc i < length trace.now.main }
    requires few { own trace.now.main i < 2 ^ 32 }
    ensures { result ≡ own trace.now.main i }
{
    trace.main.pair(i).next.addr().value() as u32
}

// The first digest that the row shows.
pub(crate) fn first_digest(trace: &Trace, i: usize) -> Word
    requires { i < length trace.now.main }
    ensures { result ≡ front (row_at trace.now.main i) }
{
    let row = trace.main.row(i);
    Word([row.h0(), row.h1(), row.h2(), row.h3()])
}

// The second one.
pub(crate) fn second_digest(trace: &Trace, i: usize) -> Word
    requires { i < length trace.now.main }
    ensures { result ≡ back (row_at trace.now.main i) }
{
    let row = trace.main.row(i);
    Word([row.h4(), row.h5(), row.h6(), row.h7()])
}

// The one on top of the stack.
pub(crate) fn called_digest(trace: &Trace, i: usize) -> Word
    requires { i < length trace.now.main }
    ensures { result ≡ called_digest (row_at trace.now.main i) }
{
    let row = trace.main.row(i);
    Word([row.s3(), row.s2(), row.s1(), row.s0()])
}

// The batch that the row shows.
pub(crate) fn batch(trace: &Trace, i: usize) -> [Felt; 8]
    requires { i < length trace.now.main }
    ensures { result ≡ eight (row_at trace.now.main i) }
{
    let row = trace.main.row(i);
    [
        row.h0(),
        row.h1(),
        row.h2(),
        row.h3(),
        row.h4(),
        row.h5(),
        row.h6(),
        row.h7(),
    ]
}
