ghost use Rattle.std.specs.Prelude.{◌≡◌, [], ◌∷◌, OnOk};
ghost use Rattle.vm_table.specs.MainColumns.{clk, ctx, s, t};
ghost use Rattle.air_kit.specs.Flags.{op_of};
ghost use Rattle.air_kit.specs.MainTuples.{memory_asked};
ghost use Rattle.bus_kit.specs.Widths.{tallied};
ghost use Rattle.bus_kit.specs.Adding.{IsCounted};
ghost use Rattle.bus_blocks.specs.Space.{HasSpace};

use bus_kit::{Tally, ask};
use vm_field::{Felt, Memory};
use vm_ops::Op;
use vm_table::MainView;

/// Operations on memory ask for their access.
pub(crate) fn tuples_memory<V: MainView>(
    op: Op,
    x: &V,
    y: &V,
    tally: &mut Tally<8>,
) -> Result<(), Memory>
    requires op { op ≡ op_of (V.cells x.now) }
    requires room { HasSpace (tallied tally.old) }
    ensures { OnOk result (IsCounted 1 (tallied tally.old) (tallied tally.new) (memory_asked (V.cells x.now) (V.cells y.now)) []) }
{
    match op {
        Op::MLoad => ask(tally, &element_read(x, y)),
        Op::MLoadW => ask(tally, &word_read(x, y)),
        Op::MStore => ask(tally, &element_written(x)),
        Op::MStoreW => ask(tally, &word_written(x)),
        _ => Ok(()),
    }
}

// An element that is read is on top of the stack behind it; the limbs show the others of its word.
fn element_read<V: MainView>(x: &V, y: &V) -> [Felt; 8]
    ensures { result ≡ 0 ∷ ctx (V.cells x.now) ∷ s (V.cells x.now) 0 ∷ clk (V.cells x.now)
        ∷ s (V.cells y.now) 0 ∷ t (V.cells x.now) 0 ∷ t (V.cells x.now) 1 ∷ t (V.cells x.now) 2 ∷ [] }
{
    [
        Felt::ZERO,
        x.ctx(),
        x.s0(),
        x.clk(),
        y.s0(),
        x.t0(),
        x.t1(),
        x.t2(),
    ]
}

// An element that is written is below its address.
fn element_written<V: MainView>(x: &V) -> [Felt; 8]
    ensures { result ≡ 2 ∷ ctx (V.cells x.now) ∷ s (V.cells x.now) 0 ∷ clk (V.cells x.now)
        ∷ s (V.cells x.now) 1 ∷ t (V.cells x.now) 0 ∷ t (V.cells x.now) 1 ∷ t (V.cells x.now) 2 ∷ [] }
{
    [
        Felt::from_u32(2),
        x.ctx(),
        x.s0(),
        x.clk(),
        x.s1(),
        x.t0(),
        x.t1(),
        x.t2(),
    ]
}

// A word that is read is on top of the stack behind it.
fn word_read<V: MainView>(x: &V, y: &V) -> [Felt; 8]
    ensures { result ≡ 0 ∷ ctx (V.cells x.now) ∷ s (V.cells x.now) 0 ∷ clk (V.cells x.now)
        ∷ s (V.cells y.now) 3 ∷ s (V.cells y.now) 2 ∷ s (V.cells y.now) 1 ∷ s (V.cells y.now) 0 ∷ [] }
{
    [
        Felt::ZERO,
        x.ctx(),
        x.s0(),
        x.clk(),
        y.s3(),
        y.s2(),
        y.s1(),
        y.s0(),
    ]
}

// A word that is written is below its address.
fn word_written<V: MainView>(x: &V) -> [Felt; 8]
    ensures { result ≡ 1 ∷ ctx (V.cells x.now) ∷ s (V.cells x.now) 0 ∷ clk (V.cells x.now)
        ∷ s (V.cells x.now) 4 ∷ s (V.cells x.now) 3 ∷ s (V.cells x.now) 2 ∷ s (V.cells x.now) 1 ∷ [] }
{
    [
        Felt::ONE,
        x.ctx(),
        x.s0(),
        x.clk(),
        x.s4(),
        x.s3(),
        x.s2(),
        x.s1(),
    ]
}
