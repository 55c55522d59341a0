ghost use Rattle.std.specs.Prelude.{◌≡◌, [], ◌∷◌, OnOk};
ghost use Rattle.vm_table.specs.MainColumns.{s};
ghost use Rattle.air_kit.specs.Flags.{op_of};
ghost use Rattle.air_kit.specs.MainTuples.{bitwise_asked};
ghost use Rattle.bus_kit.specs.Widths.{tallied};
ghost use Rattle.bus_kit.specs.Adding.{IsCounted};
ghost use Rattle.bus_blocks.specs.Space.{HasSpace};

use bus_kit::{Tally, ask};
use vm_field::{Felt, Memory};
use vm_ops::Op;
use vm_table::MainView;

/// U32AND and U32XOR ask for their results.
pub(crate) fn tuples_bitwise<V: MainView>(
    op: Op,
    x: &V,
    y: &V,
    tally: &mut Tally<4>,
) -> Result<(), Memory>
    requires op { op ≡ op_of (V.cells x.now) }
    requires room { HasSpace (tallied tally.old) }
    ensures { OnOk result (IsCounted 1 (tallied tally.old) (tallied tally.new) (bitwise_asked (V.cells x.now) (V.cells y.now)) []) }
{
    match op {
        Op::U32And => ask(tally, &combined(0, x, y)),
        Op::U32Xor => ask(tally, &combined(1, x, y)),
        _ => Ok(()),
    }
}

// The number of the operation, its operands and its result.
fn combined<V: MainView>(kind: u32, x: &V, y: &V) -> [Felt; 4]
    ensures { result ≡ kind ∷ s (V.cells x.now) 0 ∷ s (V.cells x.now) 1 ∷ s (V.cells y.now) 0 ∷ [] }
{
    [Felt::from_u32(kind), x.s0(), x.s1(), y.s0()]
}
