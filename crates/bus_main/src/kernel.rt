ghost use Rattle.std.specs.Prelude.{◌≡◌, ℕ, List, [], OnOk};
ghost use Rattle.air_kit.specs.Flags.{op_of};
ghost use Rattle.air_kit.specs.MainTuples.{front, kernel_asked};
ghost use Rattle.bus_kit.specs.Widths.{tallied};
ghost use Rattle.bus_kit.specs.Adding.{IsCounted};
ghost use Rattle.bus_blocks.specs.Space.{HasSpace};

use bus_kit::{Tally, ask};
use vm_field::{Felt, Memory};
use vm_ops::Op;
use vm_table::MainView;

/// A SYSCALL asks for the digest that it calls, whatever row is behind it.
pub(crate) fn tuples_kernel<V: MainView>(op: Op, x: &V, tally: &mut Tally<4>) -> Result<(), Memory>
    requires op { op ≡ op_of (V.cells x.now) }
    requires room { HasSpace (tallied tally.old) }
    ensures { (next : List ℕ) → OnOk result (IsCounted 1 (tallied tally.old) (tallied tally.new) (kernel_asked (V.cells x.now) next) []) }
{
    match op {
        Op::Syscall => ask(tally, &digest(x)),
        _ => Ok(()),
    }
}

// The digest that a row shows first.
fn digest<V: MainView>(x: &V) -> [Felt; 4]
    ensures { result ≡ front (V.cells x.now) }
{
    [x.h0(), x.h1(), x.h2(), x.h3()]
}
