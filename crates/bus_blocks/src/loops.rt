ghost use Rattle.std.specs.Prelude.{◌≡◌, ◌^◌, ◌∷◌, OnOk};
ghost use Rattle.vm_table.specs.MainColumns.{addr};
ghost use Rattle.air_kit.specs.Flags.{op_of};
ghost use Rattle.air_kit.specs.MainTuples.{front, loops_given, loops_asked};
ghost use Rattle.bus_kit.specs.Widths.{tallied};
ghost use Rattle.bus_kit.specs.Adding.{IsCounted};
ghost use Rattle.bus_blocks.specs.Space.{HasSpace};

use bus_kit::{Tally, ask, give_times};
use vm_field::{Felt, Memory};
use vm_ops::Op;
use vm_table::MainView;

/// A LOOP gives its body as often as its witness says, and a REPEAT asks for it.
pub fn tuples_loops<V: MainView>(op: Op, x: &V, y: &V, tally: &mut Tally<5>) -> Result<(), Memory>
    requires op { op ≡ op_of (V.cells x.now) }
    requires room { HasSpace (tallied tally.old) }
    ensures { OnOk result (IsCounted (2 ^ 64) (tallied tally.old) (tallied tally.new)
        (loops_asked (V.cells x.now) (V.cells y.now)) (loops_given (V.cells x.now) (V.cells y.now))) }
{
    match op {
        Op::Loop => give_times(tally, &body(y, x), x.w0()),
        Op::Repeat => ask(tally, &body(x, x)),
        _ => Ok(()),
    }
}

// The address of one row, with the digest that another one shows first.
fn body<V: MainView>(block: &V, x: &V) -> [Felt; 5]
    ensures { result ≡ addr (V.cells block.now) ∷ front (V.cells x.now) }
{
    [block.addr(), x.h0(), x.h1(), x.h2(), x.h3()]
}
