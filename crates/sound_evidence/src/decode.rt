ghost use Rattle.std.specs.Prelude.{◌≡◌};
ghost use Rattle.air_kit.specs.Flags.{op_of, HasBits};
ghost use Rattle.sound_evidence.specs.Walking.{marked_of};

use air_kit::op_in;
use vm_ops::Op;
use vm_table::MainView;

// The operation of a row as the walk through a span has to see it. Four bits tell of most operations that they count as NOOP.
pub(crate) fn marked_in<V: MainView>(row: &V) -> Op
    requires { HasBits (V.cells row.now) }
    ensures { result ≡ marked_of (op_of (V.cells row.now)) }
{
    if row.b2() != row.b3() {
        return Op::Noop;
    }
    if row.b4() == row.b6() {
        return Op::Noop;
    }
    marked(op_in(row))
}

fn marked(op: Op) -> Op
    ensures { result ≡ marked_of op }
{
    match op {
        Op::End => Op::End,
        Op::Respan => Op::Respan,
        Op::AdvPop => Op::AdvPop,
        Op::AdvPopW => Op::AdvPopW,
        _ => Op::Noop,
    }
}
