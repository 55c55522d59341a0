ghost use Rattle.std.specs.Prelude.{◌≡◌, ◌==◌, ◌&&◌, if◌then◌else◌, [], ◌∷◌, OnOk};
ghost use Rattle.vm_table.specs.MainColumns.{clk, depth, h, key, s};
ghost use Rattle.buses.specs.Counts.{once};
ghost use Rattle.air_kit.specs.Flags.{is_op, op_of};
ghost use Rattle.air_kit.specs.MainTuples.{overflow_given, overflow_asked};
ghost use Rattle.bus_kit.specs.Widths.{tallied};
ghost use Rattle.bus_kit.specs.Adding.{IsCounted};
ghost use Rattle.bus_blocks.specs.Space.{HasSpace};

use crate::blocks::is_end;
use bus_kit::{Tally, ask, give};
use vm_field::{Felt, Memory};
use vm_ops::{Op, Shift, shift};
use vm_table::MainView;

/// A cell that goes below the sixteenth is given, and one that comes back is asked for.
pub fn tuples_overflow<V: MainView>(
    op: Op,
    x: &V,
    y: &V,
    tally: &mut Tally<3>,
) -> Result<(), Memory>
    requires op { op ≡ op_of (V.cells x.now) }
    requires room { HasSpace (tallied tally.old) }
    ensures { OnOk result (IsCounted 1 (tallied tally.old) (tallied tally.new)
        (overflow_asked (V.cells x.now) (V.cells y.now)) (overflow_given (V.cells x.now) (V.cells y.now))) }
{
    match shift(op) {
        Shift::Right => give(tally, &going(x)),
        Shift::Left => come_back(x, y, tally),
        Shift::Stay => {
            if leaves_loop(op, x) {
                come_back(x, y, tally)
            } else {
                Ok(())
            }
        }
    }
}

// Whether the row ends a loop that was entered, which pops its condition.
fn leaves_loop<V: MainView>(op: Op, x: &V) -> bool
    ensures { result ≡ (is_op op Op.End && (h (V.cells x.now) 4 == 1)) }
{
    is_end(op) && x.h4() == Felt::ONE
}

// Behind a left shift a cell comes back, unless there was none below the sixteenth.
fn come_back<V: MainView>(x: &V, y: &V, tally: &mut Tally<3>) -> Result<(), Memory>
    requires { HasSpace (tallied tally.old) }
    ensures { OnOk result (IsCounted 1 (tallied tally.old) (tallied tally.new)
        (if depth (V.cells x.now) == 16 then [] else once (key (V.cells x.now) ∷ s (V.cells y.now) 15 ∷ key (V.cells y.now) ∷ []) ∷ []) []) }
{
    if x.depth() == Felt::from_u32(16) {
        Ok(())
    } else {
        ask(tally, &coming(x, y))
    }
}

// The clock of the row, the cell that goes, and the key of the one below it.
fn going<V: MainView>(x: &V) -> [Felt; 3]
    ensures { result ≡ clk (V.cells x.now) ∷ s (V.cells x.now) 15 ∷ key (V.cells x.now) ∷ [] }
{
    [x.clk(), x.s15(), x.key()]
}

// The key of the cell that comes, the cell, and the key of the one below it.
fn coming<V: MainView>(x: &V, y: &V) -> [Felt; 3]
    ensures { result ≡ key (V.cells x.now) ∷ s (V.cells y.now) 15 ∷ key (V.cells y.now) ∷ [] }
{
    [x.key(), y.s15(), y.key()]
}
