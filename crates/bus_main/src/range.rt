ghost use Rattle.std.specs.Prelude.{◌≡◌, ◌≤◌, [], ◌∷◌, OnOk, take};
ghost use Rattle.vm_field.specs.Limits.{most_nesting};
ghost use Rattle.vm_field.specs.Signs.{◌⊟◌};
ghost use Rattle.vm_table.specs.MainColumns.{lv, t};
ghost use Rattle.air_kit.specs.Flags.{op_of};
ghost use Rattle.air_kit.specs.MainTuples.{limbs_from, count_of_limbs, range_asked};
ghost use Rattle.bus_kit.specs.Tallies.{values_tallied};
ghost use Rattle.bus_kit.specs.Adding.{IsCounted};
ghost use Rattle.bus_blocks.specs.Space.{HasSpace};

use bus_kit::{ValueTally, ask, ask_values};
use vm_field::{Felt, MOST_NESTING, Memory};
use vm_ops::{Op, is_start};
use vm_table::MainView;

/// A start asks for how many more blocks may be nested in it, and an operation on numbers of 32 bits for its limbs.
pub(crate) fn tuples_range<V: MainView>(
    op: Op,
    x: &V,
    y: &V,
    tally: &mut ValueTally,
) -> Result<(), Memory>
    requires op { op ≡ op_of (V.cells x.now) }
    requires room { HasSpace (values_tallied tally.old) }
    ensures { OnOk result (IsCounted 16 (values_tallied tally.old) (values_tallied tally.new) (range_asked (V.cells x.now) (V.cells y.now)) []) }
{
    if is_start(op) {
        ask(tally, &nesting_left(y))
    } else {
        ask_limbs(limbs_of(op), x, tally)
    }
}

// The first limbs of a row.
fn ask_limbs<V: MainView>(count: usize, x: &V, tally: &mut ValueTally) -> Result<(), Memory>
    requires few { count ≤ 10 }
    requires room { HasSpace (values_tallied tally.old) }
    ensures { OnOk result (IsCounted 16 (values_tallied tally.old) (values_tallied tally.new) (limbs_from (V.cells x.now) 0 count) []) }
{
    if count == 0 {
        return Ok(());
    }
    let limbs = limbs_in(x);
    ask_values(tally, &limbs[..count])
}

// All limbs of a row.
fn limbs_in<V: MainView>(x: &V) -> [Felt; 10]
    ensures { result ≡ t (V.cells x.now) 0 ∷ t (V.cells x.now) 1 ∷ t (V.cells x.now) 2 ∷ t (V.cells x.now) 3
        ∷ t (V.cells x.now) 4 ∷ t (V.cells x.now) 5 ∷ t (V.cells x.now) 6 ∷ t (V.cells x.now) 7
        ∷ t (V.cells x.now) 8 ∷ t (V.cells x.now) 9 ∷ [] }
{
    [
        x.t0(),
        x.t1(),
        x.t2(),
        x.t3(),
        x.t4(),
        x.t5(),
        x.t6(),
        x.t7(),
        x.t8(),
        x.t9(),
    ]
}

// How many blocks may be nested in the one that a row is the first of.
fn nesting_left<V: MainView>(y: &V) -> [Felt; 1]
    ensures { result ≡ (most_nesting ⊟ lv (V.cells y.now)) ∷ [] }
{
    [Felt::from_u32(MOST_NESTING) - y.lv()]
}

// How many limbs an operation has.
fn limbs_of(op: Op) -> usize
    ensures is { result ≡ count_of_limbs op }
    ensures few { result ≤ 10 }
{
    match op {
        Op::U32Split | Op::U32Assert2 => 4,
        Op::U32Sub => 6,
        Op::U32Add => 7,
        Op::U32Mul => 8,
        Op::U32Add3 => 9,
        Op::U32MAdd | Op::U32Div => 10,
        _ => 0,
    }
}
