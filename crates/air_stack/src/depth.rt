ghost use Rattle.std.specs.Prelude.{◌≡◌, option_map};
ghost use Rattle.air_kit.specs.Flags.{flag};
ghost use Rattle.air_kit.specs.Places.{between, first_fault_of};
ghost use Rattle.air_kit.specs.StackValues.{deeper, shifts_left, shifts_right, keeps_depth, entry_115, entry_116, entry_117, entry_118, depth_values};
ghost use Rattle.air_stack.specs.Parts.{spot_between};

use air_kit::{OpSet, Seen, first_nonzero};
use vm_field::Felt;
use vm_ops::Op;
use vm_table::MainView;

/// The first of the entries 115 to 118, of the depth and of the key, that is not 0.
#[tactic(auto, unfolding(air_kit::specs::StackValues::depth_values))]
pub(crate) fn depth_fault<V: MainView>(x: &Seen<'_, V>, next: &Option<V>) -> Option<(u16, Felt)>
    ensures { result ≡ first_fault_of 115 (depth_values (spot_between (V.cells x.now.row.now) (option_map V.cells next.now))) }
{
    let values = [
        entry_115(x),
        entry_116(x, next),
        entry_117(x),
        entry_118(x, next),
    ];
    first_nonzero(&values, 115)
}

/// 1 where the stack is deeper than sixteen cells, else 0.
#[tactic(auto, unfolding(air_kit::specs::StackValues::deeper))]
pub(crate) fn deeper<V: MainView>(x: &V) -> Felt
    ensures { result ≡ deeper (V.cells x.now) }
{
    (x.depth() - Felt::from_u32(16)) * x.inv()
}

// The stack has one cell fewer behind the row.
#[tactic(auto, unfolding(air_kit::specs::StackValues::shifts_left))]
fn shifts_left<V: MainView>(x: &Seen<'_, V>) -> Felt
    ensures { result ≡ shifts_left (flag (V.cells x.now.row.now)) (V.cells x.now.row.now) }
{
    x.sum(OpSet::Left) + x.one(Op::End) * x.row.h4()
}

// It has one more.
#[tactic(auto, unfolding(air_kit::specs::StackValues::shifts_right))]
fn shifts_right<V: MainView>(x: &Seen<'_, V>) -> Felt
    ensures { result ≡ shifts_right (flag (V.cells x.now.row.now)) }
{
    x.sum(OpSet::Right)
}

// It has as many.
#[tactic(auto, unfolding(air_kit::specs::StackValues::keeps_depth))]
fn keeps_depth<V: MainView>(x: &Seen<'_, V>) -> Felt
    ensures { result ≡ keeps_depth (flag (V.cells x.now.row.now)) (V.cells x.now.row.now) }
{
    Felt::ONE - shifts_right(x) - shifts_left(x) - x.calls() - x.returns()
}

// At depth sixteen the flag is 0, deeper it is 1.
#[tactic(auto, unfolding(air_kit::specs::StackValues::entry_115))]
fn entry_115<V: MainView>(x: &Seen<'_, V>) -> Felt
    ensures { result ≡ entry_115 (flag (V.cells x.now.row.now)) (V.cells x.now.row.now) }
{
    (x.row.depth() - Felt::from_u32(16)) * (Felt::ONE - deeper(x.row))
}

// The depth.
#[tactic(auto, unfolding(air_kit::specs::StackValues::entry_116))]
fn entry_116<V: MainView>(x: &Seen<'_, V>, next: &Option<V>) -> Felt
    ensures { result ≡ between entry_116 (V.cells x.now.row.now) (option_map V.cells next.now) }
{
    let Some(y) = next else {
        return Felt::ZERO;
    };
    shifts_right(x) * (y.depth() - x.row.depth() - Felt::ONE)
        + shifts_left(x) * (y.depth() - x.row.depth() + deeper(x.row))
        + x.calls() * (y.depth() - Felt::from_u32(16))
        + keeps_depth(x) * (y.depth() - x.row.depth())
}

// A call ends at depth sixteen.
#[tactic(auto, unfolding(air_kit::specs::StackValues::entry_117))]
fn entry_117<V: MainView>(x: &Seen<'_, V>) -> Felt
    ensures { result ≡ entry_117 (flag (V.cells x.now.row.now)) (V.cells x.now.row.now) }
{
    x.returns() * (x.row.depth() - Felt::from_u32(16))
}

// The key of the first cell below the sixteenth.
#[tactic(auto, unfolding(air_kit::specs::StackValues::entry_118))]
fn entry_118<V: MainView>(x: &Seen<'_, V>, next: &Option<V>) -> Felt
    ensures { result ≡ between entry_118 (V.cells x.now.row.now) (option_map V.cells next.now) }
{
    let Some(y) = next else {
        return Felt::ZERO;
    };
    shifts_right(x) * (y.key() - x.row.clk())
        + shifts_left(x) * (Felt::ONE - deeper(x.row)) * (y.key() - x.row.key())
        + x.calls() * y.key()
        + keeps_depth(x) * (y.key() - x.row.key())
}
