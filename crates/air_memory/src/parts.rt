ghost use Rattle.std.specs.Prelude.{◌≡◌, ◌<◌};
ghost use Rattle.air_kit.specs.MemoryValues.{element_change, goes_on_here, kept_factor, order_step, read_factor, step_of};

use chip_columns::MemoryView;
use vm_field::Felt;

// By how much the order grows, less one.
#[tactic(auto, unfolding(air_kit::specs::MemoryValues::step_of))]
fn step_of<V: MemoryView>(row: &V) -> Felt
    ensures { result ≡ step_of (V.cells row.now) }
{
    row.d0() + Felt::from_u32(65536) * row.d1()
}

// 1 where the row accesses the word of the row before, else 0.
#[tactic(auto, unfolding(air_kit::specs::MemoryValues::goes_on_here))]
fn goes_on_here<V: MemoryView>(row: &V) -> Felt
    ensures { result ≡ goes_on_here (V.cells row.now) }
{
    Felt::ONE - row.n0() - row.n1()
}

/// The context, the address or the clock grows, by one more than the row says.
#[tactic(auto, unfolding(air_kit::specs::MemoryValues::order_step))]
pub(crate) fn order_step<V: MemoryView>(x: &V, y: &V) -> Felt
    ensures { result ≡ order_step (V.cells x.now) (V.cells y.now) }
{
    y.n0() * (y.ctx() - x.ctx() - Felt::ONE - step_of(y))
        + y.n1() * (y.addr() - x.addr() - Felt::ONE - step_of(y))
        + goes_on_here(y) * (y.clk() - x.clk() - Felt::ONE - step_of(y))
}

/// Not 0 where element 0 is not written.
pub(crate) fn read_factor<V: MemoryView>(row: &V) -> Felt
    ensures { result ≡ read_factor (V.cells row.now) }
{
    (row.kind() - Felt::ONE) * (row.kind() - Felt::from_u32(2))
}

/// Not 0 where the others are not.
pub(crate) fn kept_factor<V: MemoryView>(row: &V) -> Felt
    ensures { result ≡ kept_factor (V.cells row.now) }
{
    row.kind() - Felt::ONE
}

/// What element j would have been without a write is taken off: that of the row before where it has the same word, else 0.
pub(crate) fn element_change<V: MemoryView>(x: &V, y: &V, j: usize) -> Felt
    requires { j < 4 }
    ensures { result ≡ element_change (V.cells x.now) (V.cells y.now) j }
{
    y.v(j) - goes_on_here(y) * x.v(j)
}
