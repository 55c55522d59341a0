ghost use Rattle.std.specs.Prelude.{◌≡◌, ◌^◌, ◌≤◌, true, false, OnOk};
ghost use Rattle.vm_ops.specs.Codes.{is_ordinary_op};
ghost use Rattle.air_kit.specs.Flags.{op_of, HasBits};
ghost use Rattle.air_kit.specs.MainTuples.{is_batch_op, main_asked, main_given, positions};
ghost use Rattle.bus_kit.specs.ByBus.{AreCounted};
ghost use Rattle.bus_main.specs.RowTuples.{HaveSpace, IsReadable};

use crate::bitwise::tuples_bitwise;
use crate::hasher::tuples_hasher;
use crate::kernel::tuples_kernel;
use crate::memory::tuples_memory;
use crate::range::tuples_range;
use air_kit::op_in;
use bus_blocks::{tuples_blocks, tuples_children, tuples_groups, tuples_loops, tuples_overflow};
use bus_kit::Tallies;
use vm_field::Memory;
use vm_ops::{Op, is_ordinary};
use vm_table::MainView;

/// What a row gives and asks that has a row behind it.
pub fn step<V: MainView>(x: &V, y: &V, tallies: &mut Tallies) -> Result<(), Memory>
    requires readable { IsReadable (V.cells x.now) }
    requires next { HasBits (V.cells y.now) }
    requires room { HaveSpace tallies.old }
    ensures { OnOk result (AreCounted (2 ^ 65) tallies.old tallies.new
        (λ bus. main_asked bus (V.cells x.now) (V.cells y.now)) (λ bus. main_given bus (V.cells x.now) (V.cells y.now))) }
{
    let op = op_in(x);
    if is_ordinary(op) {
        ordinary(op, x, y, tallies)
    } else {
        control(op, x, y, tallies)
    }
}

// An ordinary operation has no tuple of blocks.
fn ordinary<V: MainView>(op: Op, x: &V, y: &V, tallies: &mut Tallies) -> Result<(), Memory>
    requires op { op ≡ op_of (V.cells x.now) }
    requires bits { HasBits (V.cells x.now) }
    requires ordinary { is_ordinary_op op ≡ true }
    requires room { HaveSpace tallies.old }
    ensures { OnOk result (AreCounted (2 ^ 65) tallies.old tallies.new
        (λ bus. main_asked bus (V.cells x.now) (V.cells y.now)) (λ bus. main_given bus (V.cells x.now) (V.cells y.now))) }
{
    tuples_groups(op, x, y, &mut tallies.groups)?;
    tuples_overflow(op, x, y, &mut tallies.overflow)?;
    tuples_hasher(op, x, y, &mut tallies.hasher)?;
    tuples_bitwise(op, x, y, &mut tallies.bitwise)?;
    tuples_memory(op, x, y, &mut tallies.memory)?;
    tuples_range(op, x, y, &mut tallies.range)
}

// Another one has none of bitwise operations or of memory.
fn control<V: MainView>(op: Op, x: &V, y: &V, tallies: &mut Tallies) -> Result<(), Memory>
    requires op { op ≡ op_of (V.cells x.now) }
    requires bits { HasBits (V.cells x.now) }
    requires control { is_ordinary_op op ≡ false }
    requires batch { is_batch_op op ≡ true → positions (V.cells x.now) ≤ 8 }
    requires next { HasBits (V.cells y.now) }
    requires room { HaveSpace tallies.old }
    ensures { OnOk result (AreCounted (2 ^ 65) tallies.old tallies.new
        (λ bus. main_asked bus (V.cells x.now) (V.cells y.now)) (λ bus. main_given bus (V.cells x.now) (V.cells y.now))) }
{
    tuples_blocks(op, x, y, &mut tallies.blocks)?;
    tuples_children(op, x, y, &mut tallies.children)?;
    tuples_loops(op, x, y, &mut tallies.loops)?;
    tuples_groups(op, x, y, &mut tallies.groups)?;
    tuples_overflow(op, x, y, &mut tallies.overflow)?;
    tuples_hasher(op, x, y, &mut tallies.hasher)?;
    tuples_range(op, x, y, &mut tallies.range)?;
    tuples_kernel(op, x, &mut tallies.kernel)
}
