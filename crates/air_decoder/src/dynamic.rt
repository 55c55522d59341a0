//! What a dynamic block is hashed from: entries 148 to 151.
ghost use Rattle.std.specs.Prelude.{◌≡◌, ◌≢◌, ◌<◌, IsTrue};
ghost use Rattle.vm_ops.specs.Codes.{code_of};
ghost use Rattle.air_kit.specs.DynValues.{entry_148, dyn_values};
ghost use Rattle.air_kit.specs.Flags.{flag};
ghost use Rattle.air_kit.specs.Places.{first_fault_of};
ghost use Rattle.air_kit.specs.Rows.{spot_at};
ghost use Rattle.air_blocks.specs.Entries.{of_row};
ghost use Rattle.vm_ops.specs.declared.op.Op.TheVariants as ops;

use air_kit::{Place, Seen, first_nonzero};
use vm_field::Felt;
use vm_ops::{Op, opcode};
use vm_table::MainView;

/// The first of entries 148 to 151 that is not 0 at a place of the main table, with its number and its value. The place's row is
/// decoded already.
pub fn dyn_fault_seen<V: MainView>(place: &Place<'_, V>, x: &Seen<'_, V>) -> Option<(u16, Felt)>
    requires { x.now.row.now ≡ place.now.cur }
    ensures { result ≡ first_fault_of 148 (dyn_values (spot_at V.cells place.now)) }
{
    if is_not_dynamic(x) {
        return None;
    }
    hash_fault(place, x)
}

// The same by its four values.
#[inline(never)]
#[tactic(auto, unfolding(air_kit::specs::DynValues::dyn_values, air_kit::specs::Places::family))]
fn hash_fault<V: MainView>(place: &Place<'_, V>, x: &Seen<'_, V>) -> Option<(u16, Felt)>
    requires { x.now.row.now ≡ place.now.cur }
    ensures { result ≡ first_fault_of 148 (dyn_values (spot_at V.cells place.now)) }
{
    let _ = place;
    let values = [
        entry_148(0, x),
        entry_148(1, x),
        entry_148(2, x),
        entry_148(3, x),
    ];
    first_nonzero(&values, 148)
}

// Whether the row's operation is one, and starts no dynamic block, so that all four entries are 0.
fn is_not_dynamic<V: MainView>(x: &Seen<'_, V>) -> bool
    ensures { IsTrue result → flag (V.cells x.now.row.now) ops.Dyn ≡ 0 }
{
    match x.operation() {
        Some(op) => is_other(op),
        None => false,
    }
}

fn is_other(op: Op) -> bool
    ensures { IsTrue result → code_of op ≢ 80 }
{
    opcode(op) != opcode(Op::Dyn)
}

// 148 to 151: the first four hash elements are zeros, as the last four are by 75 to 78.
#[tactic(auto, unfolding(air_kit::specs::DynValues::entry_148))]
fn entry_148<V: MainView>(j: usize, x: &Seen<'_, V>) -> Felt
    requires { j < 4 }
    ensures { result ≡ of_row (entry_148 j) (V.cells x.now.row.now) }
{
    x.one(Op::Dyn) * x.row.h(j)
}
