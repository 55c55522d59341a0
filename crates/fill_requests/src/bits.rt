ghost use Rattle.std.specs.Prelude.{◌≡◌, ◌++◌, All, OnOk};
ghost use Rattle.complete_rows.specs.Limbs.{cell};
ghost use Rattle.complete_rows.specs.Numbers.{HasU32Operands};
ghost use Rattle.complete_rows.specs.RunRequests.{bits_by};

use crate::numbers::u32_of;
use air_kit::BitOp;
use machine_cycles::{Event, Visible};
use vm_field::{Memory, Sequence};
use vm_ops::Op;

// Adds the bitwise operations of an event.
pub(crate) fn push_bits(bits: &mut Sequence<BitOp>, event: &Event) -> Result<(), Memory>
    requires { All HasU32Operands (bits_by event.now.op event.now.before) }
    ensures { OnOk result (bits.new ≡ bits.old ++ bits_by event.now.op event.now.before) }
{
    match event.op {
        Op::U32And => bits.push(bit_op(false, &event.before)),
        Op::U32Xor => bits.push(bit_op(true, &event.before)),
        _ => Ok(()),
    }
}

// The operation on the two cells on top.
fn bit_op(xor: bool, seen: &Visible) -> BitOp
    requires { HasU32Operands (record { xor = xor; a = cell seen.now 0; b = cell seen.now 1 }) }
    ensures { result ≡ record { xor = xor; a = cell seen.now 0; b = cell seen.now 1 } }
{
    BitOp {
        xor,
        a: u32_of(seen.cells[0]),
        b: u32_of(seen.cells[1]),
    }
}
