ghost use Rattle.std.specs.Prelude.{◌≡◌};
ghost use Rattle.air_kit.specs.Flags.{is_op};

use vm_ops::{Op, opcode};

/// Whether two operations are the same.
pub fn is_op(op: Op, other: Op) -> bool
    ensures { result ≡ is_op op other }
{
    opcode(op) == opcode(other)
}
