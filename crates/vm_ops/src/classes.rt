ghost use Rattle.std.specs.Prelude.{◌≡◌};
ghost use Rattle.vm_ops.specs.Codes.{accesses_memory, is_ordinary_op, is_start_op, kind_of, takes_advice, writes_memory};

use crate::kind::Kind;
use crate::moves::advice;
use crate::op::Op;
use crate::table::row_of;

/// What the operation's cycles are.
pub fn kind_of(op: Op) -> Kind
    ensures { result ≡ kind_of op }
{
    row_of(op).kind
}

/// Whether a batch may hold the operation.
pub fn is_ordinary(op: Op) -> bool
    ensures { result ≡ is_ordinary_op op }
{
    matches!(kind_of(op), Kind::Ordinary)
}

/// Whether the operation starts a block.
pub fn is_start(op: Op) -> bool
    ensures { result ≡ is_start_op op }
{
    match kind_of(op) {
        Kind::Join
        | Kind::Split
        | Kind::Loop
        | Kind::Span
        | Kind::Call
        | Kind::Syscall
        | Kind::Dyn => true,
        Kind::Ordinary | Kind::End | Kind::Repeat | Kind::Respan | Kind::Halt => false,
    }
}

/// Whether the operation takes elements from the tape.
pub fn takes_advice(op: Op) -> bool
    ensures { result ≡ takes_advice op }
{
    0 < advice(op)
}

/// Whether the operation reads or writes this context's word of memory at the address on top.
pub fn accesses_memory(op: Op) -> bool
    ensures { result ≡ accesses_memory op }
{
    matches!(op, Op::MLoad | Op::MLoadW | Op::MStore | Op::MStoreW)
}

/// Whether the operation writes that word.
pub fn writes_memory(op: Op) -> bool
    ensures { result ≡ writes_memory op }
{
    matches!(op, Op::MStore | Op::MStoreW)
}
