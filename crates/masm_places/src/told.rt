ghost use Rattle.std.specs.Prelude.{◌≡◌};
ghost use Rattle.masm_places.specs.Pending.{walk_of};
ghost use Rattle.masm_places.specs.Told.{skipped, starts_part};

use crate::walk::Walk;
use vm_ops::{Kind, Op, kind_of};

// Whether the block of a statement starts.
fn starts_part(kind: Kind) -> bool
    ensures { result ≡ starts_part kind }
{
    match kind {
        Kind::Split | Kind::Loop | Kind::Call | Kind::Syscall | Kind::Dyn => true,
        Kind::Ordinary
        | Kind::Join
        | Kind::Span
        | Kind::End
        | Kind::Repeat
        | Kind::Respan
        | Kind::Halt => false,
    }
}

impl<'a> Walk<'a> {
    /// How many of the innermost levels are not told behind a cycle of this operation: the one that it
    /// has begun, if it has begun one.
    pub fn skipped(&self, op: Op) -> usize
        ensures { result ≡ skipped op (walk_of self.now) }
    {
        if starts_part(kind_of(op)) && self.nested == 0 {
            1
        } else {
            0
        }
    }
}
