ghost use Rattle.std.specs.Prelude.{◌≡◌, ◌<◌, ◌≤◌, All, length};
ghost use Rattle.vm_ops.specs.Moves.{leaves_of, shift_of, sources_of, takes_of};
ghost use Rattle.vm_ops.specs.Values.{advice_of};

use crate::op::{Op, Shift};
use crate::table::row_of;

/// How many cells the operation takes from the top of the stack. END's are its block's, and 0 here.
#[tactic(auto, using(crate::proofs::MoveLemmas::move_bounds))]
pub fn takes(op: Op) -> usize
    ensures is { result ≡ takes_of op }
    ensures few { result ≤ 16 }
{
    row_of(op).takes
}

/// How many cells the operation leaves in place of those.
#[tactic(auto, using(crate::proofs::MoveLemmas::move_bounds))]
pub fn leaves(op: Op) -> usize
    ensures is { result ≡ leaves_of op }
    ensures few { result ≤ 16 }
{
    let row = row_of(op);
    row.computes + row.sources.len()
}

/// The cells of which the operation leaves copies, top first: all that a pure move leaves, and none
/// where a value is computed.
#[tactic(auto, using(crate::proofs::MoveLemmas::move_bounds))]
pub fn sources(op: Op) -> &'static [usize]
    ensures is { result.now ≡ sources_of op }
    ensures few { length result.now ≤ 16 }
    ensures visible { All (λ i. i < 16) result.now }
{
    row_of(op).sources
}

/// How many elements the operation takes from the tape.
#[tactic(auto, using(crate::proofs::MoveLemmas::move_bounds))]
pub fn advice(op: Op) -> usize
    ensures is { result ≡ advice_of op }
    ensures few { result ≤ 4 }
{
    row_of(op).advice
}

/// Where the operation shifts the cells below those that it takes. SPLIT, LOOP and REPEAT pop
/// their condition.
pub fn shift(op: Op) -> Shift
    ensures { result ≡ shift_of op }
{
    let (taken, left) = (takes(op), leaves(op));
    if left < taken {
        Shift::Left
    } else if taken < left {
        Shift::Right
    } else {
        Shift::Stay
    }
}
