ghost use Rattle.std.specs.Prelude.{ℕ, List, Some, ◌≤◌, length, OnOk, IfErr};
ghost use Rattle.vm_field.specs.Limits.{most_name_bytes};
ghost use Rattle.cmd_kit.specs.Commands.{IsRight};
ghost use Rattle.cmd_kit.specs.Outcomes.{EndsIn, Continues};
ghost use Rattle.cmd_kit.specs.Steps.{Right, Steps, writing};

use crate::outcome::{Outcome, named_answer};
use crate::status::Status;
use std::alloc::Global;
use vm_io::{Pieces, Shelf, WriteStop};

/// Writes a file as `save` does, of bytes that are given piece by piece.
#[tactic(auto, using(crate::proofs::ServingLemmas::goes_past_write, crate::proofs::ServingLemmas::same_again))]
pub fn save_pieces<F: Shelf, P: Pieces>(
    alloc: Global,
    shelf: &mut F,
    name: &str,
    pieces: &mut P,
) -> Result<(), Outcome>
    requires { length name.now ≤ most_name_bytes }
    ensures written { OnOk result ((right : Right) (next : List ℕ → Steps) → IsRight right (P.rest pieces.old)
        → Continues (writing name.now right next) (next (P.rest pieces.old)) (F.state shelf.old) (F.state shelf.new)) }
    ensures stopped { IfErr result (λ end. (right : Right) (next : List ℕ → Steps) → IsRight right (P.rest pieces.old)
        → EndsIn (Some (writing name.now right next)) end (F.state shelf.old) (F.state shelf.new)) }
{
    match shelf.write_pieces(alloc, name, pieces) {
        Ok(()) => Ok(()),
        Err(WriteStop::Failed) => Err(named_answer(
            alloc,
            Status::WriteFault,
            "write fault ",
            name,
        )),
        Err(WriteStop::Memory) => Err(Outcome::Memory),
    }
}
