ghost use Rattle.std.specs.Prelude.{ℕ, List, Some, ◌≤◌, length, OnOk, IfErr};
ghost use Rattle.vm_field.specs.Limits.{most_name_bytes};
ghost use Rattle.cmd_kit.specs.Commands.{IsRight};
ghost use Rattle.cmd_kit.specs.Outcomes.{EndsIn, Continues};
ghost use Rattle.cmd_kit.specs.Steps.{Right, Steps, writing};

use crate::outcome::{Outcome, named_answer};
use crate::status::Status;
use std::alloc::Global;
use vm_io::{Shelf, WriteStop};

/// Writes a file, of bytes that are right for it. An `Err` is how the command ends, whatever was to
/// come next.
#[tactic(auto, using(crate::proofs::ServingLemmas::goes_past_write, crate::proofs::ServingLemmas::same_again))]
pub fn save<F: Shelf>(alloc: Global, shelf: &mut F, name: &str, bytes: &[u8]) -> Result<(), Outcome>
    requires { length name.now ≤ most_name_bytes }
    ensures written { OnOk result ((right : Right) (next : List ℕ → Steps) → IsRight right bytes.now
        → Continues (writing name.now right next) (next bytes.now) (F.state shelf.old) (F.state shelf.new)) }
    ensures stopped { IfErr result (λ end. (right : Right) (next : List ℕ → Steps) → IsRight right bytes.now
        → EndsIn (Some (writing name.now right next)) end (F.state shelf.old) (F.state shelf.new)) }
{
    match shelf.write(alloc, name, bytes) {
        Ok(()) => Ok(()),
        Err(WriteStop::Failed) => Err(named_answer(
            alloc,
            Status::WriteFault,
            "write fault ",
            name,
        )),
        Err(WriteStop::Memory) => Err(Outcome::Memory),
    }
}
