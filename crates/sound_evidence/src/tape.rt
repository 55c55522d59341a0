ghost use Rattle.std.specs.Prelude.{◌≡◌, ◌++◌, ◌∷◌, suc, ◌<◌, [], length, OnOk};
ghost use Rattle.air_kit.specs.RowStates.{taken_by};
ghost use Rattle.vm_table.specs.Layout.{row_at};

use air_kit::Trace;
use vm_field::{Felt, Felts, Memory};
use vm_ops::Op;
use vm_table::MainView;

// What a row with this operation takes from the tape: the row behind it has it on top.
pub(crate) fn append_taken(tape: &mut Felts, trace: &Trace, i: usize, op: Op) -> Result<(), Memory>
    requires { suc i < length trace.now.main }
    ensures { OnOk result (tape.new ≡ tape.old ++ taken_by op (row_at trace.now.main (suc i))) }
{
    let next = trace.main.pair(i).next;
    match op {
        Op::AdvPop => tape.push(next.s0()),
        Op::AdvPopW => append_word(tape, next.s3(), next.s2(), next.s1(), next.s0()),
        _ => Ok(()),
    }
}

#[tactic(auto, using(crate::proofs::Takings::four))]
fn append_word(tape: &mut Felts, a: Felt, b: Felt, c: Felt, d: Felt) -> Result<(), Memory>
    ensures { OnOk result (tape.new ≡ tape.old ++ (a ∷ b ∷ c ∷ d ∷ [])) }
{
    tape.push(a)?;
    tape.push(b)?;
    tape.push(c)?;
    tape.push(d)
}
