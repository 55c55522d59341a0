ghost use Rattle.std.specs.Prelude.{◌≡◌, IfOk};
ghost use Rattle.cmd_kit.specs.Outcomes.{SaysStatus, SaysLine};
ghost use Rattle.cmd_kit.specs.Steps.{named_line};

use crate::answer::Answer;
use crate::status::Status;
use std::alloc::Global;
use vm_field::{Bytes, Memory};

/// How a command's work ended, before its line is printed.
#[derive(Drop)]
pub enum Outcome {
    /// With an answer.
    Ends(Answer),
    /// Memory was refused.
    Memory,
}

/// The answer with this status and line, where there was memory for the line.
pub fn answered(status: Status, line: Result<Bytes, Memory>) -> Outcome
    ensures { SaysLine result status line }
{
    match line {
        Ok(line) => Outcome::Ends(Answer { status, line }),
        Err(_) => Outcome::Memory,
    }
}

/// The answer whose line is a text and a name behind it.
#[tactic(auto, using(crate::proofs::OutcomeLemmas::says_line))]
pub fn named_answer(alloc: Global, status: Status, text: &str, name: &str) -> Outcome
    ensures { SaysStatus result status (named_line text.now name.now) }
{
    answered(status, line_with(alloc, text, name))
}

fn line_with(alloc: Global, text: &str, name: &str) -> Result<Bytes, Memory>
    ensures { IfOk result (λ line. line ≡ named_line text.now name.now) }
{
    let mut line = Bytes::copied(alloc, text.as_bytes())?;
    line.append(name.as_bytes())?;
    line.append(b"\n")?;
    Ok(line)
}
