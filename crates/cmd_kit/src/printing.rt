ghost use Rattle.cmd_kit.specs.Outcomes.{PrintStep};

use crate::outcome::Outcome;
use crate::status::Status;
use std::alloc::Global;
use vm_io::{Sink, SinkStop};

/// Prints the lines of a command in one call of the sink, and gives the status that the program ends with: the command's own, or
/// `SinkFault` where the lines were not taken whole, or `Memory` where the command or the sink had none, with nothing printed.
pub fn print<K: Sink>(alloc: Global, out: &mut K, outcome: Outcome) -> Status
    ensures { PrintStep outcome result (K.state out.old) (K.state out.new) }
{
    match outcome {
        Outcome::Ends(answer) => match out.write(alloc, answer.line.as_slice()) {
            Ok(()) => answer.status,
            Err(SinkStop::Failed) => Status::SinkFault,
            Err(SinkStop::Memory) => Status::Memory,
        },
        Outcome::Memory => Status::Memory,
    }
}
