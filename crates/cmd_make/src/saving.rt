// The two files of a workload, and what is told.
ghost use Rattle.std.specs.Prelude.{◌≤◌, length};
ghost use Rattle.vm_field.specs.Limits.{most_name_bytes};
ghost use Rattle.cmd_make.specs.Naming.{AreNamed, names_from};
ghost use Rattle.cmd_make.specs.Saves.{SavesBoth};
ghost use Rattle.cmd_run.specs.Saves.{SavesLast};

use crate::made::Made;
use crate::names::MadeNames;
use cmd_kit::{Outcome, Status, answered, save};
use std::alloc::Global;
use vm_field::Bytes;
use vm_io::Shelf;

/// Writes the source and then the inputs, and tells the run.
pub(crate) fn save_made<F: Shelf>(
    alloc: Global,
    shelf: &mut F,
    made: Made,
    names: MadeNames<'_>,
) -> Outcome
    requires { AreNamed names }
    ensures { SavesBoth made.source made.inputs made.lines (names_from names.entry) result (F.state shelf.old) (F.state shelf.new) }
{
    match save(alloc, shelf, names.source, made.source.as_slice()) {
        Ok(()) => save_inputs(alloc, shelf, names.inputs, made.inputs, made.lines),
        Err(end) => end,
    }
}

// Writes the inputs.
fn save_inputs<F: Shelf>(
    alloc: Global,
    shelf: &mut F,
    name: &str,
    inputs: Bytes,
    lines: Bytes,
) -> Outcome
    requires { length name.now ≤ most_name_bytes }
    ensures { SavesLast name.now inputs lines result (F.state shelf.old) (F.state shelf.new) }
{
    match save(alloc, shelf, name, inputs.as_slice()) {
        Ok(()) => answered(Status::Ok, Ok(lines)),
        Err(end) => end,
    }
}
