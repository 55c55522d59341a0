// What `run` prints.
ghost use Rattle.std.specs.Prelude.{◌≡◌, ◌++◌, IfOk, OnOk};
ghost use Rattle.std.specs.List.{flat_map};
ghost use Rattle.vm_state.specs.Views.{state_of};
ghost use Rattle.cmd_kit.specs.RunEnds.{run_lines};
ghost use Rattle.decimal_text.specs.Decimals.{element_text};

use decimal_text::{append_element, append_number};
use std::alloc::Global;
use vm_field::{Bytes, Memory};
use vm_state::State;

/// What is told of a run that ended in this state: `cycles N`, and `outputs O1 O2 ..` with each cell of its stack.
///
/// # Errors
///
/// `Memory` where the system gave none for the lines.
pub fn run_text(alloc: Global, state: &State) -> Result<Bytes, Memory>
    ensures { IfOk result (λ text. text ≡ run_lines (state_of state.now)) }
{
    let mut text = Bytes::copied(alloc, b"cycles ")?;
    append_number(&mut text, u64::from(state.clock))?;
    text.append(b"\noutputs")?;
    append_outputs(&mut text, state)?;
    text.append(b"\n")?;
    Ok(text)
}

fn append_outputs(text: &mut Bytes, state: &State) -> Result<(), Memory>
    ensures { OnOk result (text.new ≡ text.old ++ flat_map element_text state.now.stack) }
{
    for cell in 0..state.depth() {
        append_element(text, state.peek(cell))?;
    }
    Ok(())
}
