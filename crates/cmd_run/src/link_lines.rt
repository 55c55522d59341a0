// What `runs` prints.
ghost use Rattle.std.specs.Prelude.{◌≡◌, [], option_map, unwrap_or, IfOk};
ghost use Rattle.cmd_kit.specs.RunsSteps.{links_lines};

use decimal_text::{append_elements, append_number};
use std::alloc::Global;
use vm_field::{Bytes, Felts, Memory};

// `links N`, and `outputs O1 O2 ..` with each cell that the last one left.
pub(crate) fn links_text(alloc: Global, number: u64, left: Option<&Felts>) -> Result<Bytes, Memory>
    ensures { IfOk result (λ text. text ≡ links_lines number (unwrap_or (option_map (λ cells. cells.now) left.entry) [])) }
{
    let mut text = Bytes::copied(alloc, b"links ")?;
    append_number(&mut text, number)?;
    text.append(b"\noutputs")?;
    if let Some(cells) = left {
        append_elements(&mut text, cells.as_slice())?;
    }
    text.append(b"\n")?;
    Ok(text)
}
