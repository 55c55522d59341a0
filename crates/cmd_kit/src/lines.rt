// A digest in a printed line.
ghost use Rattle.std.specs.Prelude.{◌≡◌, ◌++◌, OnOk};
ghost use Rattle.vm_field.specs.WordText.{word_hex};

use std::alloc::Global;
use vm_field::{Bytes, Memory, Word};

/// Adds the 64 digits of a digest.
pub fn append_word(alloc: Global, line: &mut Bytes, word: &Word) -> Result<(), Memory>
    ensures { OnOk result (line.new ≡ line.old ++ word_hex word.now) }
{
    let text = word.hex(alloc)?;
    line.append(text.as_bytes())
}
