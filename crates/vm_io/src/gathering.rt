ghost use Rattle.std.specs.Prelude.{◌≡◌, IfOk};

use crate::pieces::{Piece, Pieces};
use std::alloc::Global;
use vm_field::{Bytes, Memory};

/// All that the pieces have left, in memory.
pub fn gather<P: Pieces>(alloc: Global, pieces: &mut P) -> Result<Bytes, Memory>
    ensures { IfOk result (λ bytes. bytes ≡ P.rest pieces.old) }
{
    let mut bytes = Bytes::new(alloc);
    let mut room = Piece::new();
    loop {
        pieces.next_piece(&mut room);
        if room.is_empty() {
            return Ok(bytes);
        }
        bytes.append(room.as_slice())?;
    }
}
