ghost use Rattle.std.specs.Prelude.{◌≡◌, ℕ, ◌+◌, ◌^◌, ◌<◌, ◌≤◌, List, [], ◌∷◌, length, slice_index_or, OnOk, OnErr};
ghost use Rattle.bus_kit.specs.Singles.{FirstApart};
ghost use Rattle.bus_kit.specs.Widths.{tallied};

use crate::count::Both;
use crate::tally::Tally;
use std::alloc::Global;
use vm_field::Memory;

/// The values that are counted by place: those below it.
pub const SMALL: usize = 65536;

/// How often each element was asked, and how often it was given: by place of those below 2^16, in a map
/// of the others.
#[derive(Drop)]
pub struct ValueTally {
    pub(crate) small: Vec<Both>,
    pub(crate) great: Tally<1>,
    ghost few: { length small.items ≤ 65536 },
    ghost none_is_small: { (v : ℕ) → v < 65536 → tallied great (v ∷ []) ≡ (0, 0) },
}

/// Makes room for all values that are counted by place.
pub fn make_room(small: &mut Vec<Both>, room: usize) -> Result<(), Memory>
    requires { length small.old.items ≤ room }
    ensures ok { OnOk result (length small.new.items ≡ room) }
    ensures same { (v : ℕ) → slice_index_or small.new.items v (0, 0) ≡ slice_index_or small.old.items v (0, 0) }
    ensures err { OnErr result (small.new.items ≡ small.old.items) }
{
    small.resize(room, (0, 0))?;
    Ok(())
}

/// The least place with two counts that are apart.
pub fn first_apart(small: &[Both]) -> Option<usize>
    ensures { FirstApart small.now result }
{
    for (place, both) in small.iter().enumerate() {
        if both.0 != both.1 {
            return Some(place);
        }
    }
    None
}
