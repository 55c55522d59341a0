ghost use Rattle.std.specs.Prelude.{◌≡◌, ◌++◌, All, OnOk};
ghost use Rattle.complete_rows.specs.Numbers.{IsU16};
ghost use Rattle.complete_rows.specs.RunRequests.{ranges_by};

use crate::limbs::limbs_of;
use crate::numbers::u16_of;
use machine_cycles::{Event, Visible};
use vm_field::{Felt, Memory, Sequence};
use vm_ops::is_start;

// Adds the numbers of 16 bits of an event before a state. A start shows how many more blocks may nest in it.
pub(crate) fn push_ranges(
    ranges: &mut Sequence<u16>,
    event: &Event,
    next: &Visible,
) -> Result<(), Memory>
    requires { All IsU16 (ranges_by event.now next.now) }
    ensures { OnOk result (ranges.new ≡ ranges.old ++ ranges_by event.now next.now) }
{
    if is_start(event.op) {
        return ranges.push(1024u32.saturating_sub(next.nesting) as u16);
    }
    let limbs = limbs_of(event, next);
    let cells = &limbs.cells[..];
    push_limbs(ranges, &cells[..limbs.count])
}

// Limbs.
fn push_limbs(ranges: &mut Sequence<u16>, limbs: &[Felt]) -> Result<(), Memory>
    requires { All IsU16 limbs.now }
    ensures { OnOk result (ranges.new ≡ ranges.old ++ limbs.now) }
{
    for i in 0..limbs.len() {
        ranges.push(u16_of(limbs[i]))?;
    }
    Ok(())
}
