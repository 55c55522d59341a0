ghost use Rattle.std.specs.Prelude.{◌≡◌, ◌++◌, ◌^◌, ◌<◌, All, OnOk};
ghost use Rattle.complete_rows.specs.Limbs.{cell};
ghost use Rattle.complete_rows.specs.Numbers.{HasU32Address};
ghost use Rattle.complete_rows.specs.RunRequests.{access, accesses_by};

use crate::numbers::u32_of;
use air_kit::Access;
use machine_cycles::Event;
use vm_field::{Memory, Sequence};
use vm_ops::Op;

// Adds the accesses of memory of an event.
pub(crate) fn push_accesses(accesses: &mut Sequence<Access>, event: &Event) -> Result<(), Memory>
    requires { All HasU32Address (accesses_by event.now.op event.now) }
    ensures { OnOk result (accesses.new ≡ accesses.old ++ accesses_by event.now.op event.now) }
{
    match event.op {
        Op::MLoad | Op::MLoadW => push_access(accesses, 0, event),
        Op::MStore => push_access(accesses, 2, event),
        Op::MStoreW => push_access(accesses, 1, event),
        _ => Ok(()),
    }
}

// An access of a kind, at the address on top.
fn push_access(accesses: &mut Sequence<Access>, kind: u8, event: &Event) -> Result<(), Memory>
    requires { cell event.now.before 0 < 2 ^ 32 }
    ensures { OnOk result (accesses.new ≡ accesses.old ++ access kind event.now) }
{
    accesses.push(Access {
        kind,
        ctx: event.before.context,
        addr: u32_of(event.before.cells[0]),
        clk: event.before.clock,
        word: event.word,
    })
}
