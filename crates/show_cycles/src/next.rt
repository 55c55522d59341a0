ghost use Rattle.std.specs.Prelude.{◌≡◌, ◌++◌, IfOk, OnOk};
ghost use Rattle.masm_places.specs.Indexed.{texts_in};
ghost use Rattle.masm_places.specs.Pending.{walk_of};
ghost use Rattle.masm_places.specs.Walks.{begin};
ghost use Rattle.show_cycles.specs.CycleLines.{gone};
ghost use Rattle.show_cycles.specs.NextLine.{behind, next_line};

use crate::places::append_told;
use machine_cycles::{Event, Events};
use masm_places::{Sources, Walk};
use std::alloc::Global;
use vm_field::{Bytes, Memory};
use vm_ops::Item;

// A walk goes on by a cycle.
fn go_on<'a>(
    alloc: Global,
    sources: &Sources<'a>,
    walk: &mut Walk<'a>,
    event: &Event,
) -> Result<(), Memory>
    ensures { OnOk result (walk_of walk.new ≡ gone (texts_in sources.now) (walk_of walk.old) event.now) }
{
    let item = Item {
        op: event.op,
        imm: event.imm,
    };
    walk.step(alloc, sources, &item, event.before.cells[0])
}

// The walk behind these cycles.
fn walk_behind<'a>(alloc: Global, sources: &Sources<'a>, log: &Events) -> Result<Walk<'a>, Memory>
    ensures { IfOk result (λ walk. walk_of walk ≡ behind (texts_in sources.now) (begin (texts_in sources.now)) log.now) }
{
    let mut walk = Walk::begin(alloc, sources)?;
    for place in 0..log.len() {
        go_on(alloc, sources, &mut walk, &log.event(place))?;
    }
    Ok(walk)
}

/// Adds a line that tells where a run goes on behind these cycles: the place of the instruction to which the next cycle would belong,
/// and the calls that led there with their places.
///
/// # Errors
///
/// `Memory` where the system gave none.
pub fn append_next(
    alloc: Global,
    text: &mut Bytes,
    sources: &Sources<'_>,
    log: &Events,
) -> Result<(), Memory>
    ensures { OnOk result (text.new ≡ text.old ++ next_line (texts_in sources.now) log.now) }
{
    let mut walk = walk_behind(alloc, sources, log)?;
    walk.await_next(alloc, sources)?;
    text.append(b"next")?;
    append_told(text, &walk.levels, 0)?;
    text.append(b"\n")
}
