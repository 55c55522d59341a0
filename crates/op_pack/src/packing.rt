ghost use Rattle.std.specs.Prelude.{◌≡◌, ◌≢◌, true, [], ◌∷◌, ◌^◌, ◌<◌, ◌≤◌, length, replicate, IfOk};
ghost use Rattle.op_pack.specs.Packing.{has_immediate, fits, opens, placed, zeros_behind, batch_of, first_placed, packed};

use crate::batches::Batches;
use crate::group::{GROUP, PUSH};
use std::alloc::Global;
use vm_field::{Felt, Memory};
use vm_ops::{Item, opcode};

/// What comes from a place of a batch on: the rest of the current group's number, and the
/// operations that open the next batch.
#[derive(Clone, Copy)]
struct Placement<'a> {
    number: u64,
    rest: &'a [Item],
}

fn has_immediate(item: &Item) -> bool
    ensures { result ≡ has_immediate item.now }
{
    u64::from(opcode(item.op)) >= PUSH
}

// Room in the current group, and for a PUSH for one more operation and a free position.
fn fits(room: usize, free: usize, item: &Item) -> bool
    ensures { result ≡ fits room free item.now }
{
    if has_immediate(item) {
        1 < room && 0 < free
    } else {
        0 < room
    }
}

// Room for a new group, and for the immediate of a PUSH.
fn opens(free: usize, item: &Item) -> bool
    ensures { result ≡ opens free item.now }
{
    usize::from(has_immediate(item)) < free
}

// Places operations into the current group and the free positions. A group's number is made from
// its last operation back, since its first is the lowest digit.
#[cycle(placing)]
fn place<'a>(items: &'a [Item], room: usize, positions: &mut [Felt]) -> Placement<'a>
    requires room { room ≤ 9 }
    requires free { positions.old ≡ replicate (length positions.old) 0 }
    ensures number { result.number ≡ (placed room (length positions.old) items.now).number }
    ensures below { result.number < 128 ^ room }
    ensures positions { positions.new ≡ zeros_behind (length positions.old) (placed room (length positions.old) items.now).positions }
    ensures rest { result.rest.now ≡ (placed room (length positions.old) items.now).rest }
{
    let Some((item, later)) = items.split_first() else {
        return Placement {
            number: 0,
            rest: items,
        };
    };
    if fits(room, positions.len(), item) {
        return put(item, later, room, positions);
    }
    if !opens(positions.len(), item) {
        return Placement {
            number: 0,
            rest: items,
        };
    }
    let behind = place(items, GROUP, &mut positions[1..]);
    positions[0] = element(behind.number);
    Placement {
        number: 0,
        rest: behind.rest,
    }
}

// The operation next in the current group, its immediate at the next free position, and then the
// later ones.
#[cycle(placing)]
fn put<'a>(item: &Item, later: &'a [Item], room: usize, positions: &mut [Felt]) -> Placement<'a>
    requires room { room ≤ 9 }
    requires fits { fits room (length positions.old) item.now ≡ true }
    requires free { positions.old ≡ replicate (length positions.old) 0 }
    ensures number { result.number ≡ (placed room (length positions.old) (item.now ∷ later.now)).number }
    ensures below { result.number < 128 ^ room }
    ensures positions { positions.new ≡ zeros_behind (length positions.old) (placed room (length positions.old) (item.now ∷ later.now)).positions }
    ensures rest { result.rest.now ≡ (placed room (length positions.old) (item.now ∷ later.now)).rest }
{
    let behind = if has_immediate(item) {
        positions[0] = item.imm.unwrap_or(Felt::ZERO);
        place(later, room - 1, &mut positions[1..])
    } else {
        place(later, room - 1, positions)
    };
    Placement {
        number: u64::from(opcode(item.op)) + 128 * behind.number,
        rest: behind.rest,
    }
}

fn element(number: u64) -> Felt
    requires { number < 2 ^ 63 }
    ensures { result ≡ number }
{
    Felt::try_from_u64(number).unwrap_or(Felt::ZERO)
}

// The first batch of some operations, and those that it doesn't hold.
#[tactic(auto, unfolding(crate::specs::Packing::first_placed))]
fn first_batch(items: &[Item]) -> ([Felt; 8], &[Item])
    ensures batch { result.0 ≡ batch_of (first_placed items.now) }
    ensures rest { result.1.now ≡ (first_placed items.now).rest }
    ensures fewer { items.now ≢ [] → length result.1.now < length items.now }
{
    let mut batch = [Felt::ZERO; 8];
    let elements = &mut batch[..];
    let behind = place(items, GROUP, &mut elements[1..]);
    elements[0] = element(behind.number);
    (batch, behind.rest)
}

/// Packs operations into batches, one after another: nine to a group at most, each immediate at
/// the next free position. What is read back are these operations up to NOOPs, where each is
/// ordinary and has an immediate, which is not 0, exactly where it is PUSH.
pub fn pack(alloc: Global, items: &[Item]) -> Result<Batches, Memory>
    requires { items.now ≢ [] }
    ensures is { IfOk result (λ batches. batches ≡ packed items.now) }
{
    let (first, mut rest) = first_batch(items);
    let mut batches = Batches::of(alloc, first)?;
    while !rest.is_empty() {
        let (batch, later) = first_batch(rest);
        batches.push(batch)?;
        rest = later;
    }
    Ok(batches)
}
