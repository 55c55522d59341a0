ghost use Rattle.std.specs.Prelude.{◌≡◌, ◌+◌, ◌⊎◌, ◌<◌, All, IfOk, IfSome};
ghost use Rattle.op_pack.specs.Digits.{IsNext, IsOrdinaryNext, left_of, size_of, go_on, pushed_on};
ghost use Rattle.op_pack.specs.Reading.{are_zero, positions_in_use, before, plain_digit, reading};
ghost use Rattle.vm_ops.specs.Items.{IsOrdinaryItem};

use crate::group::{GROUP, PUSH};
use std::alloc::Global;
use vm_field::{Felt, Memory};
use vm_ops::{Item, Items, Op, from_opcode};

/// How many of a batch's positions are read: the least of 1, 2, 4, 8 that covers the last
/// position that is not 0.
pub fn in_use(batch: &[Felt; 8]) -> usize
    ensures is { result ≡ positions_in_use batch.now }
    ensures among { (result ≡ 1) ⊎ ((result ≡ 2) ⊎ ((result ≡ 4) ⊎ (result ≡ 8))) }
{
    let elements = &batch[..];
    if are_zero(&elements[1..]) {
        1
    } else if are_zero(&elements[2..]) {
        2
    } else if are_zero(&elements[4..]) {
        4
    } else {
        8
    }
}

fn are_zero(elements: &[Felt]) -> bool
    ensures { result ≡ are_zero elements.now }
{
    elements.iter().all(|x| x.value() == 0)
}

/// What is still to be read of a batch: the positions that are not taken yet, how many operations
/// the current group may still have, and the rest of its number.
#[derive(Clone, Copy)]
pub(crate) struct Unread<'a> {
    pub(crate) positions: &'a [Felt],
    pub(crate) room: usize,
    pub(crate) number: u64,
}

/// What the next digit is.
pub(crate) enum Next<'a> {
    /// An operation, and more behind it.
    Goes(Item, Unread<'a>),
    /// The last operation.
    Ends(Item),
    /// No operation.
    NoReading,
}

impl<'a> Unread<'a> {
    fn next(self) -> Next<'a>
        ensures is { IsNext (left_of self.entry) (size_of self.entry) result }
        ensures ordinary { IsOrdinaryNext result }
    {
        if self.room == 0 {
            return Next::NoReading;
        }
        let digit = self.number % 128;
        let behind = Unread {
            positions: self.positions,
            room: self.room - 1,
            number: self.number / 128,
        };
        if digit < PUSH {
            behind.after_plain(plain_digit(digit as u8))
        } else if digit == PUSH {
            behind.after_push()
        } else {
            Next::NoReading
        }
    }

    // Where the number is used up, the next position is the next group.
    fn after_plain(self, item: Item) -> Next<'a>
        requires { IsOrdinaryItem item }
        ensures is { IsNext (before item (go_on self.entry.positions.now self.entry.room self.entry.number)) (size_of self.entry + 1) result }
        ensures ordinary { IsOrdinaryNext result }
    {
        if self.number != 0 {
            return Next::Goes(item, self);
        }
        match self.positions.split_first() {
            Some((position, later)) => Next::Goes(
                item,
                Unread {
                    positions: later,
                    room: GROUP,
                    number: position.value(),
                },
            ),
            None => Next::Ends(item),
        }
    }

    // PUSH takes the next position as its immediate.
    fn after_push(self) -> Next<'a>
        ensures is { IsNext (pushed_on self.entry.positions.now self.entry.room self.entry.number) (size_of self.entry + 1) result }
        ensures ordinary { IsOrdinaryNext result }
    {
        match self.positions.split_first() {
            Some((position, later)) => Next::Goes(
                Item::push(*position),
                Unread {
                    positions: later,
                    room: self.room,
                    number: self.number,
                },
            ),
            None => Next::NoReading,
        }
    }
}

fn plain_digit(digit: u8) -> Item
    requires { digit < 69 }
    ensures is { result ≡ plain_digit digit }
    ensures ordinary { IsOrdinaryItem result }
{
    Item::plain(from_opcode(digit).unwrap_or(Op::Noop))
}

/// The operations of a batch; none exactly where a digit is no ordinary operation, a group is too
/// long, or a PUSH has no immediate.
#[tactic(auto, unfolding(crate::specs::Reading::reading))]
pub fn unpack(alloc: Global, batch: &[Felt; 8]) -> Result<Option<Items>, Memory>
    ensures is { IfOk result (λ items. items ≡ reading batch.now) }
    ensures ordinary { IfOk result (λ reading. IfSome reading (λ items. All IsOrdinaryItem items)) }
{
    let mut items = Items::new(alloc);
    let elements = &batch[..];
    let mut unread = Unread {
        positions: &elements[1..in_use(batch)],
        room: GROUP,
        number: batch[0].value(),
    };
    loop {
        match unread.next() {
            Next::Goes(item, later) => {
                items.push(item)?;
                unread = later;
            }
            Next::Ends(item) => {
                items.push(item)?;
                return Ok(Some(items));
            }
            Next::NoReading => return Ok(None),
        }
    }
}
