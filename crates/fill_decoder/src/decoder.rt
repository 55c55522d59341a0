ghost use Rattle.std.specs.Prelude.{◌≡◌, ◌+◌, ◌*◌, ◌^◌, ◌<◌, drop, slice_get, slice_index, length, List, IfOk, OnOk};
ghost use Rattle.air_kit.specs.DeepCells.{key_of, keys_at_start};
ghost use Rattle.complete_rows.specs.Decoder.{address_of, at_start, called, closed, keys_after, next_after, opened, popped};
ghost use Rattle.complete_rows.specs.Groups.{batch_begun, taken_from};
ghost use Rattle.vm_ops.specs.declared.kind.Kind.TheVariants as kinds;
ghost use Rattle.vm_ops.specs.Moves.{shift_of};
ghost use Rattle.fill_decoder.specs.Bounds.{HasRoom};
ghost use Rattle.fill_decoder.specs.Views.{advance_as, decoder_in, unread_in};

use crate::positions::positions_of;
use crate::stack::Stack;
use air_kit::input_key;
use fill_requests::is_op;
use machine_cycles::Event;
use std::alloc::Global;
use std::marker::Model;
use std::mem;
use vm_field::{Felt, Memory};
use vm_ops::{Kind, Op, Shift, shift};

/// A block that was started and not ended: where its hash starts, and the keys of the cells that a
/// call hides.
#[derive(Drop)]
pub struct Open {
    pub address: u64,
    pub hidden: Stack<Felt>,
}

impl Model for Open {
    ghost use Rattle.complete_rows.specs.Decoder as rows;

    ghost Value = { rows.Open };

    ghost view = { λ b. record { address = b.address; hidden = b.hidden } };
}

/// What rows show beside the machine's state: the blocks that are open, what is left of the batch,
/// and the keys of the cells below the sixteenth.
#[derive(Drop)]
pub struct Decoder {
    pub alloc: Global,
    pub blocks: Stack<Open>,
    pub next: u64,
    pub ha: u64,
    // what is left of the group's number, the place in it, and the positions that no group and no
    // immediate has taken yet
    pub number: Felt,
    pub place: u64,
    pub positions: Stack<Felt>,
    pub keys: Stack<Felt>,
}

impl Decoder {
    /// Before the first cycle, on a stack with so many inputs below the sixteenth, where each has
    /// its key.
    ///
    /// # Errors
    ///
    /// `Memory` where the system gave none for a key.
    pub fn new(alloc: Global, deep: usize) -> Result<Decoder, Memory>
        requires { deep < 2 ^ 32 }
        ensures { IfOk result (λ d. decoder_in d ≡ at_start deep) }
    {
        let keys = input_keys(alloc, deep)?;
        Ok(Decoder {
            alloc,
            blocks: Stack::new(alloc),
            next: 1,
            ha: 0,
            number: Felt::ZERO,
            place: 0,
            positions: Stack::new(alloc),
            keys,
        })
    }

    /// The address of the newest block, and 0 where none is open.
    #[tactic(auto, using(crate::proofs::DecoderLemmas::newest_address, crate::proofs::DecoderLemmas::no_address))]
    pub fn address(&self) -> u64
        ensures { result ≡ address_of self.now.blocks }
    {
        match self.blocks.first() {
            Some(block) => block.address,
            None => 0,
        }
    }

    /// The key of the newest cell below the sixteenth, and 0 where there is none.
    #[tactic(auto, using(crate::proofs::GroupLemmas::first_number))]
    pub fn key(&self) -> Felt
        ensures { result ≡ key_of self.now.keys }
    {
        match self.keys.first() {
            Some(key) => *key,
            None => Felt::ZERO,
        }
    }

    /// Goes on behind an event of a kind, before so many later batches of its span.
    ///
    /// # Errors
    ///
    /// `Memory` where the system gave none for a block, a position or a key.
    pub fn advance(&mut self, event: &Event, kind: Kind, batches: usize) -> Result<(), Memory>
        requires { HasRoom (decoder_in self.old) batches }
        ensures { OnOk result (decoder_in self.new ≡ advance_as kind (decoder_in self.old) event.now batches) }
    {
        match kind {
            Kind::Ordinary => self.take(event),
            Kind::Join | Kind::Dyn => self.open(1),
            Kind::Split | Kind::Loop => self.open_on_bit(),
            Kind::Span => self.start_span(event, batches),
            Kind::Call | Kind::Syscall => self.call(),
            Kind::End => {
                self.close(&event.hash);
                Ok(())
            }
            Kind::Repeat => {
                self.pop_bit();
                Ok(())
            }
            Kind::Respan => self.respan(event),
            Kind::Halt => Ok(()),
        }
    }

    // An operation of a span.
    fn take(&mut self, event: &Event) -> Result<(), Memory>
        requires next { self.old.next + 8 < 2 ^ 64 }
        requires place { self.old.place + 1 < 2 ^ 64 }
        ensures { OnOk result (decoder_in self.new ≡ advance_as kinds.Ordinary (decoder_in self.old) event.now 0) }
    {
        let next = next_after(event.op, self.next);
        self.move_group(is_op(event.op, Op::Push));
        move_keys(&mut self.keys, event)?;
        self.next = next;
        Ok(())
    }

    // An operation of the group is taken.
    #[tactic(auto, using(crate::proofs::GroupLemmas::goes_on, crate::proofs::GroupLemmas::uses_up, crate::proofs::GroupLemmas::first_number))]
    fn move_group(&mut self, is_push: bool)
        requires { self.old.place + 1 < 2 ^ 64 }
        ensures { decoder_in self.new ≡ record (decoder_in self.old) { unread = taken_from is_push (unread_in self.old) } }
    {
        let number = Felt::reduced(u128::from(self.number.value() / 128));
        let place = self.place + 1;
        if is_push {
            let _ = self.positions.pop();
            self.number = number;
            self.place = place;
        } else if number.value() == 0 {
            self.number = self.positions.pop().unwrap_or(Felt::ZERO);
            self.place = 0;
        } else {
            self.number = number;
            self.place = place;
        }
    }

    // A batch is begun.
    fn begin(&mut self, batch: &[Felt; 8]) -> Result<(), Memory>
        ensures { OnOk result (decoder_in self.new ≡ record (decoder_in self.old) { unread = batch_begun batch.now }) }
    {
        self.positions = positions_of(self.alloc, batch)?;
        self.number = batch[0];
        self.place = 0;
        Ok(())
    }

    // A block starts whose hash takes so many permutations.
    fn open(&mut self, permutations: usize) -> Result<(), Memory>
        requires { self.old.next + 8 * permutations < 2 ^ 64 }
        ensures { OnOk result (decoder_in self.new ≡ opened permutations (decoder_in self.old)) }
    {
        let address = self.next;
        let next = address + 8 * permutations as u64;
        let hidden = Stack::new(self.alloc);
        self.blocks.push(Open { address, hidden })?;
        self.next = next;
        Ok(())
    }

    // A block starts that pops its condition.
    fn open_on_bit(&mut self) -> Result<(), Memory>
        requires { self.old.next + 8 < 2 ^ 64 }
        ensures { OnOk result (decoder_in self.new ≡ popped (opened 1 (decoder_in self.old))) }
    {
        self.open(1)?;
        self.pop_bit();
        Ok(())
    }

    // A span starts, with so many batches behind its first one.
    fn start_span(&mut self, event: &Event, batches: usize) -> Result<(), Memory>
        requires { self.old.next + 8 * (batches + 1) < 2 ^ 64 }
        ensures { OnOk result (decoder_in self.new ≡ advance_as kinds.Span (decoder_in self.old) event.now batches) }
    {
        let address = self.next;
        self.open(batches + 1)?;
        self.ha = address;
        self.begin(&event.hash)
    }

    // The next batch of a span begins.
    fn respan(&mut self, event: &Event) -> Result<(), Memory>
        requires { self.old.ha + 8 < 2 ^ 64 }
        ensures { OnOk result (decoder_in self.new ≡ advance_as kinds.Respan (decoder_in self.old) event.now 0) }
    {
        self.ha += 8;
        self.begin(&event.hash)
    }

    // The condition on top is popped.
    fn pop_bit(&mut self)
        ensures { decoder_in self.new ≡ popped (decoder_in self.old) }
    {
        let _ = self.keys.pop();
    }

    // A call hides the cells below the sixteenth.
    fn call(&mut self) -> Result<(), Memory>
        requires { self.old.next + 8 < 2 ^ 64 }
        ensures { OnOk result (decoder_in self.new ≡ called (decoder_in self.old)) }
    {
        let address = self.next;
        let next = address + 8;
        let hidden = mem::replace(&mut self.keys, Stack::new(self.alloc));
        self.blocks.push(Open { address, hidden })?;
        self.next = next;
        Ok(())
    }

    // The newest block ends.
    #[tactic(auto, using(crate::proofs::DecoderLemmas::newest_hidden, crate::proofs::DecoderLemmas::no_hidden))]
    fn close(&mut self, hash: &[Felt; 8])
        ensures { decoder_in self.new ≡ closed hash.now (decoder_in self.old) }
    {
        let block = self.blocks.pop();
        self.ha = 0;
        if hash[4].value() == 1 {
            let _ = self.keys.pop();
        } else if hash[6].value() == 1 || hash[7].value() == 1 {
            self.keys = match block {
                Some(block) => block.hidden,
                None => Stack::new(self.alloc),
            };
        }
    }
}

// The keys of so many inputs below the sixteenth, the newest first.
fn input_keys(alloc: Global, count: usize) -> Result<Stack<Felt>, Memory>
    requires { count < 2 ^ 32 }
    ensures { IfOk result (λ keys. keys ≡ keys_at_start count) }
{
    let mut keys = Stack::new(alloc);
    for i in (0..count).rev() {
        keys.push(input_key(i as u32))?;
    }
    Ok(keys)
}

// The next hasher address behind an operation.
fn next_after(op: Op, next: u64) -> u64
    requires { next + 8 < 2 ^ 64 }
    ensures { result ≡ next_after op next }
{
    if is_op(op, Op::HPerm) { next + 8 } else { next }
}

// The keys behind an operation.
fn move_keys(keys: &mut Stack<Felt>, event: &Event) -> Result<(), Memory>
    ensures { OnOk result (keys.new ≡ keys_after (shift_of event.now.op) event.now.before.clock keys.old) }
{
    match shift(event.op) {
        Shift::Right => keys.push(Felt::from_u32(event.before.clock)),
        Shift::Left => {
            let _ = keys.pop();
            Ok(())
        }
        Shift::Stay => Ok(()),
    }
}
