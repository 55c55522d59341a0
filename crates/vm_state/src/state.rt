ghost use Rattle.std.specs.Prelude.{◌≡◌, ◌<◌, ◌≤◌, [], ◌∷◌, ◌++◌, drop, length, take, slice_index, slice_set, Some, None, OnOk, OnErr, IfOk, IfSome};
ghost use Rattle.std.specs.FinMap as map;
ghost use Rattle.vm_field.specs.Field.{AreElements, prime};
ghost use Rattle.vm_field.specs.Machine.{IsWellFormed, IsWord, filled_up, start, word_at};
ghost use Rattle.vm_state.specs.Views.{state_of};
ghost use Rattle.vm_state.specs.Tapes.{Taken};

use crate::aside::Aside;
use crate::inputs::Inputs;
use crate::memory::WordMemory;
use crate::stack::Stack;
use crate::tape::Tape;
use std::alloc::Global;
use vm_field::{Felt, Felts, Memory, Word};

/// The machine's state. The stack, the memory and the tape are reached by calls; a call that
/// answers `Memory` leaves the state as it was.
#[derive(Drop)]
pub struct State {
    /// How many cycles have passed.
    pub clock: u32,
    /// The context whose memory operations see.
    pub context: u32,
    /// The frame pointer.
    pub fmp: Felt,
    /// Whether a procedure of the kernel runs.
    pub in_syscall: bool,
    /// The digest of the function that runs.
    pub digest: Word,
    /// How many blocks have started and not ended.
    pub nesting: u32,
    stack: Stack,
    memory: WordMemory,
    tape: Tape,
}

impl State {
    /// The state before the first cycle of a run with these inputs.
    #[tactic(auto, unfolding(vm_field::specs::Machine::start))]
    pub fn start(alloc: Global, inputs: &Inputs) -> Result<State, Memory>
        ensures { IfOk result (λ state. state_of state ≡ start inputs.now.stack inputs.now.advice) }
    {
        let stack = Stack::holding(alloc, inputs.stack.as_slice())?;
        let tape = Tape::holding(alloc, inputs.advice.as_slice())?;
        Ok(State {
            clock: 0,
            context: 0,
            fmp: Felt::reduced(1 << 30),
            in_syscall: false,
            digest: Word::ZERO,
            nesting: 0,
            stack,
            memory: WordMemory::new(alloc),
            tape,
        })
    }

    /// Reads the state, so that a proof learns that each part is made of elements. A run does
    /// nothing.
    pub fn known(&self)
        ensures { IsWellFormed (state_of self.now) }
    {
        self.stack.known();
        let _ = self.stack.depth();
        let _ = self.fmp.value();
        self.digest.known();
        self.memory.known();
        self.tape.known();
    }

    /// How many cells the stack has.
    pub fn depth(&self) -> usize
        ensures is { result ≡ length self.now.stack }
        ensures deep { 16 ≤ result }
    {
        self.stack.depth()
    }

    /// The cell of this number, where the top is 0.
    pub fn peek(&self, cell: usize) -> Felt
        requires { cell < length self.now.stack }
        ensures is { result ≡ slice_index self.now.stack cell }
        ensures below { result < prime }
    {
        self.stack.peek(cell)
    }

    /// The sixteen cells that operations see, top first.
    pub fn visible(&self) -> &[Felt; 16]
        ensures is { result.now ≡ take 16 self.now.stack }
        ensures below { AreElements result.now }
    {
        self.stack.visible()
    }

    /// Puts a cell on top.
    pub fn push(&mut self, v: Felt) -> Result<(), Memory>
        ensures ok { OnOk result (self.new ≡ record self.old { stack = v ∷ self.old.stack }) }
        ensures err { OnErr result (self.new ≡ self.old) }
    {
        self.stack.push(v)
    }

    /// Takes the top cell off. Where sixteen cells stood, a zero comes in below.
    pub fn drop_top(&mut self)
        ensures { self.new ≡ record self.old { stack = filled_up (drop 1 self.old.stack) } }
    {
        self.stack.drop_top();
    }

    /// Overwrites one of the sixteen cells that operations see.
    pub fn set(&mut self, cell: usize, v: Felt)
        requires { cell < 16 }
        ensures { self.new ≡ record self.old { stack = slice_set self.old.stack cell v } }
    {
        self.stack.set(cell, v);
    }

    /// Takes out the cells below the sixteenth and answers them, in order.
    pub fn hide(&mut self) -> Result<Felts, Memory>
        ensures hidden { IfOk result (λ hidden. hidden ≡ drop 16 self.old.stack) }
        ensures ok { OnOk result (self.new ≡ record self.old { stack = take 16 self.old.stack }) }
        ensures err { OnErr result (self.new ≡ self.old) }
    {
        self.stack.hide()
    }

    /// Puts these cells below the sixteen that stand.
    pub fn restore(&mut self, hidden: &Felts) -> Result<(), Memory>
        requires { length self.old.stack ≡ 16 }
        ensures ok { OnOk result (self.new ≡ record self.old { stack = self.old.stack ++ hidden.now }) }
        ensures err { OnErr result (self.new ≡ self.old) }
    {
        self.stack.restore(hidden.as_slice())
    }

    /// Moves the cells below the sixteenth out of the stack. It takes no memory, and the time that
    /// it takes does not grow with the depth.
    pub fn set_aside(&mut self) -> Aside
        ensures aside { result ≡ drop 16 self.old.stack }
        ensures left { self.new ≡ record self.old { stack = take 16 self.old.stack } }
    {
        self.stack.set_aside()
    }

    /// Moves these cells below the sixteen that stand, as `set_aside` does.
    pub fn bring_back(&mut self, aside: Aside)
        requires { length self.old.stack ≡ 16 }
        ensures { self.new ≡ record self.old { stack = self.old.stack ++ aside } }
    {
        self.stack.bring_back(aside);
    }

    /// The word of memory at an address of a context, which is zero where none was stored.
    pub fn word_at(&self, context: u32, address: u32) -> [Felt; 4]
        ensures is { result ≡ word_at self.now.memory context address }
        ensures below { IsWord result }
    {
        self.memory.word_at(context, address)
    }

    /// Stores a word of memory.
    pub fn store(&mut self, context: u32, address: u32, word: [Felt; 4]) -> Result<(), Memory>
        ensures ok { OnOk result (self.new ≡ record self.old { memory = map.insert self.old.memory (context, address) word }) }
        ensures err { OnErr result (self.new ≡ self.old) }
    {
        self.memory.store(context, address, word)
    }

    /// The element of the tape that is taken after so many others.
    pub fn advice_at(&self, place: usize) -> Felt
        requires { place < length self.now.tape }
        ensures is { result ≡ slice_index self.now.tape place }
        ensures below { result < prime }
    {
        self.tape.at(place)
    }

    /// Takes the next element of the tape, or answers `None` exactly where the tape is empty.
    pub fn next_advice(&mut self) -> Option<Felt>
        ensures taken { Taken self.old.tape result self.new.tape }
        ensures below { IfSome result (λ element. element < prime) }
        ensures rest { self.new ≡ record self.old { tape = self.new.tape } }
    {
        self.tape.next()
    }

    /// How many elements are left on the tape.
    pub fn advice_left(&self) -> usize
        ensures { result ≡ length self.now.tape }
    {
        self.tape.len()
    }
}
