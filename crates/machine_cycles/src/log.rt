ghost use Rattle.std.specs.Prelude.{◌≡◌, ◌<◌, [], ◌∷◌, ◌++◌, None, length, take, IfSome, IsTrue, OnOk, OnErr};
ghost use Rattle.vm_field.specs.Machine.{zero_word};
ghost use Rattle.machine_cycles.specs.Kept.{hash_in, imm_in, tape_in, word_in};
ghost use Rattle.machine_cycles.specs.Names.{zeros};
ghost use Rattle.machine_cycles.specs.Log.{ShowsAt};
ghost use Rattle.machine_cycles.specs.declared.log.Use.TheVariants.{Operation};

use crate::event::{Event, Visible};
use crate::names::{Likely, Lists, Names, ZEROS, cells_named, elements_named};
use std::alloc::Global;
use std::marker::Model;
use vm_field::{Felt, Memory, Word};
use vm_ops::{Item, Op};

// What a cycle uses its eight elements for.
#[derive(Clone, Copy, Drop)]
enum Use {
    // The first one is what PUSH pushes.
    Immediate,
    // The word of another operation, and what it takes of the tape.
    Operation,
    // The hashing of a cycle that is no operation.
    Block,
}

// What an event has of its own. A run has so many events that much of its time goes where their
// memory is touched first. Few of them use elements, the scene changes at blocks and calls, and most
// cycles leave the cells below the fourth as they are, or move them by one. So these stand in lists
// beside the events, where an event names its own.
#[derive(Drop)]
struct Kept {
    top: [Felt; 4],
    result: Felt,
    depth: usize,
    names: Names,
    clock: u32,
    op: Op,
    kind: Use,
}

/// The events of a run, one for each cycle, in order.
#[derive(Drop)]
pub struct Events {
    items: Vec<Kept>,
    lists: Lists,
}

impl Model for Events {
    ghost use Rattle.std.specs.Prelude.{List};
    ghost use Rattle.machine_cycles.specs.Kept.{HaveNames, events_of};
    ghost use Rattle.machine_cycles.specs.declared.event.Event.{Event};

    ghost Value = { List Event };

    ghost view = { λ a. events_of a.lists a.items.items };

    ghost invariant = { λ a. HaveNames a.lists a.items.items };
}

impl Events {
    /// No events. It allocates nothing.
    pub fn new(alloc: Global) -> Events
        ensures empty { result ≡ [] }
    {
        Events {
            items: Vec::new(alloc),
            lists: Lists::new(alloc),
        }
    }

    /// Adds the event of a cycle that is no operation, with its eight elements of hashing and the cell
    /// on top behind it. At `Memory` the list is as before.
    pub fn push_block(
        &mut self,
        op: Op,
        before: &Visible,
        hash: &[Felt; 8],
        top: Felt,
    ) -> Result<(), Memory>
        ensures ok { OnOk result (self.new ≡ self.old
            ++ record {
              op = op;
              before = before.now;
              imm = None;
              tape = zero_word;
              word = zero_word;
              hash = hash.now;
              result = top;
            } ∷ []) }
        ensures err { OnErr result (self.new ≡ self.old) }
    {
        self.push(op, before, Use::Block, hash, false, top)
    }

    /// Adds the event of an operation, with what it takes of the tape, the word of memory that it
    /// reads or writes and the cell on top behind it. PUSH has neither the one nor the other. At
    /// `Memory` the list is as before.
    pub fn push_operation(
        &mut self,
        item: &Item,
        before: &Visible,
        tape: &[Felt; 4],
        word: &[Felt; 4],
        top: Felt,
    ) -> Result<(), Memory>
        requires { IfSome item.now.imm (λ imm. (tape.now ≡ zero_word) × (word.now ≡ zero_word)) }
        ensures ok { OnOk result (self.new ≡ self.old
            ++ record {
              op = item.now.op;
              before = before.now;
              imm = item.now.imm;
              tape = tape.now;
              word = word.now;
              hash = zero_word ++ zero_word;
              result = top;
            } ∷ []) }
        ensures err { OnErr result (self.new ≡ self.old) }
    {
        let zero = Felt::ZERO;
        let (kind, elements) = match item.imm {
            Some(imm) => (Use::Immediate, joined(&[imm, zero, zero, zero], &[zero; 4])),
            None => (Use::Operation, joined(word, tape)),
        };
        self.push(item.op, before, kind, &elements, false, top)
    }

    /// Adds the event of an operation that takes nothing of the tape and accesses no memory, and has
    /// no immediate, with the cell on top behind it. At `Memory` the list is as before.
    pub(crate) fn push_plain(&mut self, op: Op, before: &Visible, top: Felt) -> Result<(), Memory>
        ensures ok { OnOk result (self.new ≡ self.old
            ++ record {
              op = op;
              before = before.now;
              imm = None;
              tape = zero_word;
              word = zero_word;
              hash = zero_word ++ zero_word;
              result = top;
            } ∷ []) }
        ensures err { OnErr result (self.new ≡ self.old) }
    {
        self.push(op, before, Use::Block, &ZEROS, true, top)
    }

    // Adds an event, whose elements are zeros where it is plain. At `Memory` the list is as before.
    fn push(
        &mut self,
        op: Op,
        before: &Visible,
        kind: Use,
        elements: &[Felt; 8],
        plain: bool,
        top: Felt,
    ) -> Result<(), Memory>
        requires { IsTrue plain → elements.now ≡ zeros }
        ensures ok { OnOk result (self.new ≡ self.old
            ++ record {
              op = op;
              before = before.now;
              imm = imm_in kind elements.now;
              tape = tape_in kind elements.now;
              word = word_in kind elements.now;
              hash = hash_in kind elements.now;
              result = top;
            } ∷ []) }
        ensures err { OnErr result (self.new ≡ self.old) }
    {
        let names = self.lists.names(
            likely_behind(&self.items, before.depth),
            before,
            elements,
            plain,
        )?;
        self.items.push(Kept {
            top: top_cells(&before.cells),
            result: top,
            depth: before.depth,
            names,
            clock: before.clock,
            op,
            kind,
        })?;
        Ok(())
    }

    /// The operation of the event at a place.
    pub fn op(&self, place: usize) -> Op
        requires within { place < length self.now }
        ensures { ShowsAt self.now place (λ e. result ≡ e.op) }
    {
        self.items[place].op
    }

    /// The state before the cycle of the event at a place.
    pub fn before(&self, place: usize) -> Visible
        requires within { place < length self.now }
        ensures { ShowsAt self.now place (λ e. result ≡ e.before) }
    {
        let kept = &self.items[place];
        let scene = &self.lists.scenes[kept.names.scene];
        Visible {
            clock: kept.clock,
            context: scene.context,
            fmp: scene.fmp,
            in_syscall: scene.in_syscall,
            digest: scene.digest,
            nesting: scene.nesting,
            depth: kept.depth,
            cells: cells_named(&kept.top, &self.lists.cells, kept.names.lower),
        }
    }

    /// The eight elements of hashing of the event at a place.
    pub fn hash(&self, place: usize) -> [Felt; 8]
        requires within { place < length self.now }
        ensures { ShowsAt self.now place (λ e. result ≡ e.hash) }
    {
        let kept = &self.items[place];
        match kept.kind {
            Use::Immediate | Use::Operation => ZEROS,
            Use::Block => elements_named(&self.lists.uses, kept.names.elements),
        }
    }

    /// The event at a place.
    pub fn event(&self, place: usize) -> Event
        requires within { place < length self.now }
        ensures { ShowsAt self.now place (λ e. result ≡ e) }
    {
        let kept = &self.items[place];
        let elements = elements_named(&self.lists.uses, kept.names.elements);
        let four = Word::ZERO.elements();
        let eight = ZEROS;
        let (imm, word, tape, hash) = match kept.kind {
            Use::Immediate => (Some(elements[0]), four, four, eight),
            Use::Operation => (None, first_of(&elements), last_of(&elements), eight),
            Use::Block => (None, four, four, elements),
        };
        Event {
            op: kept.op,
            before: self.before(place),
            imm,
            tape,
            word,
            hash,
            result: kept.result,
        }
    }

    /// How many events there are.
    pub fn len(&self) -> usize
        ensures count { result ≡ length self.now }
    {
        self.items.len()
    }
}

// From the latest event, and how deep the stack is behind it: the cells move with the depth.
fn likely_behind(items: &[Kept], depth: usize) -> Likely {
    match items.last() {
        None => Likely { scene: 0, near: 0 },
        Some(kept) => Likely {
            scene: kept.names.scene,
            near: kept
                .names
                .lower
                .wrapping_add(depth)
                .wrapping_sub(kept.depth),
        },
    }
}

// The top four of a state's cells.
fn top_cells(cells: &[Felt; 16]) -> [Felt; 4]
    ensures { result ≡ take 4 cells.now }
{
    [cells[0], cells[1], cells[2], cells[3]]
}

// The elements of a word, and behind them those of another one.
fn joined(first: &[Felt; 4], second: &[Felt; 4]) -> [Felt; 8]
    ensures { (word_in Operation result ≡ first.now) × (tape_in Operation result ≡ second.now) }
{
    [
        first[0], first[1], first[2], first[3], second[0], second[1], second[2], second[3],
    ]
}

// The first four of eight elements.
fn first_of(elements: &[Felt; 8]) -> [Felt; 4]
    ensures { result ≡ word_in Operation elements.now }
{
    [elements[0], elements[1], elements[2], elements[3]]
}

// The last four of eight elements.
fn last_of(elements: &[Felt; 8]) -> [Felt; 4]
    ensures { result ≡ tape_in Operation elements.now }
{
    [elements[4], elements[5], elements[6], elements[7]]
}
