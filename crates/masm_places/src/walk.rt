ghost use Rattle.std.specs.Prelude.{◌≡◌, if◌then◌else◌, IfOk, OnOk};
ghost use Rattle.masm_places.specs.Indexed.{texts_in};
ghost use Rattle.masm_places.specs.Pending.{walk_of, level_of};
ghost use Rattle.masm_places.specs.Silent.{settled};
ghost use Rattle.masm_places.specs.Steps.{acted, entered, is_noop, opened, reached, repeated, seen, stepped, unseen};
ghost use Rattle.masm_places.specs.Walks.{begin};

use crate::level::{Level, Part};
use crate::levels::Levels;
use crate::operations::{entry_items, is_noop};
use crate::sources::Sources;
use std::alloc::Global;
use vm_field::{Felt, Memory};
use vm_ops::{Item, Items, Kind, Op, kind_of};

/// What is still to come of a run.
#[derive(Drop)]
pub struct Walk<'a> {
    /// Where it is, in each body that it is inside of. Where nothing is known any more there is none.
    pub levels: Levels<'a>,
    // The operations of the instruction that was taken up last, and how many of them came.
    pub(crate) items: Items,
    pub(crate) done: usize,
    // How many operations of a procref are to come.
    pub(crate) literals: u32,
    // How many joins and spans are open in the innermost block of a level.
    pub(crate) nested: u32,
}

impl<'a> Walk<'a> {
    /// The walk before the first cycle. Where there is no body between begin and end nothing is known.
    pub fn begin(alloc: Global, sources: &Sources<'a>) -> Result<Walk<'a>, Memory>
        ensures { IfOk result (λ walk. walk_of walk ≡ begin (texts_in sources.now)) }
    {
        let mut walk = Walk {
            levels: Levels::new(alloc),
            items: Items::new(alloc),
            done: 0,
            literals: 0,
            nested: 0,
        };
        if let Some(found) = sources.main() {
            walk.items = entry_items(alloc, found.proc.locals)?;
            walk.levels.push(Level::begin(Part::Call, found, 0))?;
        }
        Ok(walk)
    }

    /// Goes on by a cycle of this operation, with this cell on top of the stack before it. Then the
    /// innermost level tells its place.
    #[tactic(auto, unfolding(crate::specs::Steps::stepped))]
    pub fn step(
        &mut self,
        alloc: Global,
        sources: &Sources<'a>,
        item: &Item,
        top: Felt,
    ) -> Result<(), Memory>
        ensures { OnOk result (walk_of self.new ≡ stepped (texts_in sources.now) item.now top (walk_of self.old)) }
    {
        match self.levels.innermost() {
            Some(level) if level.part.is_dynamic() => {
                self.step_unseen(level, kind_of(item.op));
                Ok(())
            }
            Some(_) => self.step_seen(alloc, sources, item, top, kind_of(item.op)),
            None => Ok(()),
        }
    }

    /// Goes on to the statement to which the next cycle belongs. Then the innermost level tells its
    /// place.
    pub fn await_next(&mut self, alloc: Global, sources: &Sources<'a>) -> Result<(), Memory>
        ensures { OnOk result (walk_of self.new ≡ reached (settled (texts_in sources.now) (walk_of self.old))) }
    {
        self.settle(alloc, sources)?;
        self.reach()
    }

    // A cycle inside a dynamic block.
    fn step_unseen(&mut self, level: Level<'a>, kind: Kind)
        ensures { walk_of self.new ≡ unseen (walk_of self.old) (level_of level.entry) kind }
    {
        match kind {
            Kind::Ordinary => {}
            Kind::Join => self.open(),
            Kind::Split => self.open(),
            Kind::Loop => self.open(),
            Kind::Span => self.open(),
            Kind::Call => self.open(),
            Kind::Syscall => self.open(),
            Kind::Dyn => self.open(),
            Kind::End => self.close_unseen(level),
            Kind::Repeat => {}
            Kind::Respan => {}
            Kind::Halt => {}
        }
    }

    // A cycle elsewhere.
    fn step_seen(
        &mut self,
        alloc: Global,
        sources: &Sources<'a>,
        item: &Item,
        top: Felt,
        kind: Kind,
    ) -> Result<(), Memory>
        ensures { OnOk result (walk_of self.new ≡ seen (texts_in sources.now) item.now top (walk_of self.old) kind) }
    {
        match kind {
            Kind::Ordinary => self.step_operation(alloc, sources, item),
            Kind::Join => self.step_start(alloc, sources),
            Kind::Span => self.step_start(alloc, sources),
            Kind::Split => self.step_block(alloc, sources, item.op, top),
            Kind::Loop => self.step_block(alloc, sources, item.op, top),
            Kind::Call => self.step_block(alloc, sources, item.op, top),
            Kind::Syscall => self.step_block(alloc, sources, item.op, top),
            Kind::Dyn => self.step_block(alloc, sources, item.op, top),
            Kind::End => self.close(alloc, sources),
            Kind::Repeat => self.step_turn(alloc, sources),
            Kind::Respan => self.settle(alloc, sources),
            Kind::Halt => Ok(()),
        }
    }

    // An operation. NOOP is no instruction's.
    fn step_operation(
        &mut self,
        alloc: Global,
        sources: &Sources<'a>,
        item: &Item,
    ) -> Result<(), Memory>
        ensures { OnOk result (walk_of self.new ≡ (if is_noop item.now.op then (walk_of self.old) else acted item.now (settled (texts_in sources.now) (walk_of self.old)))) }
    {
        if is_noop(item.op) {
            return Ok(());
        }
        self.settle(alloc, sources)?;
        self.act(item);
        Ok(())
    }

    // A join or a span starts.
    fn step_start(&mut self, alloc: Global, sources: &Sources<'a>) -> Result<(), Memory>
        ensures { OnOk result (walk_of self.new ≡ opened (reached (settled (texts_in sources.now) (walk_of self.old)))) }
    {
        self.settle(alloc, sources)?;
        self.reach()?;
        self.open();
        Ok(())
    }

    // The block of a statement starts.
    fn step_block(
        &mut self,
        alloc: Global,
        sources: &Sources<'a>,
        op: Op,
        top: Felt,
    ) -> Result<(), Memory>
        ensures { OnOk result (walk_of self.new ≡ entered (texts_in sources.now) op top (settled (texts_in sources.now) (walk_of self.old))) }
    {
        self.settle(alloc, sources)?;
        self.enter(alloc, sources, op, top)
    }

    // Another turn of a loop begins.
    fn step_turn(&mut self, alloc: Global, sources: &Sources<'a>) -> Result<(), Memory>
        ensures { OnOk result (walk_of self.new ≡ repeated (settled (texts_in sources.now) (walk_of self.old))) }
    {
        self.settle(alloc, sources)?;
        self.turn()
    }
}
