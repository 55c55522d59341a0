ghost use Rattle.std.specs.Prelude.{◌≡◌, OnOk};
ghost use Rattle.masm_tree.specs.Views.{body_of};
ghost use Rattle.masm_places.specs.Indexed.{texts_in};
ghost use Rattle.masm_places.specs.Pending.{walk_of, level_of};
ghost use Rattle.masm_places.specs.Steps.{closed, has_block, is_dynamic, is_empty, is_turn, leaves_by, left, repeated, turns_by, unseen_end, unseen_left};

use crate::level::{Level, Part};
use crate::sources::Sources;
use crate::walk::Walk;
use masm_tree::Stmt;
use std::alloc::Global;
use vm_field::Memory;

impl Part {
    // Whether such a level has a block of its own.
    fn has_block(self) -> bool
        ensures { result ≡ has_block self }
    {
        match self {
            Part::Exec | Part::Repeat(_) => false,
            Part::Call | Part::Branch | Part::Turn | Part::Dynamic => true,
        }
    }

    fn is_turn(self) -> bool
        ensures { result ≡ is_turn self }
    {
        matches!(self, Part::Turn)
    }

    pub(crate) fn is_dynamic(self) -> bool
        ensures { result ≡ is_dynamic self }
    {
        matches!(self, Part::Dynamic)
    }
}

// Whether no statement is left.
fn is_empty(left: &[Stmt]) -> bool
    ensures { result ≡ is_empty (body_of left.now) }
{
    match left {
        [] => true,
        [_, ..] => false,
    }
}

impl<'a> Walk<'a> {
    // The block of the innermost level ends.
    fn leave_level(&mut self, level: Level<'a>)
        ensures { walk_of self.new ≡ leaves_by (walk_of self.old) (level_of level.entry) }
    {
        if is_empty(level.left) && !level.owes && level.part.has_block() {
            self.levels.pop();
            self.nested = level.outside;
        } else {
            self.lose();
        }
    }

    fn leave(&mut self)
        ensures { walk_of self.new ≡ left (walk_of self.old) }
    {
        if self.is_busy() {
            self.lose();
        } else if let Some(level) = self.levels.innermost() {
            self.leave_level(level);
        }
    }

    // A block ends: a join or a span where one is open, and else that of a level.
    pub(crate) fn close(&mut self, alloc: Global, sources: &Sources<'a>) -> Result<(), Memory>
        ensures { OnOk result (walk_of self.new ≡ closed (texts_in sources.now) (walk_of self.old)) }
    {
        if self.nested > 0 {
            self.nested -= 1;
            return Ok(());
        }
        self.settle(alloc, sources)?;
        self.leave();
        Ok(())
    }

    // A block ends inside a dynamic block, or that block itself.
    pub(crate) fn close_unseen(&mut self, level: Level<'a>)
        ensures { walk_of self.new ≡ unseen_end (walk_of self.old) (level_of level.entry) }
    {
        if self.nested > 0 {
            self.nested -= 1;
        } else {
            self.leave_unseen(level);
        }
    }

    fn leave_unseen(&mut self, level: Level<'a>)
        ensures { walk_of self.new ≡ unseen_left (walk_of self.old) (level_of level.entry) }
    {
        if self.is_busy() {
            self.lose();
        } else {
            self.levels.pop();
            self.nested = level.outside;
        }
    }

    // Another turn of the innermost level begins.
    fn turn_level(&mut self, level: Level<'a>) -> Result<(), Memory>
        ensures { OnOk result (walk_of self.new ≡ turns_by (walk_of self.old) (level_of level.entry)) }
    {
        if is_empty(level.left) && level.part.is_turn() {
            self.levels.replace(level.turn(level.part))
        } else {
            self.stray()
        }
    }

    pub(crate) fn turn(&mut self) -> Result<(), Memory>
        ensures { OnOk result (walk_of self.new ≡ repeated (walk_of self.old)) }
    {
        if self.is_busy() {
            return self.stray();
        }
        match self.levels.innermost() {
            Some(level) => self.turn_level(level),
            None => Ok(()),
        }
    }
}
