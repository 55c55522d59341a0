ghost use Rattle.std.specs.Prelude.{◌≡◌, ◌==◌, if◌then◌else◌, OnOk};
ghost use Rattle.std.specs.Option.{option_map};
ghost use Rattle.masm_tree.specs.Trees.{Body};
ghost use Rattle.masm_tree.specs.Views.{stmt_view, body_of};
ghost use Rattle.masm_places.specs.Indexed.{texts_in};
ghost use Rattle.masm_places.specs.Pending.{walk_of, level_of};
ghost use Rattle.masm_places.specs.Silent.{lost};
ghost use Rattle.masm_places.specs.Steps.{block_op, calls, chosen, entered, enters, enters_by, inside, opened, reached};
ghost use Rattle.masm_places.specs.Texts.{found_in};

use crate::level::{Level, Part};
use crate::operations::{entry_items, is_op};
use crate::sources::{Found, Sources};
use crate::walk::Walk;
use masm_tree::Stmt;
use std::alloc::Global;
use vm_field::{Felt, MOST_NESTING, Memory};
use vm_ops::Op;

// The operation that starts the block of a statement, if it is one.
#[tactic(auto, using(crate::proofs::Statements::block_ops))]
fn block_op(stmt: &Stmt) -> Option<Op>
    ensures { (rest : Body) → result ≡ block_op (stmt_view stmt.now rest) }
{
    match stmt {
        Stmt::Instr(_, _) => None,
        Stmt::If(_, _, _) => Some(Op::Split),
        Stmt::While(_, _) => Some(Op::Loop),
        Stmt::Repeat(_, _, _) => None,
        Stmt::Exec(_, _) => None,
        Stmt::Call(_, _) => Some(Op::Call),
        Stmt::Syscall(_, _) => Some(Op::Syscall),
        Stmt::ProcRef(_, _) => None,
        Stmt::DynExec(_) => Some(Op::Dyn),
    }
}

// The body that the top cell chooses.
fn chosen<'a>(top: Felt, on_one: &'a [Stmt], on_zero: &'a [Stmt]) -> &'a [Stmt]
    ensures { body_of result.now ≡ chosen top (body_of on_one.entry.now) (body_of on_zero.entry.now) }
{
    if top.value() == 1 { on_one } else { on_zero }
}

impl<'a> Walk<'a> {
    // A join or a span starts.
    pub(crate) fn open(&mut self)
        ensures { walk_of self.new ≡ opened (walk_of self.old) }
    {
        if self.nested < MOST_NESTING {
            self.nested += 1;
        } else {
            self.lose();
        }
    }

    // The statement that comes next is told, where it was not taken up.
    pub(crate) fn reach(&mut self) -> Result<(), Memory>
        ensures { OnOk result (walk_of self.new ≡ reached (walk_of self.old)) }
    {
        if self.is_busy() {
            return Ok(());
        }
        match self.levels.innermost() {
            Some(level) => self.levels.replace(level.face()),
            None => Ok(()),
        }
    }

    // A part of the statement that was taken up begins, in a block of its own.
    fn enter_part(
        &mut self,
        level: Level<'a>,
        part: Part,
        left: &'a [Stmt],
        again: &'a [Stmt],
    ) -> Result<(), Memory>
        ensures { OnOk result (walk_of self.new ≡ inside (walk_of self.old) (level_of level.entry) part (body_of left.entry.now) (body_of again.entry.now)) }
    {
        let outside = self.nested;
        self.nested = 0;
        self.levels.replace(level)?;
        self.levels
            .push(level.within(part, level.at, left, again, outside))
    }

    // A procedure begins in a block of its own.
    fn call(
        &mut self,
        alloc: Global,
        level: Level<'a>,
        found: Option<Found<'a>>,
    ) -> Result<(), Memory>
        ensures { OnOk result (walk_of self.new ≡ calls (walk_of self.old) (level_of level.entry) (option_map found_in found.entry)) }
    {
        let Some(found) = found else {
            self.lose();
            return Ok(());
        };
        let items = entry_items(alloc, found.proc.locals)?;
        self.await_items(items);
        let outside = self.nested;
        self.nested = 0;
        self.levels.replace(level)?;
        self.levels.push(Level::begin(Part::Call, found, outside))
    }

    // The block of a statement starts.
    #[tactic(auto, using(crate::proofs::Statements::starts))]
    fn enter_statement(
        &mut self,
        alloc: Global,
        sources: &Sources<'a>,
        top: Felt,
        level: Level<'a>,
        stmt: &'a Stmt,
        rest: &'a [Stmt],
    ) -> Result<(), Memory>
        ensures { OnOk result (walk_of self.new
            ≡ enters (texts_in sources.now) top (walk_of self.old) (level_of level.entry) (stmt_view stmt.entry.now (body_of rest.entry.now))) }
    {
        match stmt {
            Stmt::If(at, one, other) => {
                let left = chosen(top, one.as_slice(), other.as_slice());
                self.enter_part(level.take(*at, rest), Part::Branch, left, &[])
            }
            Stmt::While(at, turn) => {
                let left = chosen(top, turn.as_slice(), &[]);
                self.enter_part(level.take(*at, rest), Part::Turn, left, turn.as_slice())
            }
            Stmt::Call(at, name) => {
                let found = sources.find(level.origin, name);
                self.call(alloc, level.take(*at, rest), found)
            }
            Stmt::Syscall(at, name) => {
                let found = sources.find_in_kernel(name);
                self.call(alloc, level.take(*at, rest), found)
            }
            Stmt::DynExec(at) => self.enter_part(level.take(*at, rest), Part::Dynamic, &[], &[]),
            Stmt::Instr(_, _) => self.stray(),
            Stmt::Exec(_, _) => self.stray(),
            Stmt::ProcRef(_, _) => self.stray(),
            Stmt::Repeat(_, _, _) => self.stray(),
        }
    }

    // The cycle is none that may come here.
    pub(crate) fn stray(&mut self) -> Result<(), Memory>
        ensures { OnOk result (walk_of self.new ≡ lost (walk_of self.old)) }
    {
        self.lose();
        Ok(())
    }

    // The block of the statement that is left first at a level starts, if the operation is its one.
    fn enter_level(
        &mut self,
        alloc: Global,
        sources: &Sources<'a>,
        op: Op,
        top: Felt,
        level: Level<'a>,
    ) -> Result<(), Memory>
        ensures { OnOk result (walk_of self.new ≡ enters_by (texts_in sources.now) op top (walk_of self.old) (level_of level.entry)) }
    {
        match level.left {
            [] => self.stray(),
            [stmt, rest @ ..] => {
                if is_op(block_op(stmt), op) {
                    self.enter_statement(alloc, sources, top, level, stmt, rest)
                } else {
                    self.stray()
                }
            }
        }
    }

    // The block of a statement starts by this operation, with this cell on top.
    pub(crate) fn enter(
        &mut self,
        alloc: Global,
        sources: &Sources<'a>,
        op: Op,
        top: Felt,
    ) -> Result<(), Memory>
        ensures { OnOk result (walk_of self.new ≡ entered (texts_in sources.now) op top (walk_of self.old)) }
    {
        if self.is_busy() {
            return self.stray();
        }
        match self.levels.innermost() {
            Some(level) => self.enter_level(alloc, sources, op, top, level),
            None => Ok(()),
        }
    }
}
