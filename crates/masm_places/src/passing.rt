ghost use Rattle.std.specs.Prelude.{◌≡◌, false, Some, None, if◌then◌else◌, IfOk, OnOk};
ghost use Rattle.std.specs.Option.{option_map};
ghost use Rattle.masm_instr.specs.Instructions.{first};
ghost use Rattle.masm_tree.specs.Views.{stmt_view, body_of};
ghost use Rattle.masm_places.specs.Indexed.{texts_in};
ghost use Rattle.masm_places.specs.Pending.{walk_of, level_of};
ghost use Rattle.masm_places.specs.Silent.{ended, executes, has_local, is_busy, lost, passed, passed_end, repeats, settled, silent, takes_up, with_digest, with_items};
ghost use Rattle.masm_places.specs.Texts.{found_in};

use crate::level::{Level, Part};
use crate::operations::{entry_items, exit_items};
use crate::sources::{Found, Sources};
use crate::walk::Walk;
use masm_expand::expand;
use masm_instr::Instr;
use masm_tree::Stmt;
use std::alloc::Global;
use vm_field::Memory;
use vm_ops::Items;

// How many statements that take no cycle may stand before a cycle.
const MOST_SILENT_STEPS: u32 = 1_048_576;

// Whether a local that the instruction names is one of so many.
fn has_local(instr: &Instr, locals: u32) -> bool
    ensures { result ≡ has_local instr.now locals }
{
    !instr.name().names_local() || first(instr.numbers()) < u128::from(locals)
}

fn first(numbers: &[u128]) -> u128
    ensures { result ≡ first numbers.now }
{
    match numbers {
        [first, ..] => *first,
        [] => 0,
    }
}

impl<'a> Walk<'a> {
    // Nothing is known any more.
    pub(crate) fn lose(&mut self)
        ensures { walk_of self.new ≡ lost (walk_of self.old) }
    {
        self.levels.clear();
    }

    // Whether operations of the instruction that was taken up last are still to come.
    pub(crate) fn is_busy(&self) -> bool
        ensures { result ≡ is_busy (walk_of self.now) }
    {
        self.done < self.items.len() || self.literals > 0
    }

    // Operations, of which none came.
    pub(crate) fn await_items(&mut self, items: Items)
        ensures { walk_of self.new ≡ with_items (walk_of self.old) (walk_of self.old).levels items }
    {
        self.items = items;
        self.done = 0;
        self.literals = 0;
    }

    // An instruction is taken up.
    fn take_up(&mut self, alloc: Global, level: Level<'a>, instr: &Instr) -> Result<(), Memory>
        ensures { OnOk result (walk_of self.new ≡ takes_up (walk_of self.old) (level_of level.entry) instr.now) }
    {
        if !has_local(instr, level.proc.locals) {
            self.lose();
            return Ok(());
        }
        let items = expand(alloc, instr, level.proc.locals)?;
        self.await_items(items);
        self.levels.replace(level)
    }

    // A procref is taken up.
    fn take_reference(&mut self, alloc: Global, level: Level<'a>) -> Result<(), Memory>
        ensures { OnOk result (walk_of self.new ≡ with_digest (walk_of self.old) (level_of level.entry)) }
    {
        self.await_items(Items::new(alloc));
        self.literals = 4;
        self.levels.replace(level)
    }

    // A procedure begins in place.
    fn execute(
        &mut self,
        alloc: Global,
        level: Level<'a>,
        found: Option<Found<'a>>,
    ) -> Result<(), Memory>
        ensures { OnOk result (walk_of self.new ≡ executes (walk_of self.old) (level_of level.entry) (option_map found_in found.entry)) }
    {
        let Some(found) = found else {
            self.lose();
            return Ok(());
        };
        let items = entry_items(alloc, found.proc.locals)?;
        self.await_items(items);
        self.levels.replace(level)?;
        self.levels.push(Level::begin(Part::Exec, found, 0))
    }

    // A repeat is taken up.
    #[tactic(auto, using(crate::proofs::Statements::bodies))]
    fn repeat(&mut self, level: Level<'a>, count: u32, turn: &'a [Stmt]) -> Result<(), Memory>
        ensures { OnOk result (walk_of self.new ≡ repeats (walk_of self.old) (level_of level.entry) count (body_of turn.entry.now)) }
    {
        self.levels.replace(level)?;
        self.levels
            .push(level.within(Part::Repeat(count), level.at, &[], turn, 0))
    }

    // A level without statements.
    fn end(&mut self, level: Level<'a>) -> Result<bool, Memory>
        ensures moved { IfOk result (λ moved. (if moved then Some (walk_of self.new) else None) ≡ ended (walk_of self.old) (level_of level.entry) level.entry.part) }
        ensures same { IfOk result (λ moved. moved ≡ false → walk_of self.new ≡ walk_of self.old) }
    {
        match level.part {
            Part::Exec => {
                self.levels.pop();
                Ok(true)
            }
            Part::Repeat(0) => {
                self.levels.pop();
                Ok(true)
            }
            Part::Repeat(turns) => {
                self.levels.replace(level.turn(Part::Repeat(turns - 1)))?;
                Ok(true)
            }
            Part::Call => Ok(false),
            Part::Branch => Ok(false),
            Part::Turn => Ok(false),
            Part::Dynamic => Ok(false),
        }
    }

    // Behind the last statement of a level.
    fn pass_end(&mut self, alloc: Global, level: Level<'a>) -> Result<bool, Memory>
        ensures moved { IfOk result (λ moved. (if moved then Some (walk_of self.new) else None) ≡ passed_end (walk_of self.old) (level_of level.entry)) }
        ensures same { IfOk result (λ moved. moved ≡ false → walk_of self.new ≡ walk_of self.old) }
    {
        if !level.owes {
            return self.end(level);
        }
        let items = exit_items(alloc, level.proc.locals)?;
        self.await_items(items);
        self.levels.replace(level.exit())?;
        Ok(true)
    }

    // The statement that is left first at a level, where it takes no cycle.
    #[tactic(auto, using(crate::proofs::Statements::passes))]
    fn pass_statement(
        &mut self,
        alloc: Global,
        sources: &Sources<'a>,
        level: Level<'a>,
        stmt: &'a Stmt,
        rest: &'a [Stmt],
    ) -> Result<bool, Memory>
        ensures moved { IfOk result (λ moved. (if moved then Some (walk_of self.new) else None)
            ≡ passed (texts_in sources.now) (walk_of self.old) (level_of level.entry) (stmt_view stmt.entry.now (body_of rest.entry.now))) }
        ensures same { IfOk result (λ moved. moved ≡ false → walk_of self.new ≡ walk_of self.old) }
    {
        match stmt {
            Stmt::Instr(at, instr) => {
                self.take_up(alloc, level.take(*at, rest), instr)?;
                Ok(true)
            }
            Stmt::Exec(at, name) => {
                let found = sources.find(level.origin, name);
                self.execute(alloc, level.take(*at, rest), found)?;
                Ok(true)
            }
            Stmt::ProcRef(at, _) => {
                self.take_reference(alloc, level.take(*at, rest))?;
                Ok(true)
            }
            Stmt::Repeat(at, count, turn) => {
                self.repeat(level.take(*at, rest), *count, turn.as_slice())?;
                Ok(true)
            }
            Stmt::If(_, _, _) => Ok(false),
            Stmt::While(_, _) => Ok(false),
            Stmt::Call(_, _) => Ok(false),
            Stmt::Syscall(_, _) => Ok(false),
            Stmt::DynExec(_) => Ok(false),
        }
    }

    // What is left at the innermost level, where it takes no cycle.
    fn pass_level(
        &mut self,
        alloc: Global,
        sources: &Sources<'a>,
        level: Level<'a>,
    ) -> Result<bool, Memory>
        ensures moved { IfOk result (λ moved. (if moved then Some (walk_of self.new) else None)
            ≡ passed (texts_in sources.now) (walk_of self.old) (level_of level.entry) (body_of level.entry.left.now)) }
        ensures same { IfOk result (λ moved. moved ≡ false → walk_of self.new ≡ walk_of self.old) }
    {
        match level.left {
            [] => self.pass_end(alloc, level),
            [stmt, rest @ ..] => self.pass_statement(alloc, sources, level, stmt, rest),
        }
    }

    // What takes no cycle before the next cycle, if there is anything. Says whether there was.
    fn pass(&mut self, alloc: Global, sources: &Sources<'a>) -> Result<bool, Memory>
        ensures moved { IfOk result (λ moved. (if moved then Some (walk_of self.new) else None) ≡ silent (texts_in sources.now) (walk_of self.old)) }
        ensures same { IfOk result (λ moved. moved ≡ false → walk_of self.new ≡ walk_of self.old) }
    {
        if self.is_busy() {
            return Ok(false);
        }
        match self.levels.innermost() {
            Some(level) => self.pass_level(alloc, sources, level),
            None => Ok(false),
        }
    }

    // Goes on to the statement that takes the next cycle.
    pub(crate) fn settle(&mut self, alloc: Global, sources: &Sources<'a>) -> Result<(), Memory>
        ensures { OnOk result (walk_of self.new ≡ settled (texts_in sources.now) (walk_of self.old)) }
    {
        for _step in 0..MOST_SILENT_STEPS {
            if !self.pass(alloc, sources)? {
                return Ok(());
            }
        }
        self.lose();
        Ok(())
    }
}
