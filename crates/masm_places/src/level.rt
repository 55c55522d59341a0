ghost use Rattle.std.specs.Prelude.{◌≡◌};
ghost use Rattle.masm_tree.specs.Trees.{Body};
ghost use Rattle.masm_tree.specs.declared.tree.Position.{Position};
ghost use Rattle.masm_tree.specs.Views.{body_of, stmt_view};
ghost use Rattle.masm_places.specs.Pending.{begun, exited, faced, first_at, level_of, taken, turned, within};
ghost use Rattle.masm_places.specs.Texts.{found_in};

use crate::origin::Origin;
use crate::sources::Found;
use masm_tree::{Position, Proc, Stmt};

/// What of a procedure's body a level is, which decides how it ends.
#[derive(Clone, Copy, Debug, PartialEq, Eq)]
pub enum Part {
    /// The whole body, in place.
    Exec,
    /// The whole body, in a block of its own: a call, a syscall, or the body between begin and end.
    Call,
    /// A body of an `if.true`.
    Branch,
    /// That of a `while.true`.
    Turn,
    /// That of a `repeat`, with so many turns left.
    Repeat(u32),
    /// What a `dynexec` runs, of which nothing is known.
    Dynamic,
}

/// Where a run is inside of one body.
#[derive(Clone, Copy, Drop)]
pub struct Level<'a> {
    /// The procedure in whose body it is.
    pub proc: &'a Proc,
    /// Where that stands.
    pub origin: Origin,
    pub part: Part,
    /// The place of the token that begins it.
    pub home: Position,
    /// The place of the statement that was taken up last, and before the first one its home.
    pub at: Position,
    // The statements that were not taken up yet.
    pub(crate) left: &'a [Stmt],
    // What a further turn runs.
    pub(crate) again: &'a [Stmt],
    // Whether the frame pointer has to go down behind it.
    pub(crate) owes: bool,
    // How many joins and spans are open around its block.
    pub(crate) outside: u32,
}

impl<'a> Level<'a> {
    // The whole body of a procedure.
    #[tactic(auto, using(crate::proofs::Statements::bodies))]
    pub(crate) fn begin(part: Part, found: Found<'a>, outside: u32) -> Level<'a>
        ensures { level_of result ≡ begun part (found_in found.entry) outside }
    {
        let home = Position {
            line: found.proc.line,
            column: found.proc.column,
        };
        Level {
            proc: found.proc,
            origin: found.origin,
            part,
            home,
            at: home,
            left: found.proc.body.as_slice(),
            again: &[],
            owes: found.proc.locals > 0,
            outside,
        }
    }

    // A statement is taken up, and these are left.
    pub(crate) fn take(self, at: Position, left: &'a [Stmt]) -> Level<'a>
        ensures { level_of result ≡ taken (level_of self.entry) at (body_of left.entry.now) }
    {
        Level { at, left, ..self }
    }

    // A part of a statement at this place.
    pub(crate) fn within(
        self,
        part: Part,
        at: Position,
        left: &'a [Stmt],
        again: &'a [Stmt],
        outside: u32,
    ) -> Level<'a>
        ensures { level_of result ≡ within (level_of self.entry) part at (body_of left.entry.now) (body_of again.entry.now) outside }
    {
        Level {
            proc: self.proc,
            origin: self.origin,
            part,
            home: at,
            at,
            left,
            again,
            owes: false,
            outside,
        }
    }

    // The next turn.
    pub(crate) fn turn(self, part: Part) -> Level<'a>
        ensures { level_of result ≡ turned (level_of self.entry) part }
    {
        Level {
            part,
            at: self.home,
            left: self.again,
            ..self
        }
    }

    // The place of the statement that comes next is told.
    pub(crate) fn face(self) -> Level<'a>
        ensures { level_of result ≡ faced (level_of self.entry) }
    {
        Level {
            at: first_at(self.at, self.left),
            ..self
        }
    }

    // The frame pointer goes down.
    pub(crate) fn exit(self) -> Level<'a>
        ensures { level_of result ≡ exited (level_of self.entry) }
    {
        Level {
            at: self.home,
            owes: false,
            ..self
        }
    }
}

// The place of a statement.
#[tactic(auto, using(crate::proofs::Statements::positions))]
fn position_of(stmt: &Stmt) -> Position
    ensures { (at : Position) (rest : Body) → result ≡ first_at at (stmt_view stmt.now rest) }
{
    match stmt {
        Stmt::Instr(at, _) => *at,
        Stmt::If(at, _, _) => *at,
        Stmt::While(at, _) => *at,
        Stmt::Repeat(at, _, _) => *at,
        Stmt::Exec(at, _) => *at,
        Stmt::Call(at, _) => *at,
        Stmt::Syscall(at, _) => *at,
        Stmt::ProcRef(at, _) => *at,
        Stmt::DynExec(at) => *at,
    }
}

// The place of the statement that is left first, and another one where none is left.
fn first_at(at: Position, left: &[Stmt]) -> Position
    ensures { result ≡ first_at at (body_of left.now) }
{
    match left {
        [] => at,
        [stmt, ..] => position_of(stmt),
    }
}
