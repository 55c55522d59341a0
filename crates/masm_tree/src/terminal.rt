ghost use Rattle.std.specs.Prelude.{◌≡◌};
ghost use Rattle.masm_tree.specs.Terminals.{may_begin, is_opening};

use crate::refusal::Cause;
use crate::tree::Position;
use masm_instr::Instr;
use masm_reading::Const;
use vm_field::Bytes;

/// What a header begins.
#[derive(Clone, Copy, Debug, PartialEq, Eq)]
pub enum Role {
    Proc,
    Export,
    Main,
}

impl Role {
    /// Whether a header may stand in a kernel, or in a program.
    pub fn may_begin(self, kernel: bool) -> bool
        ensures { result ≡ may_begin kernel self }
    {
        match self {
            Role::Proc => true,
            Role::Export => kernel,
            Role::Main => !kernel,
        }
    }
}

/// A `proc`, `export` or `begin`.
#[derive(Drop)]
pub struct Header {
    pub role: Role,
    pub name: Bytes,
    pub locals: u32,
    pub at: Position,
}

// How a statement names a procedure.
#[derive(Clone, Copy, Debug, PartialEq, Eq)]
pub(crate) enum Use {
    Exec,
    Call,
    Syscall,
    ProcRef,
}

/// A statement that is one token.
#[derive(Drop)]
pub enum Leaf {
    /// An instruction.
    Instr(Instr),
    /// The body of the procedure of this name.
    Exec(Bytes),
    /// A call of the procedure of this name.
    Call(Bytes),
    /// A call of the kernel's procedure of this name.
    Syscall(Bytes),
    /// The digest of the procedure of this name.
    ProcRef(Bytes),
    /// One of the procedures that procrefs name, by the digest on top.
    DynExec,
}

/// What a token is to the grammar.
#[derive(Drop)]
pub enum Terminal {
    Const(Const),
    Header(Header),
    Leaf(Position, Leaf),
    If(Position),
    Else,
    While(Position),
    Repeat(Position, u32),
    End,
}

impl Terminal {
    /// Whether it opens a statement that has bodies.
    pub fn is_opening(&self) -> bool
        ensures { result ≡ is_opening self.now }
    {
        matches!(
            self,
            Terminal::If(_) | Terminal::While(_) | Terminal::Repeat(_, _)
        )
    }
}

/// A token as it is read: its terminal, and the first cause for which it is refused by itself, wherever
/// it stands. A token that is refused has the terminal of its kind with empty names and zeros.
#[derive(Drop)]
pub struct Symbol {
    pub terminal: Terminal,
    pub fault: Option<Cause>,
}
