use masm_instr::Instr;
use masm_reading::Consts;
use vm_field::Bytes;

/// The place of a token.
#[derive(Clone, Copy, Debug, PartialEq, Eq)]
pub struct Position {
    /// Its line, counted from 1.
    pub line: u32,
    /// Its column, counted in bytes from 1.
    pub column: u32,
}

/// A statement, with the place of the token that begins it.
#[derive(Drop)]
pub enum Stmt {
    /// An instruction.
    Instr(Position, Instr),
    /// The first body for 1 on top, the second for 0; the second is empty where there is no `else`.
    If(Position, Vec<Stmt>, Vec<Stmt>),
    /// The body again and again, while 1 is on top.
    While(Position, Vec<Stmt>),
    /// The body so many times.
    Repeat(Position, u32, Vec<Stmt>),
    /// The body of the procedure of this name.
    Exec(Position, Bytes),
    /// A call of the procedure of this name.
    Call(Position, Bytes),
    /// A call of the kernel's procedure of this name.
    Syscall(Position, Bytes),
    /// The digest of the procedure of this name.
    ProcRef(Position, Bytes),
    /// One of the procedures that procrefs name, by the digest on top.
    DynExec(Position),
}

/// A procedure, or the body between `begin` and `end`.
#[derive(Drop)]
pub struct Proc {
    /// Its name; `begin` for that body.
    pub name: Bytes,
    /// How many locals it has.
    pub locals: u32,
    /// Whether programs may reach it by `syscall`.
    pub exported: bool,
    pub body: Vec<Stmt>,
    /// The line of its first token, counted from 1.
    pub line: u32,
    /// The column of its first token, counted in bytes from 1.
    pub column: u32,
}

/// The syntax tree of a source.
#[derive(Drop)]
pub struct Ast {
    /// The constants, in their order.
    pub consts: Consts,
    /// The procedures, in their order.
    pub procs: Vec<Proc>,
    /// The body between `begin` and `end`, in a program; none in a kernel.
    pub main: Option<Proc>,
}
