ghost use Rattle.std.specs.Prelude.{◌≡◌, ◌∷◌, Bool, map, IfOk, OnOk};
ghost use Rattle.std.specs.Option.{option_map};
ghost use Rattle.masm_reading.specs.declared.constant.Const.{Const};
ghost use Rattle.masm_tree.specs.declared.terminal.Terminal.TheVariants as terminals;
ghost use Rattle.masm_tree.specs.Trees.{Empty, Leaf_then, append};
ghost use Rattle.masm_parse.specs.Machine.{procedure, reduce, closed, Inside, shift, shift_statement, shift_else, shift_end, shift_inside, depth_of};
ghost use Rattle.masm_tree.specs.Views.{stmt_view, body_of, procedure_of};
ghost use Rattle.masm_parse.specs.Views.{open_view, opens_view, configuration_view, kept};

use masm_tree::{Header, Leaf, Position, Proc, Role, Stmt, Terminal};
use std::alloc::{AllocError, Global};
use std::mem;

// A statement that is open, with the statements before it; for an `else` with the first body too.
#[derive(Drop)]
pub(crate) enum OpenConstruct {
    If(Position, Vec<Stmt>),
    Else(Position, Vec<Stmt>, Vec<Stmt>),
    While(Position, Vec<Stmt>),
    Repeat(Position, u32, Vec<Stmt>),
}

// Where the parser stands: between procedures, inside one, with the open statements and those of
// the innermost body, or behind the body of `begin`.
#[derive(Drop)]
pub(crate) enum Configuration {
    Top(Vec<Proc>),
    Inside(Vec<Proc>, Header, Vec<OpenConstruct>, Vec<Stmt>),
    Behind(Vec<Proc>, Proc),
}

// A body with a statement at its end.
#[tactic(auto, using(crate::proofs::Mirror::mirror))]
fn with(mut body: Vec<Stmt>, stmt: Stmt) -> Result<Vec<Stmt>, AllocError>
    ensures { IfOk result (λ now. body_of now.items ≡ append (body_of body.items) (stmt_view stmt Empty)) }
{
    body.push(stmt)?;
    Ok(body)
}

// Adds a statement of one token to a body.
#[tactic(auto, using(crate::proofs::Mirror::mirror))]
fn add_leaf(body: &mut Vec<Stmt>, at: Position, leaf: Leaf) -> Result<(), AllocError>
    ensures { OnOk result (body_of body.new.items ≡ append (body_of body.old.items) (Leaf_then at leaf Empty)) }
{
    let stmt = match leaf {
        Leaf::Instr(instr) => Stmt::Instr(at, instr),
        Leaf::Exec(name) => Stmt::Exec(at, name),
        Leaf::Call(name) => Stmt::Call(at, name),
        Leaf::Syscall(name) => Stmt::Syscall(at, name),
        Leaf::ProcRef(name) => Stmt::ProcRef(at, name),
        Leaf::DynExec => Stmt::DynExec(at),
    };
    body.push(stmt)?;
    Ok(())
}

// The statements behind the end of an open one.
#[tactic(auto, using(crate::proofs::Mirror::mirror))]
fn reduce(alloc: Global, construct: OpenConstruct, body: Vec<Stmt>) -> Result<Vec<Stmt>, AllocError>
    ensures { IfOk result (λ now. body_of now.items ≡ reduce (open_view construct) (body_of body.items)) }
{
    match construct {
        OpenConstruct::If(at, before) => with(before, Stmt::If(at, body, Vec::new(alloc))),
        OpenConstruct::Else(at, before, first) => with(before, Stmt::If(at, first, body)),
        OpenConstruct::While(at, before) => with(before, Stmt::While(at, body)),
        OpenConstruct::Repeat(at, times, before) => with(before, Stmt::Repeat(at, times, body)),
    }
}

// The configuration behind the end of a procedure, or of `begin`.
#[tactic(auto, using(crate::proofs::Mirror::mirror))]
fn close(mut procs: Vec<Proc>, header: Header, body: Vec<Stmt>) -> Result<Configuration, AllocError>
    ensures { IfOk result (λ now. configuration_view now
        ≡ closed (map procedure_of procs.items) header.role (procedure header (body_of body.items))) }
{
    let Header {
        role,
        name,
        locals,
        at,
    } = header;
    let done = Proc {
        name,
        locals,
        exported: matches!(role, Role::Export),
        body,
        line: at.line,
        column: at.column,
    };
    if matches!(role, Role::Main) {
        return Ok(Configuration::Behind(procs, done));
    }
    procs.push(done)?;
    Ok(Configuration::Top(procs))
}

// The configuration behind the beginning of a statement, which is open now.
#[tactic(auto, using(crate::proofs::Mirror::mirror))]
fn open(
    alloc: Global,
    procs: Vec<Proc>,
    header: Header,
    mut opens: Vec<OpenConstruct>,
    construct: OpenConstruct,
) -> Result<Configuration, AllocError>
    ensures { IfOk result (λ now. configuration_view now
        ≡ Inside (map procedure_of procs.items) header (open_view construct ∷ opens_view opens.items) Empty) }
{
    opens.push(construct)?;
    Ok(Configuration::Inside(procs, header, opens, Vec::new(alloc)))
}

// A body that ends grows no more, and its tree is held while all procedures are linked: its room is cut to its length.
#[tactic(auto, using(crate::proofs::Mirror::mirror))]
fn shift_else(
    alloc: Global,
    procs: Vec<Proc>,
    header: Header,
    mut opens: Vec<OpenConstruct>,
    mut body: Vec<Stmt>,
) -> Result<Option<Configuration>, AllocError>
    ensures { IfOk result (λ now. option_map configuration_view now
        ≡ shift_else (map procedure_of procs.items) header (opens_view opens.items) (body_of body.items)) }
{
    body.shrink_to_fit();
    match opens.pop() {
        Some(OpenConstruct::If(at, before)) => {
            let now = open(
                alloc,
                procs,
                header,
                opens,
                OpenConstruct::Else(at, before, body),
            )?;
            Ok(Some(now))
        }
        _ => Ok(None),
    }
}

#[tactic(auto, using(crate::proofs::Mirror::mirror))]
fn shift_end(
    alloc: Global,
    procs: Vec<Proc>,
    header: Header,
    mut opens: Vec<OpenConstruct>,
    mut body: Vec<Stmt>,
) -> Result<Option<Configuration>, AllocError>
    ensures { IfOk result (λ now. option_map configuration_view now
        ≡ shift_end (map procedure_of procs.items) header (opens_view opens.items) (body_of body.items)) }
{
    body.shrink_to_fit();
    match opens.pop() {
        None => Ok(Some(close(procs, header, body)?)),
        Some(construct) => {
            let body = reduce(alloc, construct, body)?;
            Ok(Some(Configuration::Inside(procs, header, opens, body)))
        }
    }
}

#[tactic(auto, using(crate::proofs::Mirror::mirror))]
fn shift_inside(
    alloc: Global,
    procs: Vec<Proc>,
    header: Header,
    opens: Vec<OpenConstruct>,
    mut body: Vec<Stmt>,
    terminal: Terminal,
) -> Result<Option<Configuration>, AllocError>
    ensures { IfOk result (λ now. option_map configuration_view now
        ≡ shift_inside (map procedure_of procs.items) header (opens_view opens.items) (body_of body.items) terminal) }
{
    let construct = match terminal {
        Terminal::Const(_) | Terminal::Header(_) => return Ok(None),
        Terminal::Leaf(at, leaf) => {
            add_leaf(&mut body, at, leaf)?;
            return Ok(Some(Configuration::Inside(procs, header, opens, body)));
        }
        Terminal::Else => return shift_else(alloc, procs, header, opens, body),
        Terminal::End => return shift_end(alloc, procs, header, opens, body),
        Terminal::If(at) => OpenConstruct::If(at, body),
        Terminal::While(at) => OpenConstruct::While(at, body),
        Terminal::Repeat(at, times) => OpenConstruct::Repeat(at, times, body),
    };
    let now = open(alloc, procs, header, opens, construct)?;
    Ok(Some(now))
}

impl Configuration {
    // How many statements are open.
    #[tactic(auto, using(crate::proofs::Mirror::mirror))]
    pub(crate) fn depth(&self) -> usize
        ensures { result ≡ depth_of (configuration_view self.now) }
    {
        match self {
            Configuration::Inside(_, _, opens, _) => opens.len(),
            _ => 0,
        }
    }

    // Whether a constant fits here. The configuration behind it is this one.
    pub(crate) fn takes_constant(&self) -> bool
        ensures { (kernel : Bool) (c : Const)
            → kept result (configuration_view self.now)
            ≡ shift kernel (configuration_view self.now) (terminals.Const c) }
    {
        matches!(self, Configuration::Top(_))
    }

    // The configuration behind a header.
    #[tactic(auto, using(crate::proofs::Mirror::mirror))]
    fn with_header(self, alloc: Global, kernel: bool, header: Header) -> Option<Configuration>
        ensures { option_map configuration_view result ≡ shift kernel (configuration_view self) (terminals.Header header) }
    {
        match self {
            Configuration::Top(procs) if header.role.may_begin(kernel) => Some(
                Configuration::Inside(procs, header, Vec::new(alloc), Vec::new(alloc)),
            ),
            _ => None,
        }
    }

    // The configuration behind a token that is neither a constant nor a header.
    fn with_statement(
        self,
        alloc: Global,
        terminal: Terminal,
    ) -> Result<Option<Configuration>, AllocError>
        ensures { IfOk result (λ now. option_map configuration_view now ≡ shift_statement (configuration_view self) terminal) }
    {
        match self {
            Configuration::Inside(procs, header, opens, body) => {
                shift_inside(alloc, procs, header, opens, body, terminal)
            }
            _ => Ok(None),
        }
    }

    // Takes the place of this configuration, where there is one.
    fn put(&mut self, now: Option<Configuration>) -> bool
        ensures { kept result (configuration_view self.new) ≡ option_map configuration_view now }
    {
        match now {
            Some(now) => {
                *self = now;
                true
            }
            None => false,
        }
    }

    // Goes behind a header; false where it does not fit.
    pub(crate) fn shift_header(&mut self, alloc: Global, kernel: bool, header: Header) -> bool
        ensures { kept result (configuration_view self.new) ≡ shift kernel (configuration_view self.old) (terminals.Header header) }
    {
        let before = mem::replace(self, Configuration::Top(Vec::new(alloc)));
        self.put(before.with_header(alloc, kernel, header))
    }

    // Goes behind a statement of one token, in place; false where it does not fit.
    fn shift_leaf(&mut self, at: Position, leaf: Leaf) -> Result<bool, AllocError>
        ensures { IfOk result (λ fits. kept fits (configuration_view self.new)
            ≡ shift_statement (configuration_view self.old) (terminals.Leaf at leaf)) }
    {
        match self {
            Configuration::Inside(_, _, _, body) => {
                add_leaf(body, at, leaf)?;
                Ok(true)
            }
            _ => Ok(false),
        }
    }

    // Goes behind another token; false where it does not fit.
    pub(crate) fn shift_statement(
        &mut self,
        alloc: Global,
        terminal: Terminal,
    ) -> Result<bool, AllocError>
        ensures { IfOk result (λ fits. kept fits (configuration_view self.new) ≡ shift_statement (configuration_view self.old) terminal) }
    {
        match terminal {
            Terminal::Leaf(at, leaf) => self.shift_leaf(at, leaf),
            terminal => {
                let before = mem::replace(self, Configuration::Top(Vec::new(alloc)));
                let now = before.with_statement(alloc, terminal)?;
                Ok(self.put(now))
            }
        }
    }
}
