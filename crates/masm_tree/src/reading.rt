ghost use Rattle.std.specs.Prelude.{◌≡◌, ℕ, IfOk, map, Result};
ghost use Rattle.masm_reading.specs.Reading.{parts_of};
ghost use Rattle.masm_tree.specs.declared.terminal.Terminal.{Terminal};
ghost use Rattle.masm_tree.specs.declared.refusal.Cause.{Cause};
ghost use Rattle.masm_tree.specs.Classify.{constant, definition, locals_of, header, main, alone, on_true, repetition, usage, phrase, instruction, nameless, blank, blank_of, symbol_with, classify_keyword, classify_instruction, classify, GivesTerminal};

use crate::keyword::{Keyword, keyword_of};
use crate::parts::{Case, is_name};
use crate::refusal::{Cause, Stop};
use crate::terminal::{Header, Leaf, Role, Symbol, Terminal, Use};
use crate::tree::Position;
use masm_reading::{Const, Consts, read_number, read_parameter, read_parts, split, split_into};
use std::alloc::{AllocError, Global};
use vm_field::{Bytes, Felt, Memory};

const SYNTAX: Stop = Stop::Refused(Cause::Syntax);

// A definition of a constant, by the two parts beside its `=`.
fn read_definition(alloc: Global, at: Position, parts: &[&[u8]]) -> Result<Terminal, Stop>
    ensures { GivesTerminal result (definition at (map (λ part. part.now) parts.now)) }
{
    let [name, value] = parts else {
        return Err(SYNTAX);
    };
    if !is_name(Case::Upper, name) {
        return Err(SYNTAX);
    }
    let Some(number) = read_number(value) else {
        return Err(SYNTAX);
    };
    if number > u64::MAX as u128 {
        return Err(Stop::Refused(Cause::NumberRange));
    }
    let Ok(value) = Felt::try_from_u64(number as u64) else {
        return Err(Stop::Refused(Cause::NumberRange));
    };
    Ok(Terminal::Const(Const {
        name: Bytes::copied(alloc, name)?,
        value,
        line: at.line,
        column: at.column,
    }))
}

// const.NAME=v
#[tactic(auto, unfolding(crate::specs::Classify::constant))]
fn read_constant(alloc: Global, at: Position, parts: &[&[u8]]) -> Result<Terminal, Stop>
    ensures { GivesTerminal result (constant at (map (λ part. part.now) parts.now)) }
{
    let [part] = parts else {
        return Err(SYNTAX);
    };
    let sides = split(alloc, part, b'=')?;
    read_definition(alloc, at, sides.as_slice())
}

// The count of locals, which stands last in a header.
fn read_locals(parts: &[&[u8]]) -> Result<u32, Cause>
    ensures { result ≡ locals_of (map (λ part. part.now) parts.now) }
{
    match parts {
        [] => Ok(0),
        [part] => match read_number(part) {
            Some(count) if count <= 65535 => Ok(count as u32),
            Some(_) => Err(Cause::LocalsRange),
            None => Err(Cause::Syntax),
        },
        _ => Err(Cause::Syntax),
    }
}

// proc.name, proc.name.n, and the same with export
#[tactic(auto, unfolding(crate::specs::Classify::header))]
fn read_header(alloc: Global, role: Role, at: Position, parts: &[&[u8]]) -> Result<Terminal, Stop>
    ensures { GivesTerminal result (header role at (map (λ part. part.now) parts.now)) }
{
    let Some((name, more)) = parts.split_first() else {
        return Err(SYNTAX);
    };
    if !is_name(Case::Lower, name) {
        return Err(SYNTAX);
    }
    match read_locals(more) {
        Ok(locals) => Ok(Terminal::Header(Header {
            role,
            name: Bytes::copied(alloc, name)?,
            locals,
            at,
        })),
        Err(cause) => Err(Stop::Refused(cause)),
    }
}

fn read_begin(alloc: Global, at: Position, parts: &[&[u8]]) -> Result<Terminal, Stop>
    ensures { GivesTerminal result (alone (main at) (map (λ part. part.now) parts.now)) }
{
    if !parts.is_empty() {
        return Err(SYNTAX);
    }
    Ok(Terminal::Header(Header {
        role: Role::Main,
        name: Bytes::copied(alloc, b"begin")?,
        locals: 0,
        at,
    }))
}

// A token of one part.
fn read_alone(terminal: Terminal, parts: &[&[u8]]) -> Result<Terminal, Stop>
    ensures { GivesTerminal result (alone terminal (map (λ part. part.now) parts.now)) }
{
    if parts.is_empty() {
        Ok(terminal)
    } else {
        Err(SYNTAX)
    }
}

// A token with the second part `true`.
fn read_on_true(terminal: Terminal, parts: &[&[u8]]) -> Result<Terminal, Stop>
    ensures { GivesTerminal result (on_true terminal (map (λ part. part.now) parts.now)) }
{
    match parts {
        [part] if *part == b"true".as_slice() => Ok(terminal),
        _ => Err(SYNTAX),
    }
}

// repeat.n
#[tactic(auto, unfolding(crate::specs::Classify::repetition))]
fn read_repetition(consts: &Consts, at: Position, parts: &[&[u8]]) -> Result<Terminal, Stop>
    ensures { GivesTerminal result (repetition consts.now at (map (λ part. part.now) parts.now)) }
{
    let [part] = parts else {
        return Err(SYNTAX);
    };
    match read_parameter(consts, true, part) {
        Some(times) if 1 <= times && times <= 10000 => Ok(Terminal::Repeat(at, times as u32)),
        Some(_) => Err(Stop::Refused(Cause::RepeatRange)),
        None => Err(SYNTAX),
    }
}

// exec.name, call.name, syscall.name, procref.name
#[tactic(auto, unfolding(crate::specs::Classify::usage))]
fn read_usage(alloc: Global, use_of: Use, at: Position, parts: &[&[u8]]) -> Result<Terminal, Stop>
    ensures { GivesTerminal result (usage use_of at (map (λ part. part.now) parts.now)) }
{
    let [name] = parts else {
        return Err(SYNTAX);
    };
    if !is_name(Case::Lower, name) {
        return Err(SYNTAX);
    }
    let name = Bytes::copied(alloc, name)?;
    let leaf = match use_of {
        Use::Exec => Leaf::Exec(name),
        Use::Call => Leaf::Call(name),
        Use::Syscall => Leaf::Syscall(name),
        Use::ProcRef => Leaf::ProcRef(name),
    };
    Ok(Terminal::Leaf(at, leaf))
}

// A token whose first part is a keyword, by its other parts.
#[tactic(auto, unfolding(crate::specs::Classify::phrase))]
fn read_phrase(
    alloc: Global,
    consts: &Consts,
    at: Position,
    parts: &[&[u8]],
    keyword: Keyword,
) -> Result<Terminal, Stop>
    ensures { (locals : ℕ) → GivesTerminal result
        (phrase (record { consts = consts.now; locals = locals }) at (map (λ part. part.now) parts.now) keyword) }
{
    match keyword {
        Keyword::Const => read_constant(alloc, at, parts),
        Keyword::Proc => read_header(alloc, Role::Proc, at, parts),
        Keyword::Export => read_header(alloc, Role::Export, at, parts),
        Keyword::Begin => read_begin(alloc, at, parts),
        Keyword::If => read_on_true(Terminal::If(at), parts),
        Keyword::Else => read_alone(Terminal::Else, parts),
        Keyword::While => read_on_true(Terminal::While(at), parts),
        Keyword::Repeat => read_repetition(consts, at, parts),
        Keyword::Exec => read_usage(alloc, Use::Exec, at, parts),
        Keyword::Call => read_usage(alloc, Use::Call, at, parts),
        Keyword::Syscall => read_usage(alloc, Use::Syscall, at, parts),
        Keyword::ProcRef => read_usage(alloc, Use::ProcRef, at, parts),
        Keyword::DynExec => read_alone(Terminal::Leaf(at, Leaf::DynExec), parts),
        Keyword::End => read_alone(Terminal::End, parts),
    }
}

// Another token, which is an instruction.
#[tactic(auto, unfolding(crate::specs::Classify::instruction, masm_reading::specs::Reading::read))]
fn read_instruction(
    alloc: Global,
    consts: &Consts,
    locals: u32,
    at: Position,
    text: &[u8],
    parts: &[&[u8]],
) -> Result<Terminal, Stop>
    requires { map (λ part. part.now) parts.now ≡ parts_of text.now }
    ensures { GivesTerminal result (instruction (record { consts = consts.now; locals = locals }) at text.now) }
{
    let instr = read_parts(alloc, text, parts, consts)?;
    if instr.name().names_local()
        && instr
            .numbers()
            .first()
            .is_none_or(|local| *local >= locals as u128)
    {
        return Err(Stop::Refused(Cause::LocalsRange));
    }
    Ok(Terminal::Leaf(at, Leaf::Instr(instr)))
}

fn nameless(alloc: Global, role: Role, at: Position) -> Terminal
    ensures { result ≡ nameless role at }
{
    Terminal::Header(Header {
        role,
        name: Bytes::new(alloc),
        locals: 0,
        at,
    })
}

fn blank(alloc: Global, at: Position) -> Terminal
    ensures { result ≡ blank at }
{
    Terminal::Leaf(at, Leaf::Exec(Bytes::new(alloc)))
}

// The terminal of a refused token.
fn blank_of(alloc: Global, at: Position, keyword: Keyword) -> Terminal
    ensures { result ≡ blank_of at keyword }
{
    match keyword {
        Keyword::Const => Terminal::Const(Const {
            name: Bytes::new(alloc),
            value: Felt::ZERO,
            line: at.line,
            column: at.column,
        }),
        Keyword::Proc => nameless(alloc, Role::Proc, at),
        Keyword::Export => nameless(alloc, Role::Export, at),
        Keyword::Begin => nameless(alloc, Role::Main, at),
        Keyword::If => Terminal::If(at),
        Keyword::Else => Terminal::Else,
        Keyword::While => Terminal::While(at),
        Keyword::Repeat => Terminal::Repeat(at, 0),
        Keyword::Exec | Keyword::Call | Keyword::Syscall | Keyword::ProcRef | Keyword::DynExec =>
            blank(alloc, at),
        Keyword::End => Terminal::End,
    }
}

fn symbol_with(refused: Terminal, read: Result<Terminal, Stop>) -> Result<Symbol, AllocError>
    ensures { (defined : Result Terminal Cause) → GivesTerminal read defined → IfOk result (λ symbol. symbol ≡ symbol_with refused defined) }
{
    match read {
        Ok(terminal) => Ok(Symbol {
            terminal,
            fault: None,
        }),
        Err(Stop::Refused(cause)) => Ok(Symbol {
            terminal: refused,
            fault: Some(cause),
        }),
        Err(Stop::Memory) => Err(AllocError),
    }
}

#[tactic(auto, unfolding(crate::specs::Classify::classify_keyword))]
fn classify_keyword(
    alloc: Global,
    kernel: bool,
    consts: &Consts,
    at: Position,
    parts: &[&[u8]],
    keyword: Keyword,
) -> Result<Symbol, AllocError>
    ensures { (locals : ℕ) → IfOk result
        (λ symbol. symbol ≡ classify_keyword kernel (record { consts = consts.now; locals = locals }) at
        (map (λ part. part.now) parts.now) keyword) }
{
    let refused = blank_of(alloc, at, keyword);
    if kernel && keyword.is_kept_from_kernels() {
        return Ok(Symbol {
            terminal: refused,
            fault: Some(Cause::KernelBody),
        });
    }
    symbol_with(refused, read_phrase(alloc, consts, at, parts, keyword))
}

#[tactic(auto, unfolding(crate::specs::Classify::classify_instruction))]
fn classify_instruction(
    alloc: Global,
    consts: &Consts,
    locals: u32,
    at: Position,
    text: &[u8],
    parts: &[&[u8]],
) -> Result<Symbol, AllocError>
    requires { map (λ part. part.now) parts.now ≡ parts_of text.now }
    ensures { IfOk result (λ symbol. symbol ≡ classify_instruction (record { consts = consts.now; locals = locals }) at text.now) }
{
    symbol_with(
        blank(alloc, at),
        read_instruction(alloc, consts, locals, at, text, parts),
    )
}

// The token of this text and these parts, with the constants defined before it and the count of
// locals.
#[tactic(auto, unfolding(crate::specs::Classify::classify))]
fn classify_parts(
    alloc: Global,
    kernel: bool,
    consts: &Consts,
    locals: u32,
    at: Position,
    text: &[u8],
    parts: &[&[u8]],
) -> Result<Symbol, AllocError>
    requires { map (λ part. part.now) parts.now ≡ parts_of text.now }
    ensures { IfOk result (λ symbol. symbol ≡ classify kernel (record { consts = consts.now; locals = locals }) at text.now) }
{
    let Some((first, rest)) = parts.split_first() else {
        return classify_instruction(alloc, consts, locals, at, text, parts);
    };
    match keyword_of(first) {
        None => classify_instruction(alloc, consts, locals, at, text, parts),
        Some(keyword) => classify_keyword(alloc, kernel, consts, at, rest, keyword),
    }
}

/// The token of this text, with the constants defined before it and the count of locals. Its parts are
/// put into the list, in place of what it holds.
pub fn classify<'a>(
    alloc: Global,
    kernel: bool,
    consts: &Consts,
    locals: u32,
    at: Position,
    text: &'a [u8],
    parts: &mut Vec<&'a [u8]>,
) -> Result<Symbol, AllocError>
    ensures { IfOk result (λ symbol. symbol ≡ classify kernel (record { consts = consts.now; locals = locals }) at text.entry.now) }
{
    split_into(parts, text, b'.')?;
    classify_parts(alloc, kernel, consts, locals, at, text, parts)
}
