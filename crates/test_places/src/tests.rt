mod blocks;
mod calls;
mod spans;

use block_tree::Program;
use masm_link::{assemble_with, read, with_library};
use masm_places::Sources;
use masm_tree::Ast;
use processor::{Run, execute};
use rpo_hash::Params;
use show_cycles::append_cycles;
use std::alloc::Global;
use std_u64::library;
use vm_field::{Bytes, Felt, Felts};
use vm_state::Inputs;

const NO_CONSTANTS: Params = Params {
    first: [[Felt::ZERO; 12]; 7],
    second: [[Felt::ZERO; 12]; 7],
};

// A run, and what is told of its cycles: of each line the operation, and what stands behind the cells.
struct Case {
    kernel: &'static str,
    source: &'static str,
    // The cells on top at the start, the top first.
    stack: &'static [u64],
    want: &'static [&'static str],
}

// The tree of a text that is no longer than a source may be.
fn tree(alloc: Global, text: &[u8], is_kernel: bool) -> Option<Ast> {
    if text.len() > 1000 {
        return None;
    }
    read(alloc, text, is_kernel).ok()
}

fn program(alloc: Global, case: &Case) -> Option<Program> {
    let source = case.source.as_bytes();
    let kernel = case.kernel.as_bytes();
    if source.len() > 1000 || kernel.len() > 1000 {
        return None;
    }
    let library = library(alloc).ok()?;
    assemble_with(alloc, &NO_CONSTANTS, &library, source, Some(kernel)).ok()
}

fn inputs(alloc: Global, case: &Case) -> Option<Inputs> {
    let mut stack = Felts::new(alloc);
    for number in case.stack {
        stack.push(Felt::reduced(u128::from(*number))).ok()?;
    }
    if stack.len() > 16 {
        return None;
    }
    Some(Inputs::new(stack, Felts::new(alloc)))
}

fn run(alloc: Global, case: &Case) -> Option<Run> {
    let program = program(alloc, case)?;
    execute(alloc, &NO_CONSTANTS, &program, &inputs(alloc, case)?, 500).ok()
}

// A line's operation, and what stands behind the cells.
fn short(alloc: Global, line: &[u8]) -> Option<Bytes> {
    let mut text = Bytes::new(alloc);
    let mut is_told = true;
    for (place, word) in line.split(|byte| *byte == b' ').enumerate() {
        if word == b"depth".as_slice() {
            is_told = false;
        }
        if word == b"at".as_slice() {
            is_told = true;
        }
        if is_told && place > 2 {
            text.append(b" ").ok()?;
        }
        if is_told && place > 1 {
            text.append(word).ok()?;
        }
    }
    Some(text)
}

// What is told of the cycles.
fn told(alloc: Global, case: &Case) -> Option<Bytes> {
    let source = tree(alloc, case.source.as_bytes(), false)?;
    let kernel = tree(alloc, case.kernel.as_bytes(), true)?;
    let own = source.procs.len();
    let library = library(alloc).ok()?;
    let whole = with_library(alloc, &library, source).ok()?;
    let sources = Sources::new(alloc, &whole, own, Some(&kernel)).ok()?;
    let run = run(alloc, case)?;
    let mut text = Bytes::new(alloc);
    append_cycles(alloc, &mut text, &sources, &run.events).ok()?;
    Some(text)
}

// Whether the cycles are told so. A line feed ends each line, so that an empty one comes last.
fn is_told(alloc: Global, case: &Case) -> Option<bool> {
    let text = told(alloc, case)?;
    let mut lines = text.as_slice().split(|byte| *byte == b'\n');
    for want in case.want {
        if short(alloc, lines.next()?)?.as_slice() != want.as_bytes() {
            return Some(false);
        }
    }
    Some(lines.next() == Some(b"".as_slice()) && lines.next().is_none())
}

fn are_told(alloc: Global, cases: &[Case]) -> bool {
    for case in cases {
        if is_told(alloc, case) != Some(true) {
            return false;
        }
    }
    true
}
