mod dynexecs;
mod kernels;
mod library;
mod references;
mod refusals;
mod trees;

use block_tree::Program;
use masm_lex::MAX_SOURCE;
use masm_link::{AsmCause, AsmError, assemble};
use rpo_hash::Params;
use std::alloc::{AllocError, Global};
use vm_field::Felt;

const NO_CONSTANTS: Params = Params {
    first: [[Felt::ZERO; 12]; 7],
    second: [[Felt::ZERO; 12]; 7],
};

// A source is a line, with the column on its first line and the cause by which it is refused.
macro_rules! refused {
    ($($source:literal $column:literal $cause:ident;)*) => {
        [$(($source, $column, masm_link::AsmCause::$cause)),*]
    };
}

macro_rules! pairs {
    ($($left:literal => $right:literal;)*) => {
        [$(($left, $right)),*]
    };
}

pub(crate) use pairs;
pub(crate) use refused;

// The refusal of a program or of its kernel.
fn bad(in_kernel: bool, line: u32, column: u32, cause: AsmCause) -> AsmError {
    AsmError::Bad {
        in_kernel,
        line,
        column,
        cause,
    }
}

// The program of a source, with a kernel or with none.
fn assembled(alloc: Global, kernel: Option<&[u8]>, source: &[u8]) -> Result<Program, AsmError> {
    if source.len() > MAX_SOURCE {
        return Err(AsmError::Memory);
    }
    if let Some(text) = kernel {
        if text.len() > MAX_SOURCE {
            return Err(AsmError::Memory);
        }
    }
    assemble(alloc, &NO_CONSTANTS, source, kernel)
}

// Whether the program, or else the kernel, is refused so.
fn is_refused(alloc: Global, kernel: Option<&[u8]>, source: &[u8], want: AsmError) -> bool {
    match assembled(alloc, kernel, source) {
        Ok(_) => false,
        Err(error) => error == want,
    }
}

// So many procedures, one a line, of which each has a loop round the one before it.
fn chain(alloc: Global, count: u32) -> Result<String, AllocError> {
    let mut source = String::from_str(alloc, "proc.a0 end\n")?;
    for i in 1..count {
        let before = i - 1;
        let line = format!(in alloc; "proc.a{i} while.true exec.a{before} end end\n")?;
        source.push_str(line.as_str())?;
    }
    Ok(source)
}
