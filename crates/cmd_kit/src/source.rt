// Sources, assembled or refused.
ghost use Rattle.std.specs.Prelude.{◌≡◌, ◌≤◌, length, option_map, IfSome, IfOk};
ghost use Rattle.vm_field.specs.Limits.{most_source_bytes};
ghost use Rattle.rpo_hash.specs.Constants.{constants_of};
ghost use Rattle.cmd_kit.specs.Outcomes.{SaysStatus};
ghost use Rattle.cmd_kit.specs.Sources.{file_of};
ghost use Rattle.cmd_kit.specs.SourceEnds.{AssemblesFiles, name_of_place as name_by_place, source_line};

use crate::outcome::{Outcome, answered};
use crate::status::Status;
use block_tree::Program;
use decimal_text::append_number;
use masm_link::{AsmCause, AsmError, assemble_with, cause_text};
use rpo_hash::Params;
use std::alloc::Global;
use std_u64::library;
use vm_field::{Bytes, Memory};

/// A file of source: its name, and its bytes.
#[derive(Drop)]
pub struct SourceFile<'a> {
    pub name: &'a str,
    pub text: Bytes,
}

/// The program of a source with a kernel, or with none. The source may use the procedures of `std_u64::library`.
pub fn assemble_sources(
    alloc: Global,
    constants: &Params,
    source: &SourceFile<'_>,
    kernel: Option<&SourceFile<'_>>,
) -> Result<Program, AsmError>
    requires source { length source.now.text ≤ most_source_bytes }
    requires kernel { IfSome kernel (λ k. length k.now.text ≤ most_source_bytes) }
    ensures { AssemblesFiles (constants_of constants.now) (file_of source.now) (option_map (λ k. file_of k.now) kernel.entry) result }
{
    let Ok(library) = library(alloc) else {
        return Err(AsmError::Memory);
    };
    let text = source.text.as_slice();
    let kernel = match kernel {
        Some(kernel) => Some(kernel.text.as_slice()),
        None => None,
    };
    assemble_with(alloc, constants, &library, text, kernel)
}

/// The name of the file in which a place lies.
pub fn name_of_place<'a>(
    in_kernel: bool,
    source: &SourceFile<'a>,
    kernel: Option<&SourceFile<'a>>,
) -> &'a str
    ensures { result.now ≡ name_by_place in_kernel (file_of source.now) (option_map (λ k. file_of k.now) kernel.entry) }
{
    match kernel {
        Some(kernel) if in_kernel => kernel.name,
        _ => source.name,
    }
}

/// The answer to a source that is refused.
#[tactic(auto, using(crate::proofs::OutcomeLemmas::says_line))]
pub fn refused_source(alloc: Global, name: &str, line: u32, column: u32, cause: AsmCause) -> Outcome
    ensures { SaysStatus result Status.Source (source_line name.now line column cause) }
{
    answered(
        Status::Source,
        source_text(alloc, name, line, column, cause),
    )
}

/// `source NAME LINE COLUMN CAUSE`
///
/// # Errors
///
/// `Memory` where the system gave none for the line.
pub fn source_text(
    alloc: Global,
    name: &str,
    line: u32,
    column: u32,
    cause: AsmCause,
) -> Result<Bytes, Memory>
    ensures { IfOk result (λ text. text ≡ source_line name.now line column cause) }
{
    let mut text = Bytes::copied(alloc, b"source ")?;
    text.append(name.as_bytes())?;
    text.append(b" ")?;
    append_number(&mut text, u64::from(line))?;
    text.append(b" ")?;
    append_number(&mut text, u64::from(column))?;
    text.append(b" ")?;
    text.append(cause_text(cause).as_bytes())?;
    text.append(b"\n")?;
    Ok(text)
}
