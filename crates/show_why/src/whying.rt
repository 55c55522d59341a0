//! The command `why`: a source and its kernel are assembled, and the refusal is told in words.
ghost use Rattle.std.specs.Prelude.{◌≡◌, ◌≤◌, ◌++◌, codes, is_some, length, option_map, IfOk, IfSome, Some};
ghost use Rattle.vm_field.specs.Limits.{most_name_bytes, most_source_bytes};
ghost use Rattle.vm_io.specs.Shelf.{ShelfState};
ghost use Rattle.cmd_kit.specs.Outcomes.{EndsIn, SaysStatus, either};
ghost use Rattle.cmd_kit.specs.Sources.{file_of};
ghost use Rattle.cmd_kit.specs.Steps.{asking, refusal as refusal_of};
ghost use Rattle.show_why.specs.WhySteps.{refused_text, text_of_place as text_by_place, told, why_steps};

use crate::facts::{Place, append_fact};
use crate::laws::refusals_know_no_constants;
use crate::lines::append_line;
use cmd_kit::{
    Outcome, SourceFile, Status, answered, assemble_sources, load_kernel, load_source,
    name_of_place, source_text,
};
use masm_link::{AsmCause, AsmError, one_program};
use rpo_hash::{Params, known_constants};
use std::alloc::Global;
use vm_field::{Bytes, Felt, Memory};
use vm_io::Shelf;

// Constants by which a source is assembled to see whether it is refused.
const ZEROS: Params = Params {
    first: [[Felt::ZERO; 12]; 7],
    second: [[Felt::ZERO; 12]; 7],
};

/// The files of `why`.
#[derive(Clone, Copy)]
pub struct WhyNames<'a> {
    pub source: &'a str,
    pub kernel: Option<&'a str>,
}

/// `why`: reads the source and the kernel, if one is named, and tells why they are refused. No file of parameters is read, since a
/// refusal does not depend on the permutation's constants.
pub fn why_files<F: Shelf>(alloc: Global, shelf: &mut F, names: WhyNames<'_>) -> Outcome
    requires source { length names.source.now ≤ most_name_bytes }
    requires kernel { IfSome names.kernel (λ k. length k.now ≤ most_name_bytes) }
    ensures { EndsIn (Some (why_steps names.entry.source.now (option_map (λ k. k.now) names.entry.kernel))) result
        (F.state shelf.old) (F.state shelf.new) }
{
    match read_and_tell(alloc, shelf, names) {
        Ok(end) | Err(end) => end,
    }
}

// Reads the files, one after another, and assembles them.
fn read_and_tell<F: Shelf>(
    alloc: Global,
    shelf: &mut F,
    names: WhyNames<'_>,
) -> Result<Outcome, Outcome>
    requires source { length names.source.now ≤ most_name_bytes }
    requires kernel { IfSome names.kernel (λ k. length k.now ≤ most_name_bytes) }
    ensures { EndsIn (Some (why_steps names.entry.source.now (option_map (λ k. k.now) names.entry.kernel))) (either result)
        (F.state shelf.old) (F.state shelf.new) }
{
    let source = load_source(alloc, shelf, names.source)?;
    let kernel = load_kernel(alloc, shelf, names.kernel)?;
    Ok(tell(alloc, &source, kernel.as_ref()))
}

// Assembles, and tells the refusal.
fn tell(alloc: Global, source: &SourceFile<'_>, kernel: Option<&SourceFile<'_>>) -> Outcome
    requires source { length source.now.text ≤ most_source_bytes }
    requires kernel { IfSome kernel (λ k. length k.now.text ≤ most_source_bytes) }
    ensures { (s : ShelfState) → EndsIn (Some (asking (refusal_of (file_of source.now) (option_map (λ k. file_of k.now) kernel.entry))
        (told (file_of source.now) (option_map (λ k. file_of k.now) kernel.entry)))) result s s }
{
    known_constants(&ZEROS);
    refusals_know_no_constants();
    one_program();
    match assemble_sources(alloc, &ZEROS, source, kernel) {
        Ok(_program) => assembled(alloc),
        Err(
            AsmError::Bad {
                in_kernel,
                line,
                column,
                cause,
            },
        ) => {
            let place = Place {
                in_kernel,
                with_kernel: is_given(kernel),
                line,
                column,
            };
            let name = name_of_place(in_kernel, source, kernel);
            refused(
                alloc,
                name,
                text_of_place(in_kernel, source, kernel),
                place,
                cause,
            )
        }
        Err(AsmError::Memory) => Outcome::Memory,
    }
}

// Whether there is a kernel.
fn is_given(kernel: Option<&SourceFile<'_>>) -> bool
    ensures { result ≡ is_some (option_map (λ k. file_of k.now) kernel.entry) }
{
    match kernel {
        Some(_) => true,
        None => false,
    }
}

// The bytes of the file in which a place lies.
fn text_of_place<'a>(
    in_kernel: bool,
    source: &'a SourceFile<'_>,
    kernel: Option<&'a SourceFile<'_>>,
) -> &'a [u8]
    requires source { length source.now.text ≤ most_source_bytes }
    requires kernel { IfSome kernel (λ k. length k.now.text ≤ most_source_bytes) }
    ensures text { result.now ≡ text_by_place in_kernel (file_of source.entry.now) (option_map (λ k. file_of k.now) kernel.entry) }
    ensures short { length result.now ≤ most_source_bytes }
{
    match kernel {
        Some(kernel) if in_kernel => kernel.text.as_slice(),
        _ => source.text.as_slice(),
    }
}

#[tactic(auto, using(cmd_kit::proofs::OutcomeLemmas::says_line))]
fn assembled(alloc: Global) -> Outcome
    ensures { SaysStatus result Status.Ok (codes "assembled\n") }
{
    answered(Status::Ok, Bytes::copied(alloc, b"assembled\n"))
}

#[tactic(auto, using(cmd_kit::proofs::OutcomeLemmas::says_line))]
fn refused(alloc: Global, name: &str, text: &[u8], place: Place, cause: AsmCause) -> Outcome
    requires { length text.now ≤ most_source_bytes }
    ensures { SaysStatus result Status.Source (refused_text name.now text.now place.with_kernel
        (record { in_kernel = place.in_kernel; line = place.line; column = place.column; cause = cause })) }
{
    answered(
        Status::Source,
        refused_lines(alloc, name, text, place, cause),
    )
}

fn refused_lines(
    alloc: Global,
    name: &str,
    source: &[u8],
    place: Place,
    cause: AsmCause,
) -> Result<Bytes, Memory>
    requires { length source.now ≤ most_source_bytes }
    ensures { IfOk result (λ text. text ≡ refused_text name.now source.now place.with_kernel
        (record { in_kernel = place.in_kernel; line = place.line; column = place.column; cause = cause })) }
{
    let mut text = source_text(alloc, name, place.line, place.column, cause)?;
    append_line(alloc, &mut text, source, place.line, place.column)?;
    append_fact(alloc, &mut text, source, place, cause)?;
    Ok(text)
}
