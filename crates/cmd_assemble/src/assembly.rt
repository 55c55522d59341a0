// `assemble`: the digest of a program, and what its kernel exports.
ghost use Rattle.std.specs.Prelude.{◌≡◌, ◌≤◌, ◌++◌, length, option_map, IfSome, IfOk, OnOk, Some};
ghost use Rattle.std.specs.List.{flat_map};
ghost use Rattle.vm_field.specs.Limits.{most_name_bytes, most_source_bytes};
ghost use Rattle.rpo_hash.specs.Constants.{constants_of};
ghost use Rattle.cmd_kit.specs.AssembleEnds.{export_line, program_lines};
ghost use Rattle.cmd_kit.specs.AssembleSteps.{assemble_steps};
ghost use Rattle.cmd_kit.specs.Outcomes.{ComesTo, EndsIn, SaysStatus, either};
ghost use Rattle.cmd_kit.specs.Sources.{file_of};
ghost use Rattle.cmd_kit.specs.Steps.{assembly};

use block_tree::{Export, Program};
use cmd_kit::{
    Outcome, SourceFile, Status, answered, append_word, assemble_sources, load_kernel, load_params,
    load_source, name_of_place, refused_source,
};
use masm_link::AsmError;
use perm_memo::Permutations;
use rpo_hash::Params;
use std::alloc::Global;
use tree_hash::Digests;
use vm_field::{Bytes, Memory};
use vm_io::Shelf;

/// `assemble`: reads the parameters, the source and the kernel, if one is named, and prints the
/// digest of the program and the kernel's exports.
pub fn assemble_files<F: Shelf>(
    alloc: Global,
    shelf: &mut F,
    params: &str,
    source: &str,
    kernel: Option<&str>,
) -> Outcome
    requires params { length params.now ≤ most_name_bytes }
    requires source { length source.now ≤ most_name_bytes }
    requires kernel { IfSome kernel (λ k. length k.now ≤ most_name_bytes) }
    ensures { EndsIn (Some (assemble_steps params.now source.now (option_map (λ k. k.now) kernel.entry))) result
        (F.state shelf.old) (F.state shelf.new) }
{
    match read_and_assemble(alloc, shelf, params, source, kernel) {
        Ok(end) | Err(end) => end,
    }
}

// Reads the files, one after another, and assembles them.
fn read_and_assemble<F: Shelf>(
    alloc: Global,
    shelf: &mut F,
    params: &str,
    source: &str,
    kernel: Option<&str>,
) -> Result<Outcome, Outcome>
    requires params { length params.now ≤ most_name_bytes }
    requires source { length source.now ≤ most_name_bytes }
    requires kernel { IfSome kernel (λ k. length k.now ≤ most_name_bytes) }
    ensures { EndsIn (Some (assemble_steps params.now source.now (option_map (λ k. k.now) kernel.entry))) (either result)
        (F.state shelf.old) (F.state shelf.new) }
{
    let constants = load_params(alloc, shelf, params)?;
    let source = load_source(alloc, shelf, source)?;
    let kernel = load_kernel(alloc, shelf, kernel)?;
    Ok(answer(alloc, &constants, &source, kernel.as_ref()))
}

// Assembles, and prints the program or the refusal.
fn answer(
    alloc: Global,
    constants: &Params,
    source: &SourceFile<'_>,
    kernel: Option<&SourceFile<'_>>,
) -> Outcome
    requires source { length source.now.text ≤ most_source_bytes }
    requires kernel { IfSome kernel (λ k. length k.now.text ≤ most_source_bytes) }
    ensures { ComesTo (assembly (constants_of constants.now) (file_of source.now) (option_map (λ k. file_of k.now) kernel.entry)) result }
{
    match assemble_sources(alloc, constants, source, kernel) {
        Ok(program) => assembled(alloc, constants, &program),
        Err(
            AsmError::Bad {
                in_kernel,
                line,
                column,
                cause,
            },
        ) => {
            let name = name_of_place(in_kernel, source, kernel);
            refused_source(alloc, name, line, column, cause)
        }
        Err(AsmError::Memory) => Outcome::Memory,
    }
}

#[tactic(auto, using(cmd_kit::proofs::OutcomeLemmas::says_line))]
fn assembled(alloc: Global, constants: &Params, program: &Program) -> Outcome
    ensures { SaysStatus result Status.Ok (program_lines (constants_of constants.now) program.now) }
{
    answered(Status::Ok, program_text(alloc, constants, program))
}

// `digest H`, and a line for each export. Equal blocks of the program are hashed once.
fn program_text(alloc: Global, constants: &Params, program: &Program) -> Result<Bytes, Memory>
    ensures { IfOk result (λ text. text ≡ program_lines (constants_of constants.now) program.now) }
{
    let mut digests = Digests::new(alloc, Permutations::keeping_none(alloc, constants));
    let digest = digests.of_tree(alloc, &program.tree)?;
    let mut text = Bytes::copied(alloc, b"digest ")?;
    append_word(alloc, &mut text, &digest)?;
    text.append(b"\n")?;
    append_exports(alloc, &mut text, program.exports.as_slice())?;
    Ok(text)
}

fn append_exports(alloc: Global, text: &mut Bytes, exports: &[Export]) -> Result<(), Memory>
    ensures { OnOk result (text.new ≡ text.old ++ flat_map export_line exports.now) }
{
    for export in exports {
        append_export(alloc, text, export)?;
    }
    Ok(())
}

// `kernel NAME H`
fn append_export(alloc: Global, text: &mut Bytes, export: &Export) -> Result<(), Memory>
    ensures { OnOk result (text.new ≡ text.old ++ export_line export.now) }
{
    text.append(b"kernel ")?;
    text.append(export.name.as_slice())?;
    text.append(b" ")?;
    append_word(alloc, text, &export.digest)?;
    text.append(b"\n")
}
