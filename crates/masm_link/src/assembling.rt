ghost use Rattle.std.specs.Prelude.{◌≡◌, ◌≤◌, [], length, not, Some, is_some, IfOk, IfSome};
ghost use Rattle.std.specs.Option.{option_map};
ghost use Rattle.masm_link.specs.Assembling.{Assembles};
ghost use Rattle.masm_link.specs.Programs.{LinksIn, ExportsIn};
ghost use Rattle.rpo_hash.specs.Constants.{constants_of};
ghost use Rattle.vm_field.specs.Limits.{number_of_constants};

use crate::library::{Library, with_library};
use crate::linking::{Linked, Stop, link};
use crate::program::program_of;
use crate::reading::read;
use crate::refusal::{AsmError, link_refusal};
use block_tree::Program;
use masm_flat::KernelProc;
use masm_lex::MAX_SOURCE;
use perm_memo::Permutations;
use rpo_hash::{Params, known_constants};
use std::alloc::Global;
use tree_hash::Digests;
use vm_field::Memory;

// What a source links to, a kernel or a program, with a library, or its first refusal.
fn link_text(
    alloc: Global,
    library: &Library,
    text: &[u8],
    is_kernel: bool,
    kernel: &[KernelProc],
    digests: &mut Digests,
) -> Result<Linked, AsmError>
    requires text { length text.now ≤ MAX_SOURCE }
    requires constants { length digests.old.permutations ≡ number_of_constants }
    ensures links { LinksIn digests.old.permutations is_kernel library.now text.now kernel.now result }
    ensures main { IfOk result (λ linked. is_some linked.main ≡ not is_kernel) }
    ensures permutations { digests.new.permutations ≡ digests.old.permutations }
{
    let ast = match read(alloc, text, is_kernel) {
        Ok(ast) => ast,
        Err(error) => return Err(error),
    };
    let whole = with_library(alloc, library, ast)?;
    match link(alloc, &whole, kernel, digests) {
        Ok(linked) => Ok(linked),
        Err(Stop::Refused(refusal)) => Err(link_refusal(is_kernel, refusal)),
        Err(Stop::Memory) => Err(AsmError::Memory),
    }
}

// What a kernel of this text exports. It has no library.
fn text_exports(
    alloc: Global,
    text: &[u8],
    digests: &mut Digests,
) -> Result<Vec<KernelProc>, AsmError>
    requires text { length text.now ≤ MAX_SOURCE }
    requires constants { length digests.old.permutations ≡ number_of_constants }
    ensures exports { ExportsIn digests.old.permutations (Some text.now) result }
    ensures permutations { digests.new.permutations ≡ digests.old.permutations }
{
    let library = Library::new(alloc);
    match link_text(alloc, &library, text, true, &[], digests) {
        Ok(linked) => Ok(linked.exports),
        Err(error) => Err(error),
    }
}

// What a kernel exports; nothing where there is none.
fn kernel_exports(
    alloc: Global,
    kernel: Option<&[u8]>,
    digests: &mut Digests,
) -> Result<Vec<KernelProc>, AsmError>
    requires text { IfSome kernel (λ text. length text.now ≤ MAX_SOURCE) }
    requires constants { length digests.old.permutations ≡ number_of_constants }
    ensures exports { ExportsIn digests.old.permutations (option_map (λ text. text.now) kernel.entry) result }
    ensures permutations { digests.new.permutations ≡ digests.old.permutations }
{
    match kernel {
        Some(text) => text_exports(alloc, text, digests),
        None => Ok(Vec::new(alloc)),
    }
}

/// The program of a source with a library, and with a kernel or with none: the tree of its `begin`, the
/// kernel's exports with their digests in the order of the kernel's source, and the digests each once. The
/// kernel has no library.
///
/// # Errors
///
/// `Bad` names the first refusal of the kernel, and where there is none the first of the source.
pub fn assemble_with(
    alloc: Global,
    params: &Params,
    library: &Library,
    source: &[u8],
    kernel: Option<&[u8]>,
) -> Result<Program, AsmError>
    requires source { length source.now ≤ MAX_SOURCE }
    requires kernel { IfSome kernel (λ text. length text.now ≤ MAX_SOURCE) }
    ensures { Assembles (constants_of params.now) library.now source.now (option_map (λ text. text.now) kernel.entry) result }
{
    known_constants(params);
    // No permutation is kept, since an input that is known is not permuted again.
    let mut digests = Digests::new(alloc, Permutations::keeping_none(alloc, params));
    let exports = match kernel_exports(alloc, kernel, &mut digests) {
        Ok(exports) => exports,
        Err(error) => return Err(error),
    };
    let tree = match link_text(alloc, library, source, false, &exports, &mut digests) {
        Ok(linked) => linked.main.unwrap(),
        Err(error) => return Err(error),
    };
    match program_of(alloc, &mut digests, tree, &exports) {
        Ok(program) => Ok(program),
        Err(Memory::Memory) => Err(AsmError::Memory),
    }
}

/// The program of a source without a library, as `assemble_with` gives it.
///
/// # Errors
///
/// Those of `assemble_with`.
pub fn assemble(
    alloc: Global,
    params: &Params,
    source: &[u8],
    kernel: Option<&[u8]>,
) -> Result<Program, AsmError>
    requires source { length source.now ≤ MAX_SOURCE }
    requires kernel { IfSome kernel (λ text. length text.now ≤ MAX_SOURCE) }
    ensures { Assembles (constants_of params.now) [] source.now (option_map (λ text. text.now) kernel.entry) result }
{
    let library = Library::new(alloc);
    assemble_with(alloc, params, &library, source, kernel)
}
