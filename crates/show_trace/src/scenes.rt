//! The syntax trees in which a program's instructions are looked up.
ghost use Rattle.std.specs.Prelude.{◌≡◌, ◌≤◌, true, false, length, option_map, IfOk, IfSome};
ghost use Rattle.vm_field.specs.Limits.{most_source_bytes};
ghost use Rattle.masm_link.specs.Assembling.{reads};
ghost use Rattle.masm_tree.specs.Views.{source_of};
ghost use Rattle.cmd_kit.specs.Sources.{file_of};
ghost use Rattle.show_trace.specs.Scenes.{IsRead, texts_held, source_texts, tree_read};

use cmd_kit::SourceFile;
use masm_link::{AsmError, read, with_library};
use masm_tree::Ast;
use std::alloc::Global;
use std_u64::library;
use vm_field::Memory;

/// The trees of a source and of its kernel, if there is one.
#[derive(Drop)]
pub(crate) struct Scenes {
    /// The source, with the library's procedures behind its own.
    pub program: Ast,
    /// How many procedures are its own.
    pub own: usize,
    pub kernel: Option<Ast>,
}

/// Reads a source that was assembled, and its kernel.
pub(crate) fn read_scenes(
    alloc: Global,
    source: &SourceFile<'_>,
    kernel: Option<&SourceFile<'_>>,
) -> Result<Scenes, Memory>
    requires source { length source.now.text ≤ most_source_bytes }
    requires kernel { IfSome kernel (λ k. length k.now.text ≤ most_source_bytes) }
    requires read { IsRead false source.now.text }
    requires kernel_read { IfSome kernel (λ k. IsRead true k.now.text) }
    ensures { IfOk result (λ scenes. texts_held scenes ≡ source_texts (file_of source.now) (option_map (λ k. file_of k.now) kernel.entry)) }
{
    let kernel = read_kernel(alloc, kernel)?;
    let ast = tree(alloc, source.text.as_slice(), false)?;
    let own = ast.procs.len();
    let library = library(alloc)?;
    let program = with_library(alloc, &library, ast)?;
    Ok(Scenes {
        program,
        own,
        kernel,
    })
}

// The tree of a kernel, where there is one.
fn read_kernel(alloc: Global, kernel: Option<&SourceFile<'_>>) -> Result<Option<Ast>, Memory>
    requires short { IfSome kernel (λ k. length k.now.text ≤ most_source_bytes) }
    requires read { IfSome kernel (λ k. IsRead true k.now.text) }
    ensures { IfOk result (λ ast. option_map source_of ast ≡ option_map (λ k. tree_read (reads true k.now.text)) kernel.entry) }
{
    match kernel {
        Some(file) => Ok(Some(tree(alloc, file.text.as_slice(), true)?)),
        None => Ok(None),
    }
}

// The tree of a text that is not refused.
fn tree(alloc: Global, text: &[u8], is_kernel: bool) -> Result<Ast, Memory>
    requires short { length text.now ≤ most_source_bytes }
    requires read { IsRead is_kernel text.now }
    ensures { IfOk result (λ ast. source_of ast ≡ tree_read (reads is_kernel text.now)) }
{
    match read(alloc, text, is_kernel) {
        Ok(ast) => Ok(ast),
        Err(AsmError::Memory) => Err(Memory::Memory),
        Err(AsmError::Bad { .. }) => unreachable!(),
    }
}
