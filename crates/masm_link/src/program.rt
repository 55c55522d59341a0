ghost use Rattle.std.specs.Prelude.{◌≡◌, ◌≤◌, length, map, IfOk, OnOk};
ghost use Rattle.block_tree.specs.Kernels.{AreDistinct};
ghost use Rattle.masm_link.specs.Assembling.{add_word, without_repeats};
ghost use Rattle.masm_link.specs.Programs.{digest_in, export_in};

use block_tree::{Export, Exports, Program, Tree};
use masm_flat::KernelProc;
use std::alloc::Global;
use tree_hash::Digests;
use vm_field::{Bytes, Memory, Word, Words};

// Adds a word, unless it is there.
fn add_word(words: &mut Words, word: Word) -> Result<(), Memory>
    ensures { OnOk result (words.new ≡ add_word words.old word) }
{
    if words.as_slice().contains(&word) {
        return Ok(());
    }
    words.push(word)
}

// The digests of what a kernel exports, each once.
fn kernel_words(alloc: Global, exports: &[Export]) -> Result<Words, Memory>
    ensures words { IfOk result (λ words. words ≡ without_repeats (map (λ e. e.digest) exports.now)) }
    ensures few { IfOk result (λ words. length words ≤ length exports.now) }
    ensures distinct { IfOk result (λ words. AreDistinct words) }
{
    let mut words = Words::new(alloc);
    for export in exports {
        add_word(&mut words, export.digest)?;
    }
    Ok(words)
}

// What a kernel exports, with the digests of the trees. A block that several exports have, or that was
// hashed before, is hashed once.
fn exports_of(
    alloc: Global,
    digests: &mut Digests,
    kernel: &[KernelProc],
) -> Result<Exports, Memory>
    ensures { IfOk result (λ exports. exports ≡ map (export_in digests.old.permutations) kernel.now) }
{
    let mut exports = Exports::new(alloc);
    for procedure in kernel {
        exports.push(Export {
            name: Bytes::copied(alloc, procedure.name.as_slice())?,
            digest: digests.of_tree(alloc, &procedure.tree)?,
        })?;
    }
    Ok(exports)
}

// The program of a tree, with a kernel.
pub(crate) fn program_of(
    alloc: Global,
    digests: &mut Digests,
    tree: Tree,
    kernel: &[KernelProc],
) -> Result<Program, Memory>
    requires { length kernel.now ≤ 255 }
    ensures tree { IfOk result (λ program. program.tree ≡ tree) }
    ensures exports { IfOk result (λ program. program.exports ≡ map (export_in digests.old.permutations) kernel.now) }
    ensures kernel { IfOk result (λ program. program.kernel ≡ without_repeats (map (digest_in digests.old.permutations) kernel.now)) }
{
    let exports = exports_of(alloc, digests, kernel)?;
    let words = kernel_words(alloc, exports.as_slice())?;
    Ok(Program::new(tree, words, exports))
}
