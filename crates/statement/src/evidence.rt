ghost use Rattle.std.specs.Prelude.{◌≡◌, ◌++◌, IfOk, OnOk};
ghost use Rattle.block_tree.specs.TreeView.{targets_of, tree_of};
ghost use Rattle.statement.specs.EvidenceText.{batch_text, cycles_text, dyn_text, evidence_text, opaque_text, pair_text, run_text, span_text, tape_text, targets_text, tree_text};

use block_tree::{Evidence, Tree};
use decimal_text::{append_elements, append_number};
use std::alloc::Global;
use vm_field::{Bytes, Felt, Memory, Word};

/// The one text that is written of evidence: the line `pair` with the two places, or the lines
/// `run`, `cycles` and `tape`, and a line for each block of the tree and each batch, in preorder.
/// A dynamic block's line has the number of its targets, which follow. Numbers are in decimal, and
/// digests have lower-case digits.
pub fn write_evidence(alloc: Global, evidence: &Evidence) -> Result<Bytes, Memory>
    ensures { IfOk result (λ bytes. bytes ≡ evidence_text evidence.now) }
{
    let mut text = Bytes::new(alloc);
    match evidence {
        Evidence::Run { cycles, tree, tape } => {
            text.append(b"run\n")?;
            append_run(alloc, &mut text, *cycles, tape.as_slice(), tree)?;
        }
        Evidence::Pair { first, second } => append_pair(&mut text, *first, *second)?,
    }
    Ok(text)
}

/// Adds the lines of a run: those of its cycles and of its tape, and those of its tree.
pub fn append_run(
    alloc: Global,
    text: &mut Bytes,
    cycles: u32,
    tape: &[Felt],
    tree: &Tree,
) -> Result<(), Memory>
    ensures { OnOk result (text.new ≡ text.old ++ run_text cycles tape.now (tree_of tree.now)) }
{
    append_cycles(text, cycles)?;
    append_tape(text, tape)?;
    append_tree(alloc, text, tree)
}

fn append_cycles(text: &mut Bytes, cycles: u32) -> Result<(), Memory>
    ensures { OnOk result (text.new ≡ text.old ++ cycles_text cycles) }
{
    text.append(b"cycles ")?;
    append_number(text, u64::from(cycles))?;
    text.push(b'\n')
}

fn append_tape(text: &mut Bytes, tape: &[Felt]) -> Result<(), Memory>
    ensures { OnOk result (text.new ≡ text.old ++ tape_text tape.now) }
{
    text.append(b"tape")?;
    append_elements(text, tape)?;
    text.push(b'\n')
}

fn append_pair(text: &mut Bytes, first: u32, second: u32) -> Result<(), Memory>
    ensures { OnOk result (text.new ≡ text.old ++ pair_text first second) }
{
    text.append(b"pair ")?;
    append_number(text, u64::from(first))?;
    text.push(b' ')?;
    append_number(text, u64::from(second))?;
    text.push(b'\n')
}

#[cycle(trees)]
#[tactic(auto, using(block_tree::proofs::ViewLemmas::views, crate::proofs::TargetLemmas::counts))]
fn append_tree(alloc: Global, text: &mut Bytes, tree: &Tree) -> Result<(), Memory>
    ensures { OnOk result (text.new ≡ text.old ++ tree_text (tree_of tree.now)) }
{
    match tree {
        Tree::Opaque(digest) => append_opaque(alloc, text, digest),
        Tree::Span(batches) => append_span(text, batches.as_slice()),
        Tree::Join(first, second) => {
            text.append(b"join\n")?;
            append_tree(alloc, text, first)?;
            append_tree(alloc, text, second)
        }
        Tree::Split(on_one, on_zero) => {
            text.append(b"split\n")?;
            append_tree(alloc, text, on_one)?;
            append_tree(alloc, text, on_zero)
        }
        Tree::Loop(body) => {
            text.append(b"loop\n")?;
            append_tree(alloc, text, body)
        }
        Tree::Call(callee) => {
            text.append(b"call\n")?;
            append_tree(alloc, text, callee)
        }
        Tree::Syscall(callee) => {
            text.append(b"syscall\n")?;
            append_tree(alloc, text, callee)
        }
        Tree::Dyn(targets) => {
            append_dyn(text, targets.as_slice().len())?;
            append_trees(alloc, text, targets.as_slice())
        }
    }
}

#[cycle(trees)]
fn append_trees(alloc: Global, text: &mut Bytes, trees: &[Tree]) -> Result<(), Memory>
    ensures { OnOk result (text.new ≡ text.old ++ targets_text (targets_of trees.now)) }
{
    for tree in trees {
        append_tree(alloc, text, tree)?;
    }
    Ok(())
}

fn append_dyn(text: &mut Bytes, targets: usize) -> Result<(), Memory>
    ensures { OnOk result (text.new ≡ text.old ++ dyn_text targets) }
{
    text.append(b"dyn ")?;
    append_number(text, targets as u64)?;
    text.push(b'\n')
}

fn append_opaque(alloc: Global, text: &mut Bytes, digest: &Word) -> Result<(), Memory>
    ensures { OnOk result (text.new ≡ text.old ++ opaque_text digest.now) }
{
    let digits = digest.hex(alloc)?;
    text.append(b"opaque ")?;
    text.append(digits.as_bytes())?;
    text.push(b'\n')
}

fn append_span(text: &mut Bytes, batches: &[[Felt; 8]]) -> Result<(), Memory>
    ensures { OnOk result (text.new ≡ text.old ++ span_text batches.now) }
{
    text.append(b"span ")?;
    append_number(text, batches.len() as u64)?;
    text.push(b'\n')?;
    for batch in batches {
        append_batch(text, batch)?;
    }
    Ok(())
}

fn append_batch(text: &mut Bytes, batch: &[Felt; 8]) -> Result<(), Memory>
    ensures { OnOk result (text.new ≡ text.old ++ batch_text batch.now) }
{
    text.append(b"batch")?;
    append_elements(text, batch)?;
    text.push(b'\n')
}
