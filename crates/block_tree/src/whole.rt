ghost use Rattle.std.specs.Prelude.{◌<◌, length, All};
ghost use Rattle.op_pack.specs.Reading.{IsBatch};
ghost use Rattle.block_tree.specs.Trees.{AreWhole, IsWhole};
ghost use Rattle.block_tree.specs.TreeView.{targets_of, tree_of};

use crate::tree::Tree;
use vm_field::{Felt, known_elements};

/// That a tree in memory is whole: each of its spans has a batch, batches are eight elements, and
/// digests of opaque blocks are words. It reads each, so that a proof learns this.
#[cycle(whole)]
#[tactic(auto, using(crate::proofs::ViewLemmas::views))]
pub fn known_whole(tree: &Tree)
    ensures whole { IsWhole (tree_of tree.now) }
{
    match tree {
        Tree::Opaque(digest) => digest.known(),
        Tree::Span(batches) => known_batches(batches.as_slice()),
        Tree::Join(a, b) | Tree::Split(a, b) => {
            known_whole(a);
            known_whole(b);
        }
        Tree::Loop(a) | Tree::Call(a) | Tree::Syscall(a) => known_whole(a),
        Tree::Dyn(targets) => known_all(targets.as_slice()),
    }
}

// That each of these trees is whole.
#[cycle(whole)]
fn known_all(trees: &[Tree])
    ensures { AreWhole (targets_of trees.now) }
{
    for tree in trees {
        known_whole(tree);
    }
}

// That batches of eight are batches of elements.
fn known_batches(batches: &[[Felt; 8]])
    ensures { All IsBatch batches.now }
{
    for batch in batches {
        known_batch(batch);
    }
}

// That eight elements are a batch.
fn known_batch(batch: &[Felt; 8])
    ensures { IsBatch batch.now }
{
    known_elements(batch);
}
