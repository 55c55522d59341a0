ghost use Rattle.std.specs.Prelude.{◌≡◌, map, IfOk};
ghost use Rattle.block_tree.specs.TreeView as view;
ghost use Rattle.block_tree.specs.TreeView.{tree_of};
ghost use Rattle.tree_merge.specs.AddrView.{entries_of, placed_of};
ghost use Rattle.tree_merge.specs.Targets.{trees_in};
ghost use Rattle.tree_merge.specs.Placed.{plain};

use crate::addr_tree::{AddrTree, AddrTrees};
use block_tree::{Tree, Trees, dynamic};
use std::alloc::Global;
use vm_field::Memory;

/// The tree without its addresses. Digests and batches are moved, and each box is made anew. It goes
/// as deep as the tree is high, by two calls a level.
#[cycle(bare)]
pub fn into_tree(alloc: Global, tree: AddrTree) -> Result<Tree, Memory>
    ensures same { IfOk result (λ bare. tree_of bare ≡ plain (placed_of tree)) }
{
    match tree {
        AddrTree::Opaque(digest) => Ok(Tree::Opaque(digest)),
        AddrTree::Span(_, batches) => Ok(Tree::Span(batches)),
        AddrTree::Join(_, first, second) => {
            Ok(Tree::Join(child(alloc, first)?, child(alloc, second)?))
        }
        AddrTree::Split(_, on_one, on_zero) => {
            Ok(Tree::Split(child(alloc, on_one)?, child(alloc, on_zero)?))
        }
        AddrTree::Loop(_, body) => Ok(Tree::Loop(child(alloc, body)?)),
        AddrTree::Call(_, callee) => Ok(Tree::Call(child(alloc, callee)?)),
        AddrTree::Syscall(_, callee) => Ok(Tree::Syscall(child(alloc, callee)?)),
        AddrTree::Dyn(_, targets) => Ok(dynamic(bare_targets(alloc, targets)?)),
    }
}

// A child without its addresses.
#[cycle(bare)]
fn child(alloc: Global, tree: Box<AddrTree>) -> Result<Box<Tree>, Memory>
    ensures same { IfOk result (λ bare. tree_of bare.value ≡ plain (placed_of tree.value)) }
{
    let bare = into_tree(alloc, Box::into_inner(tree))?;
    Ok(Box::new(alloc, bare)?)
}

// Targets without their addresses.
#[cycle(bare)]
fn bare_targets(alloc: Global, targets: AddrTrees) -> Result<Trees, Memory>
    ensures same { IfOk result (λ trees. map tree_of (view.trees_in trees) ≡ trees_in (entries_of targets.items)) }
{
    let mut trees = Trees::new(alloc);
    for target in targets {
        trees.push(into_tree(alloc, target.tree)?)?;
    }
    Ok(trees)
}
