ghost use Rattle.std.specs.Prelude.{◌≡◌, ◌<◌, length, IfOk};
ghost use Rattle.std.specs.List.{All};
ghost use Rattle.block_tree.specs.TreeView.{tree_of};
ghost use Rattle.masm_flat.specs.Blocks.{as_tree, whole};
ghost use Rattle.masm_flat.specs.KnownLists.{dispatch_of};
ghost use Rattle.masm_flat.specs.Views.{pieces_of};

use crate::appending::add_copies;
use crate::joining::tree_of_list;
use crate::piece::Piece;
use block_tree::{Tree, Trees, dynamic};
use std::alloc::Global;
use vm_field::Memory;

/// The tree of a list, which stays.
pub fn copied_tree(alloc: Global, list: &[Piece]) -> Result<Tree, Memory>
    ensures { IfOk result (λ tree. tree_of tree ≡ whole as_tree (pieces_of list.now)) }
{
    let mut pieces = Vec::new(alloc);
    add_copies(alloc, list, &mut pieces)?;
    tree_of_list(alloc, pieces)
}

/// The tree of a dynexec (docs/ASSEMBLY.md, "Blocks"), by the lists of procedures and the places of
/// those that it may run.
pub fn dispatch_tree(alloc: Global, lists: &[Vec<Piece>], targets: &[usize]) -> Result<Tree, Memory>
    requires { All (λ place. place < length lists.now) targets.now }
    ensures { IfOk result (λ tree. tree_of tree ≡ dispatch_of lists.now targets.now) }
{
    let mut trees = Trees::new(alloc);
    for place in targets {
        trees.push(copied_tree(alloc, &lists[*place])?)?;
    }
    Ok(dynamic(trees))
}
