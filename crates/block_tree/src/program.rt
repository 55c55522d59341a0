ghost use Rattle.std.specs.Prelude.{◌≡◌, ◌≤◌, [], ◌∷◌, ◌++◌, length, nat_eq, OnOk, OnErr};
ghost use Rattle.std.proofs.lemmas.Map.Keys.{IsDistinct-prop};
ghost use Rattle.block_tree.specs.Kernels.{AreDistinct};
ghost use Rattle.block_tree.specs.Trees.{IsWhole};
ghost use Rattle.block_tree.specs.TreeView.{tree_of};
ghost use Rattle.block_tree.specs.WholeTrees.{IsWhole-prop};
ghost use lib.Pointwise.{pointwise};

use crate::exports::Exports;
use crate::tree::Tree;
use crate::whole::known_whole;
use vm_field::Words;

/// An assembled program: its tree, the digests of the kernel procedures that it may call, and the
/// kernel's exports by name. A kernel has at most 255 procedures of different digests, and the tree
/// is whole.
#[derive(Drop)]
pub struct Program {
    pub tree: Tree,
    pub kernel: Words,
    pub exports: Exports,
    pub ghost few: { length kernel ≤ 255 },
    pub ghost distinct: { AreDistinct kernel } by { IsDistinct-prop (pointwise nat_eq) kernel },
    pub ghost whole: { IsWhole (tree_of tree) } by { IsWhole-prop (tree_of tree) },
}

impl Program {
    /// The program of these parts.
    pub fn new(tree: Tree, kernel: Words, exports: Exports) -> Program
        requires few { length kernel ≤ 255 }
        requires distinct { AreDistinct kernel }
        ensures tree { result.tree ≡ tree }
        ensures kernel { result.kernel ≡ kernel }
        ensures exports { result.exports ≡ exports }
    {
        known_whole(&tree);
        Program {
            tree,
            kernel,
            exports,
        }
    }
}
