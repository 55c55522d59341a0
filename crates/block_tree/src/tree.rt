ghost use Rattle.std.specs.Prelude.{◌≡◌, ◌-◌, ◌++◌, ◌∷◌, [], ◌^◌, min, map, IfOk, OnOk};
ghost use Rattle.rpo_hash.specs.Constants.{constants_of};
ghost use Rattle.vm_field.specs.Sponge.{digest_of_input};
ghost use Rattle.block_tree.specs.Trees as blocks;
ghost use Rattle.block_tree.specs.Trees.{input_of_dyn, input_of_one, input_of_two, targets_height, tree_digest, tree_height};
ghost use Rattle.block_tree.specs.TreeView.{targets_of, tree_of, trees_in};

use op_pack::Batches;
use rpo_hash::{Params, digest_of};
use std::alloc::Global;
use vm_field::{Felt, Memory, Word};
use vm_ops::{Op, opcode};

/// A tree of blocks (docs/MACHINE.md). Contracts speak of it by `tree_of`.
#[derive(Drop)]
#[cycle(tree)]
pub enum Tree {
    /// A block of which only the digest is known.
    Opaque(Word),
    /// The operations of one batch or more.
    Span(Batches),
    /// One block, and then another.
    Join(Box<Tree>, Box<Tree>),
    /// The first block where the cell on top is 1, and the second where it is 0.
    Split(Box<Tree>, Box<Tree>),
    /// A block that is run again as long as the cell on top is 1.
    Loop(Box<Tree>),
    /// A block with a context of its own.
    Call(Box<Tree>),
    /// A block of the kernel.
    Syscall(Box<Tree>),
    /// A block whose child is the first of these trees whose digest is the word on top of the stack.
    Dyn(Trees),
}

/// A list of trees, the targets of a dynamic block. Contracts speak of it by `trees_in`.
#[derive(Drop)]
#[cycle(tree)]
pub struct Trees {
    items: Vec<Tree>,
}

impl Trees {
    /// No trees. It takes no memory.
    pub fn new(alloc: Global) -> Trees
        ensures none { trees_in result ≡ [] }
    {
        Trees {
            items: Vec::new(alloc),
        }
    }

    /// Puts a tree behind the others.
    pub fn push(&mut self, tree: Tree) -> Result<(), Memory>
        ensures pushed { OnOk result (map tree_of (trees_in self.new) ≡ map tree_of (trees_in self.old) ++ (tree_of tree ∷ [])) }
    {
        self.items.push(tree)?;
        Ok(())
    }

    /// The trees in order.
    pub fn as_slice(&self) -> &[Tree]
        ensures is { result.now ≡ trees_in self.now }
    {
        self.items.as_slice()
    }
}

/// The dynamic block with these targets.
pub fn dynamic(targets: Trees) -> Tree
    ensures is { tree_of result ≡ blocks.Dyn (targets_of (trees_in targets)) }
{
    Tree::Dyn(targets)
}

/// The digest of a tree.
#[tactic(auto, using(crate::proofs::ViewLemmas::views))]
pub fn digest(params: &Params, tree: &Tree) -> Word
    ensures is { result ≡ tree_digest (constants_of params.now) (tree_of tree.now) }
{
    match tree {
        Tree::Opaque(digest) => *digest,
        Tree::Span(batches) => digest_of(params, Felt::ZERO, batches.as_slice()),
        Tree::Join(first, second) => digest_of_two(
            params,
            Op::Join,
            digest(params, first),
            digest(params, second),
        ),
        Tree::Split(on_one, on_zero) => digest_of_two(
            params,
            Op::Split,
            digest(params, on_one),
            digest(params, on_zero),
        ),
        Tree::Loop(body) => digest_of_one(params, Op::Loop, digest(params, body)),
        Tree::Call(callee) => digest_of_one(params, Op::Call, digest(params, callee)),
        Tree::Syscall(callee) => digest_of_one(params, Op::Syscall, digest(params, callee)),
        Tree::Dyn(_) => digest_of_dynamic(params),
    }
}

/// The digest of a dynamic block, which does not depend on its targets.
pub fn digest_of_dynamic(params: &Params) -> Word
    ensures is { result ≡ digest_of_input (constants_of params.now) input_of_dyn }
{
    digest_of(
        params,
        Felt::reduced(u128::from(opcode(Op::Dyn))),
        &[[Felt::ZERO; 8]],
    )
}

/// The digest of a block with two children, of which these are the digests.
pub fn digest_of_two(params: &Params, start: Op, first: Word, second: Word) -> Word
    ensures is { result ≡ digest_of_input (constants_of params.now) (input_of_two start first second) }
{
    let domain = Felt::reduced(u128::from(opcode(start)));
    let [a, b, c, d] = first.elements();
    let [e, f, g, h] = second.elements();
    digest_of(params, domain, &[[a, b, c, d, e, f, g, h]])
}

/// The digest of a block with one child, of which this is the digest.
pub fn digest_of_one(params: &Params, start: Op, child: Word) -> Word
    ensures is { result ≡ digest_of_input (constants_of params.now) (input_of_one start child) }
{
    digest_of_two(params, start, child, Word::ZERO)
}

/// The number of blocks on the tree's longest path, or 2^64 - 1 where it is more.
#[cycle(height)]
#[tactic(auto, using(crate::proofs::ViewLemmas::views))]
pub fn height(tree: &Tree) -> u64
    ensures is { result ≡ min (tree_height (tree_of tree.now)) (2 ^ 64 - 1) }
{
    match tree {
        Tree::Opaque(_) | Tree::Span(_) => 1,
        Tree::Join(a, b) | Tree::Split(a, b) => height(a).max(height(b)).saturating_add(1),
        Tree::Loop(a) | Tree::Call(a) | Tree::Syscall(a) => height(a).saturating_add(1),
        Tree::Dyn(targets) => highest(targets.as_slice()).saturating_add(1),
    }
}

// The height of the highest of these trees, or 2^64 - 1 where it is more; 0 where there is none.
#[cycle(height)]
fn highest(trees: &[Tree]) -> u64
    ensures is { result ≡ min (targets_height (targets_of trees.now)) (2 ^ 64 - 1) }
{
    let mut most = 0;
    for tree in trees {
        most = height(tree).max(most);
    }
    most
}

/// A tree that is the same.
#[cycle(copying)]
#[tactic(auto, using(crate::proofs::ViewLemmas::views))]
pub fn copy(alloc: Global, tree: &Tree) -> Result<Tree, Memory>
    ensures same { IfOk result (λ copy. tree_of copy ≡ tree_of tree.now) }
{
    match tree {
        Tree::Opaque(digest) => Ok(Tree::Opaque(*digest)),
        Tree::Span(batches) => Ok(Tree::Span(batches.copy(alloc)?)),
        Tree::Join(a, b) => Ok(Tree::Join(copied(alloc, a)?, copied(alloc, b)?)),
        Tree::Split(a, b) => Ok(Tree::Split(copied(alloc, a)?, copied(alloc, b)?)),
        Tree::Loop(a) => Ok(Tree::Loop(copied(alloc, a)?)),
        Tree::Call(a) => Ok(Tree::Call(copied(alloc, a)?)),
        Tree::Syscall(a) => Ok(Tree::Syscall(copied(alloc, a)?)),
        Tree::Dyn(targets) => Ok(dynamic(Trees {
            items: copies(alloc, targets.as_slice())?,
        })),
    }
}

#[cycle(copying)]
fn copied(alloc: Global, tree: &Tree) -> Result<Box<Tree>, Memory>
    ensures same { IfOk result (λ copy. tree_of copy.value ≡ tree_of tree.now) }
{
    let same = copy(alloc, tree)?;
    Ok(Box::new(alloc, same)?)
}

// Trees that are the same.
#[cycle(copying)]
fn copies(alloc: Global, trees: &[Tree]) -> Result<Vec<Tree>, Memory>
    ensures same { IfOk result (λ copies. map tree_of copies.items ≡ map tree_of trees.now) }
{
    let mut copies = Vec::new(alloc);
    for tree in trees {
        copies.push(copy(alloc, tree)?)?;
    }
    Ok(copies)
}
