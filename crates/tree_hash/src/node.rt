ghost use Rattle.std.specs.Prelude.{◌≡◌, ℕ, List, All, IfOk, map};
ghost use Rattle.block_tree.specs.TreeView as view;
ghost use Rattle.block_tree.specs.TreeView.{tree_of};
ghost use Rattle.block_tree.specs.Trees as blocks;
ghost use Rattle.block_tree.specs.Trees.{input_of_dyn, tree_digest};
ghost use Rattle.vm_field.specs.Sponge.{digest_of_input};
ghost use Rattle.tree_hash.specs.Nodes.{AreFirst, IsHashed, digest_in, node_tree, targets_of};

use crate::batch::ReadBatch;
use crate::digests::Digests;
use crate::places::Places;
use crate::reading::read_batches;
use block_tree::Tree;
use perm_memo::Permutations;
use std::alloc::Global;
use vm_field::{Memory, Word};
use vm_ops::Op;

/// A block with its digest in front, so that each digest is computed once, and with its batches as
/// they are read, so that each is read once.
#[derive(Drop)]
#[cycle(node)]
pub enum Node {
    Opaque(Word),
    Span(Word, Vec<ReadBatch>),
    Join(Word, Box<Node>, Box<Node>),
    Split(Word, Box<Node>, Box<Node>),
    Loop(Word, Box<Node>),
    Call(Word, Box<Node>),
    Syscall(Word, Box<Node>),
    /// Its targets are found by their digests.
    Dyn(Word, Places, Vec<Node>),
}

impl Node {
    /// The digest of the block.
    pub fn digest(&self) -> Word
        ensures is { result ≡ digest_in self.now }
        ensures hashed { (constants : List ℕ) → IsHashed constants self.now → result ≡ tree_digest constants (node_tree self.now) }
    {
        match self {
            Node::Opaque(digest)
            | Node::Span(digest, _)
            | Node::Join(digest, _, _)
            | Node::Split(digest, _, _)
            | Node::Loop(digest, _)
            | Node::Call(digest, _)
            | Node::Syscall(digest, _)
            | Node::Dyn(digest, _, _) => *digest,
        }
    }
}

/// The tree with its digests, and the permutations with those that were computed for it. A block is
/// hashed once, whatever its copies, unless another one with its fingerprint stands between them.
pub fn hashed(
    alloc: Global,
    permutations: Permutations,
    tree: &Tree,
) -> Result<(Node, Permutations), Memory>
    ensures hashed { IfOk result (λ r. IsHashed permutations r.0) }
    ensures tree { IfOk result (λ r. node_tree r.0 ≡ tree_of tree.now) }
    ensures digest { IfOk result (λ r. digest_in r.0 ≡ tree_digest permutations (tree_of tree.now)) }
    ensures permutations { IfOk result (λ r. r.1 ≡ permutations) }
{
    let mut digests = Digests::new(alloc, permutations);
    let node = node_of(alloc, &mut digests, tree)?;
    Ok((node, digests.into_permutations()))
}

// The tree with its digests, of which some may be known.
#[cycle(nodes)]
#[tactic(auto, using(crate::proofs::NodeLemmas::views, block_tree::proofs::ViewLemmas::views))]
fn node_of(alloc: Global, digests: &mut Digests, tree: &Tree) -> Result<Node, Memory>
    ensures hashed { IfOk result (λ node. IsHashed digests.old.permutations node) }
    ensures tree { IfOk result (λ node. node_tree node ≡ tree_of tree.now) }
    ensures digest { IfOk result (λ node. digest_in node ≡ tree_digest digests.old.permutations (tree_of tree.now)) }
    ensures permutations { digests.new.permutations ≡ digests.old.permutations }
{
    match tree {
        Tree::Opaque(digest) => Ok(Node::Opaque(*digest)),
        Tree::Span(batches) => {
            let digest = digests.of_span(alloc, batches)?;
            Ok(Node::Span(digest, read_batches(alloc, batches)?))
        }
        Tree::Join(first, second) => {
            let first = node_of(alloc, digests, first)?;
            let second = node_of(alloc, digests, second)?;
            let digest = digests.of_two(alloc, Op::Join, first.digest(), second.digest())?;
            Ok(Node::Join(digest, Box::new(alloc, first)?, Box::new(alloc, second)?))
        }
        Tree::Split(on_one, on_zero) => {
            let on_one = node_of(alloc, digests, on_one)?;
            let on_zero = node_of(alloc, digests, on_zero)?;
            let digest = digests.of_two(alloc, Op::Split, on_one.digest(), on_zero.digest())?;
            Ok(Node::Split(digest, Box::new(alloc, on_one)?, Box::new(alloc, on_zero)?))
        }
        Tree::Loop(body) => {
            let body = node_of(alloc, digests, body)?;
            let digest = digests.of_two(alloc, Op::Loop, body.digest(), Word::ZERO)?;
            Ok(Node::Loop(digest, Box::new(alloc, body)?))
        }
        Tree::Call(callee) => {
            let callee = node_of(alloc, digests, callee)?;
            let digest = digests.of_two(alloc, Op::Call, callee.digest(), Word::ZERO)?;
            Ok(Node::Call(digest, Box::new(alloc, callee)?))
        }
        Tree::Syscall(callee) => {
            let callee = node_of(alloc, digests, callee)?;
            let digest = digests.of_two(alloc, Op::Syscall, callee.digest(), Word::ZERO)?;
            Ok(Node::Syscall(digest, Box::new(alloc, callee)?))
        }
        Tree::Dyn(targets) => {
            let digest = digests.of_dynamic(alloc)?;
            let targets = nodes_of(alloc, digests, targets.as_slice())?;
            let places = Places::of(alloc, targets.as_slice())?;
            Ok(dynamic(digest, places, targets))
        }
    }
}

// The dynamic block of this digest with these targets.
fn dynamic(digest: Word, places: Places, targets: Vec<Node>) -> Node
    ensures tree { node_tree result ≡ blocks.Dyn (targets_of targets.items) }
    ensures digest { digest_in result ≡ digest }
    ensures hashed { (constants : List ℕ) → digest ≡ digest_of_input constants input_of_dyn → AreFirst places (map digest_in targets.items)
        → All (IsHashed constants) targets.items
        → IsHashed constants result }
{
    Node::Dyn(digest, places, targets)
}

// Trees with their digests.
#[cycle(nodes)]
fn nodes_of(alloc: Global, digests: &mut Digests, trees: &[Tree]) -> Result<Vec<Node>, Memory>
    ensures hashed { IfOk result (λ nodes. All (IsHashed digests.old.permutations) nodes.items) }
    ensures tree { IfOk result (λ nodes. targets_of nodes.items ≡ view.targets_of trees.now) }
    ensures permutations { digests.new.permutations ≡ digests.old.permutations }
{
    let mut nodes = Vec::new(alloc);
    for tree in trees {
        nodes.push(node_of(alloc, digests, tree)?)?;
    }
    Ok(nodes)
}
