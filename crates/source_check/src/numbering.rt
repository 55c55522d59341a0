ghost use Rattle.std.specs.Prelude.{◌≡◌, ◌≢◌, ◌+◌, ◌^◌, ◌<◌, ◌∷◌, ◌++◌, [], All, IfOk, OnOk, Some, length, map};
ghost use Rattle.rpo_hash.specs.Constants.{constants_of};
ghost use Rattle.vm_field.specs.Machine.{zero_word};
ghost use Rattle.block_tree.specs.Trees.{AreWhole, IsWhole, tree_digest};
ghost use Rattle.source_check.specs.Numbering.{blocks_in, numbered, numbered_in};
ghost use Rattle.source_check.specs.SourceNodes.{first_or_zeros, inputs_in, inputs_of, shown_block};
ghost use Rattle.tree_hash.specs.Nodes.{AreFirst, IsHashed, digest_in, elements_of, node_tree, targets_of};
ghost use Rattle.tree_hash.specs.Places.{place_at};
ghost use Rattle.tree_merge.specs.AddrView.{entries_of, placed_of};

use op_pack::Batches;
use rpo_hash::Params;
use std::alloc::Global;
use tree_hash::{Node, Places, ReadBatch, pair};
use tree_merge::{AddrTree, AddrTrees, Target, dynamic};
use vm_field::{Felt, Memory, Word};

/// The tree of a source whose blocks have addresses behind these rows and the blocks before it, in
/// preorder. Behind those blocks comes the first one of what each block is hashed by. Of targets of one
/// digest only the first is kept, since no other can be called; all are numbered. Each address has 32 bits.
///
/// # Errors
///
/// `Memory` where the system gave none.
#[cycle(numbering)]
pub(crate) fn numbered_tree(
    alloc: Global,
    params: &Params,
    rows: u32,
    blocks: &mut Vec<[Felt; 8]>,
    node: &Node,
) -> Result<AddrTree, Memory>
    requires hashed { IsHashed (constants_of params.now) node.now }
    requires whole { IsWhole (node_tree node.now) }
    requires room { rows + length blocks.old.items + blocks_in (constants_of params.now) (node_tree node.now) < 2 ^ 32 }
    ensures tree { IfOk result (λ x. placed_of x ≡ numbered (constants_of params.now) (rows + length blocks.old.items + 1) (node_tree node.now)) }
    ensures blocks { OnOk result (blocks.new.items ≡ blocks.old.items ++ map shown_block (inputs_of (constants_of params.now) (node_tree node.now))) }
{
    let at = rows + blocks.len() as u32 + 1;
    match node {
        Node::Opaque(digest) => {
            blocks.push([Felt::ZERO; 8])?;
            Ok(AddrTree::Opaque(*digest))
        }
        Node::Span(_, batches) => {
            blocks.push(first_of(batches.as_slice()))?;
            Ok(AddrTree::Span(at, batches_of(alloc, batches.as_slice())?))
        }
        Node::Join(_, first, second) => {
            let (first, second) = two(alloc, params, rows, blocks, first, second)?;
            Ok(AddrTree::Join(at, first, second))
        }
        Node::Split(_, on_one, on_zero) => {
            let (on_one, on_zero) = two(alloc, params, rows, blocks, on_one, on_zero)?;
            Ok(AddrTree::Split(at, on_one, on_zero))
        }
        Node::Loop(_, body) => Ok(AddrTree::Loop(at, one(alloc, params, rows, blocks, body)?)),
        Node::Call(_, callee) => Ok(AddrTree::Call(at, one(alloc, params, rows, blocks, callee)?)),
        Node::Syscall(_, callee) => {
            Ok(AddrTree::Syscall(at, one(alloc, params, rows, blocks, callee)?))
        }
        Node::Dyn(_, places, targets) => {
            blocks.push([Felt::ZERO; 8])?;
            Ok(dynamic(
                at,
                numbered_targets(alloc, params, rows, blocks, places, targets.as_slice())?,
            ))
        }
    }
}

// Two children, behind their parent, whose block is their digests.
#[cycle(numbering)]
fn two(
    alloc: Global,
    params: &Params,
    rows: u32,
    blocks: &mut Vec<[Felt; 8]>,
    a: &Node,
    b: &Node,
) -> Result<(Box<AddrTree>, Box<AddrTree>), Memory>
    requires first { IsHashed (constants_of params.now) a.now }
    requires second { IsHashed (constants_of params.now) b.now }
    requires whole { IsWhole (node_tree a.now) × IsWhole (node_tree b.now) }
    requires room { rows + length blocks.old.items + 1
        + (blocks_in (constants_of params.now) (node_tree a.now) + blocks_in (constants_of params.now) (node_tree b.now)) < 2 ^ 32 }
    ensures first { IfOk result (λ r. placed_of r.0.value ≡ numbered (constants_of params.now) (rows + length blocks.old.items + 2) (node_tree a.now)) }
    ensures second { IfOk result (λ r. placed_of r.1.value
        ≡ numbered (constants_of params.now) (rows + length blocks.old.items + 2 + blocks_in (constants_of params.now) (node_tree a.now)) (node_tree b.now)) }
    ensures blocks { OnOk result (blocks.new.items ≡ blocks.old.items
        ++ (tree_digest (constants_of params.now) (node_tree a.now) ++ tree_digest (constants_of params.now) (node_tree b.now))
        ∷ map shown_block (inputs_of (constants_of params.now) (node_tree a.now) ++ inputs_of (constants_of params.now) (node_tree b.now))) }
{
    blocks.push(pair(&a.digest(), &b.digest()))?;
    let first = numbered_tree(alloc, params, rows, blocks, a)?;
    let second = numbered_tree(alloc, params, rows, blocks, b)?;
    Ok((Box::new(alloc, first)?, Box::new(alloc, second)?))
}

// An only child, behind its parent, whose block is its digest and four zeros.
#[cycle(numbering)]
fn one(
    alloc: Global,
    params: &Params,
    rows: u32,
    blocks: &mut Vec<[Felt; 8]>,
    a: &Node,
) -> Result<Box<AddrTree>, Memory>
    requires hashed { IsHashed (constants_of params.now) a.now }
    requires whole { IsWhole (node_tree a.now) }
    requires room { rows + length blocks.old.items + 1 + blocks_in (constants_of params.now) (node_tree a.now) < 2 ^ 32 }
    ensures tree { IfOk result (λ r. placed_of r.value ≡ numbered (constants_of params.now) (rows + length blocks.old.items + 2) (node_tree a.now)) }
    ensures blocks { OnOk result (blocks.new.items ≡ blocks.old.items
        ++ (tree_digest (constants_of params.now) (node_tree a.now) ++ zero_word) ∷ map shown_block (inputs_of (constants_of params.now) (node_tree a.now))) }
{
    blocks.push(pair(&a.digest(), &Word::ZERO))?;
    let child = numbered_tree(alloc, params, rows, blocks, a)?;
    Ok(Box::new(alloc, child)?)
}

// The targets of a dynamic block, behind it. One whose digest an earlier one has is numbered and left out.
#[cycle(numbering)]
fn numbered_targets(
    alloc: Global,
    params: &Params,
    rows: u32,
    blocks: &mut Vec<[Felt; 8]>,
    places: &Places,
    nodes: &[Node],
) -> Result<AddrTrees, Memory>
    requires first { AreFirst places.now (map digest_in nodes.now) }
    requires hashed { All (IsHashed (constants_of params.now)) nodes.now }
    requires whole { AreWhole (targets_of nodes.now) }
    requires room { rows + length blocks.old.items + length (inputs_in (constants_of params.now) (targets_of nodes.now)) < 2 ^ 32 }
    ensures targets { IfOk result (λ targets. entries_of targets.items
        ≡ numbered_in (constants_of params.now) (rows + length blocks.old.items + 1) [] (targets_of nodes.now)) }
    ensures blocks { OnOk result (blocks.new.items ≡ blocks.old.items ++ map shown_block (inputs_in (constants_of params.now) (targets_of nodes.now))) }
{
    let mut targets = AddrTrees::new(alloc);
    for (place, node) in nodes.iter().enumerate() {
        let digest = node.digest();
        let tree = numbered_tree(alloc, params, rows, blocks, node)?;
        keep_first(&mut targets, places, place, Target { digest, tree })?;
    }
    Ok(targets)
}

// Puts the target of this place behind the others where its digest is found at this place.
fn keep_first(
    targets: &mut AddrTrees,
    places: &Places,
    place: usize,
    target: Target,
) -> Result<(), Memory>
    ensures kept { place_at places.now target.digest ≡ Some place → OnOk result (targets.new.items ≡ targets.old.items ++ target ∷ []) }
    ensures left_out { place_at places.now target.digest ≢ Some place → OnOk result (targets.new.items ≡ targets.old.items) }
{
    if places.place(&target.digest) != Some(place) {
        return Ok(());
    }
    targets.push(target)?;
    Ok(())
}

// The batches alone, of which a span has at least one.
fn batches_of(alloc: Global, batches: &[ReadBatch]) -> Result<Batches, Memory>
    requires { elements_of batches.now ≢ [] }
    ensures { IfOk result (λ all. all ≡ elements_of batches.now) }
{
    match batches.split_first() {
        Some((first, rest)) => with_batches(Batches::of(alloc, first.elements)?, rest),
        None => unreachable!(),
    }
}

// Batches with these behind them.
fn with_batches(mut all: Batches, rest: &[ReadBatch]) -> Result<Batches, Memory>
    ensures { IfOk result (λ more. more ≡ all ++ elements_of rest.now) }
{
    for batch in rest {
        all.push(batch.elements)?;
    }
    Ok(all)
}

// The first of these batches, or eight zeros.
fn first_of(batches: &[ReadBatch]) -> [Felt; 8]
    ensures { result ≡ first_or_zeros (elements_of batches.now) }
{
    match batches.first() {
        Some(batch) => batch.elements,
        None => [Felt::ZERO; 8],
    }
}
