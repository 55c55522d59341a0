ghost use Rattle.std.specs.Prelude.{◌≡◌, List, [], ◌∷◌, ◌++◌, ◌≤◌, map, IfOk, OnOk};
ghost use Rattle.std.specs.Vec.Iter.{into_iter_items, into_iter_len};
ghost use Rattle.block_tree.specs.Trees as trees;
ghost use Rattle.block_tree.specs.TreeView.{tree_of};
ghost use Rattle.masm_flat.specs.Blocks as lists;
ghost use Rattle.masm_flat.specs.Blocks.{span_before, blocks_behind, paired, all_joined, whole, as_tree};
ghost use Rattle.masm_flat.specs.Views.{piece_of, pieces_of};

use crate::piece::Piece;
use block_tree::Tree;
use op_pack::pack;
use std::alloc::Global;
use std::mem;
use std::vec::IntoIter;
use vm_field::Memory;
use vm_ops::{Item, Items, Op};

// A span of these operations, where there are any.
#[tactic(auto, using(crate::proofs::Levels::spans))]
fn add_span(alloc: Global, blocks: &mut Vec<Tree>, run: &Items) -> Result<(), Memory>
    ensures { OnOk result (map tree_of blocks.new.items ≡ map tree_of blocks.old.items ++ span_before as_tree.span as_tree.join run.now []) }
{
    if !run.is_empty() {
        blocks.push(Tree::Span(pack(alloc, run.as_slice())?))?;
    }
    Ok(())
}

// The next piece, behind blocks and the operations that stand behind them.
#[tactic(auto, using(crate::proofs::Levels::spans))]
fn add_piece(
    alloc: Global,
    blocks: &mut Vec<Tree>,
    run: &mut Items,
    piece: Piece,
) -> Result<(), Memory>
    ensures { OnOk result ((rest : List (lists.Piece trees.Tree)) →
        map tree_of blocks.new.items ++ blocks_behind as_tree.span as_tree.join run.new rest
        ≡ map tree_of blocks.old.items ++ blocks_behind as_tree.span as_tree.join run.old (piece_of piece ∷ rest)) }
{
    match piece {
        Piece::Plain(op) => run.push(Item::plain(op)),
        Piece::Valued(op, imm) => run.push(Item { op, imm: Some(imm) }),
        Piece::Whole(tree) => {
            let before = mem::replace(run, Items::new(alloc));
            add_span(alloc, blocks, &before)?;
            blocks.push(Box::into_inner(tree))?;
            Ok(())
        }
    }
}

// The blocks of a list, in which neighbouring operations form one span.
fn blocks_of(alloc: Global, pieces: Vec<Piece>) -> Result<Vec<Tree>, Memory>
    ensures { IfOk result (λ blocks. map tree_of blocks.items ≡ blocks_behind as_tree.span as_tree.join [] (pieces_of pieces.items)) }
{
    let mut blocks = Vec::new(alloc);
    let mut run = Items::new(alloc);
    for piece in pieces {
        add_piece(alloc, &mut blocks, &mut run, piece)?;
    }
    add_span(alloc, &mut blocks, &run)?;
    Ok(blocks)
}

fn join(alloc: Global, first: Tree, second: Tree) -> Result<Tree, Memory>
    ensures { IfOk result (λ tree. tree_of tree ≡ trees.Join (tree_of first) (tree_of second)) }
{
    Ok(Tree::Join(Box::new(alloc, first)?, Box::new(alloc, second)?))
}

// A block with the one behind it, where there is one.
fn with_next(alloc: Global, first: Tree, behind: &mut IntoIter<Tree>) -> Result<Tree, Memory>
    ensures ok { IfOk result (λ tree. tree_of tree ∷ paired as_tree.span as_tree.join (map tree_of (into_iter_items behind.new))
        ≡ paired as_tree.span as_tree.join (tree_of first ∷ map tree_of (into_iter_items behind.old))) }
    ensures len { into_iter_len behind.new ≤ into_iter_len behind.old }
{
    match behind.next() {
        Some(second) => join(alloc, first, second),
        None => Ok(first),
    }
}

// The next level: each block is joined with the one behind it.
fn pairs(alloc: Global, level: Vec<Tree>) -> Result<Vec<Tree>, Memory>
    ensures { IfOk result (λ next. map tree_of next.items ≡ paired as_tree.span as_tree.join (map tree_of level.items)) }
{
    let mut next = Vec::new(alloc);
    let mut behind = level.into_iter();
    while let Some(first) = behind.next() {
        next.push(with_next(alloc, first, &mut behind)?)?;
    }
    Ok(next)
}

// The one block that is left when no two can be joined.
#[tactic(auto, using(crate::proofs::Levels::levels))]
fn join_levels(alloc: Global, mut level: Vec<Tree>) -> Result<Tree, Memory>
    ensures { IfOk result (λ tree. tree_of tree ≡ all_joined as_tree.span as_tree.join (map tree_of level.items)) }
{
    while level.len() > 1 {
        level = pairs(alloc, level)?;
    }
    match level.pop() {
        Some(tree) => Ok(tree),
        None => Ok(Tree::Span(pack(alloc, &[Item::plain(Op::Noop)])?)),
    }
}

/// The tree of a list of operations and blocks (docs/ASSEMBLY.md, "Blocks").
#[tactic(auto, unfolding(crate::specs::Blocks::whole_of))]
pub fn tree_of_list(alloc: Global, pieces: Vec<Piece>) -> Result<Tree, Memory>
    ensures { IfOk result (λ tree. tree_of tree ≡ whole as_tree (pieces_of pieces.items)) }
{
    let blocks = blocks_of(alloc, pieces)?;
    join_levels(alloc, blocks)
}
