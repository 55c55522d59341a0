ghost use Rattle.std.specs.Prelude.{◌≡◌, [], ◌∷◌, ◌++◌, map, IfOk, OnOk};
ghost use Rattle.block_tree.specs.TreeView.{tree_of};
ghost use Rattle.masm_instr.specs.Instructions.{HasLocal};
ghost use Rattle.masm_expand.specs.Expansion.{expansion};
ghost use Rattle.masm_flat.specs.Blocks as lists;
ghost use Rattle.masm_flat.specs.Lists.{digest_items, times};
ghost use Rattle.masm_flat.specs.Views.{piece_of, pieces_of};

use crate::piece::Piece;
use block_tree::{Tree, copy};
use masm_expand::expand;
use masm_instr::Instr;
use std::alloc::Global;
use vm_field::{Felt, Memory};
use vm_ops::Item;

// Operations at the end of a list.
pub fn add_items(items: &[Item], out: &mut Vec<Piece>) -> Result<(), Memory>
    ensures { OnOk result (pieces_of out.new.items ≡ pieces_of out.old.items ++ map lists.Operation items.now) }
{
    for item in items {
        out.push(Piece::of_item(item))?;
    }
    Ok(())
}

// Adds what puts a digest on the stack.
pub(crate) fn add_digest(digest: &[Felt], out: &mut Vec<Piece>) -> Result<(), Memory>
    ensures { OnOk result (pieces_of out.new.items ≡ pieces_of out.old.items ++ map lists.Operation (digest_items digest.now)) }
{
    for element in digest {
        out.push(Piece::literal(*element))?;
    }
    Ok(())
}

/// Adds the operations of an instruction, in a procedure of so many locals.
pub fn add_instr(
    alloc: Global,
    instr: &Instr,
    locals: u32,
    out: &mut Vec<Piece>,
) -> Result<(), Memory>
    requires { HasLocal instr.now locals }
    ensures { OnOk result (pieces_of out.new.items
        ≡ pieces_of out.old.items ++ map lists.Operation (expansion instr.now.name instr.now.numbers locals)) }
{
    let items = expand(alloc, instr, locals)?;
    add_items(items.as_slice(), out)
}

/// Adds a block.
pub fn add_tree(alloc: Global, tree: Tree, out: &mut Vec<Piece>) -> Result<(), Memory>
    ensures { OnOk result (pieces_of out.new.items ≡ pieces_of out.old.items ++ lists.Whole (tree_of tree) ∷ []) }
{
    out.push(Piece::Whole(Box::new(alloc, tree)?))?;
    Ok(())
}

fn copied(alloc: Global, piece: &Piece) -> Result<Piece, Memory>
    ensures { IfOk result (λ copy. piece_of copy ≡ piece_of piece.now) }
{
    match piece {
        Piece::Plain(op) => Ok(Piece::Plain(*op)),
        Piece::Valued(op, imm) => Ok(Piece::Valued(*op, *imm)),
        Piece::Whole(tree) => Ok(Piece::Whole(Box::new(alloc, copy(alloc, tree)?)?)),
    }
}

/// Adds copies of the pieces of a list.
pub fn add_copies(alloc: Global, list: &[Piece], out: &mut Vec<Piece>) -> Result<(), Memory>
    ensures { OnOk result (pieces_of out.new.items ≡ pieces_of out.old.items ++ pieces_of list.now) }
{
    for piece in list {
        out.push(copied(alloc, piece)?)?;
    }
    Ok(())
}

/// Adds the pieces of a list itself. Where none stand before them nothing is moved.
pub fn add_moved(list: Vec<Piece>, out: &mut Vec<Piece>) -> Result<(), Memory>
    ensures { OnOk result (pieces_of out.new.items ≡ pieces_of out.old.items ++ pieces_of list.items) }
{
    let mut list = list;
    if out.is_empty() {
        *out = list;
        return Ok(());
    }
    out.append(&mut list)?;
    Ok(())
}

// Adds copies of the pieces of a list, so many times.
#[tactic(auto, using(crate::proofs::Times::times_more))]
fn add_turns(alloc: Global, count: u32, list: &[Piece], out: &mut Vec<Piece>) -> Result<(), Memory>
    ensures { OnOk result (pieces_of out.new.items ≡ pieces_of out.old.items ++ times count (pieces_of list.now)) }
{
    for _turn in 0..count {
        add_copies(alloc, list, out)?;
    }
    Ok(())
}

/// Adds the pieces of a list, so many times: copies, and then the list itself.
pub fn add_times(
    alloc: Global,
    count: u32,
    list: Vec<Piece>,
    out: &mut Vec<Piece>,
) -> Result<(), Memory>
    ensures { OnOk result (pieces_of out.new.items ≡ pieces_of out.old.items ++ times count (pieces_of list.items)) }
{
    if list.is_empty() || count == 0 {
        return Ok(());
    }
    add_turns(alloc, count - 1, &list, out)?;
    add_moved(list, out)
}
