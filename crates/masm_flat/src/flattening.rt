ghost use Rattle.std.specs.Prelude.{◌≡◌, ◌∷◌, [], ◌++◌, map, IfOk, OnOk};
ghost use Rattle.block_tree.specs.Trees as trees;
ghost use Rattle.block_tree.specs.TreeView.{tree_of};
ghost use Rattle.masm_tree.specs.Trees.{Empty};
ghost use Rattle.masm_tree.specs.declared.tree.Position.{Position};
ghost use Rattle.masm_tree.specs.Views.{stmt_view, body_of};
ghost use Rattle.masm_names.specs.Uses.{Own, use_at, uses_of};
ghost use Rattle.masm_flat.specs.Blocks as lists;
ghost use Rattle.masm_flat.specs.Blocks.{as_tree, whole};
ghost use Rattle.masm_flat.specs.Lists.{digest_items};
ghost use Rattle.masm_names.specs.Names.{place_at};
ghost use Rattle.masm_flat.specs.Flattening.{flat_with};
ghost use Rattle.masm_tree.specs.Locals.{HasLocals};
ghost use Rattle.masm_flat.specs.KnownLists.{tree_at, digest_at};
ghost use Rattle.masm_flat.specs.Taking.{ComesTo};
ghost use Rattle.masm_flat.specs.Views.{pieces_of};

use crate::appending::{add_digest, add_instr, add_times, add_tree};
use crate::joining::tree_of_list;
use crate::known::Scope;
use crate::piece::Piece;
use crate::table::Table;
use block_tree::Tree;
use masm_tree::Stmt;
use std::alloc::Global;
use vm_field::{Bytes, Memory};

// Adds the list of the procedure of that name; there is none where the name leads nowhere.
fn add_used(
    alloc: Global,
    scope: &Scope,
    table: &mut Table,
    name: &Bytes,
    out: &mut Vec<Piece>,
) -> Result<(), Memory>
    ensures { OnOk result ((at : Position) → ComesTo scope.now (use_at at Own name.now ∷ [])
        (λ known. pieces_of out.old.items ++ known.list name.now) table.old table.new (pieces_of out.new.items)) }
{
    match scope.names.place(name.as_slice()) {
        Some(place) => table.add_list(alloc, place, out),
        None => Ok(()),
    }
}

// A call of the procedure of that name.
fn called(alloc: Global, scope: &Scope, table: &mut Table, name: &Bytes) -> Result<Tree, Memory>
    ensures { IfOk result (λ tree. (at : Position) → ComesTo scope.now (use_at at Own name.now ∷ [])
        (λ known. trees.Call (whole as_tree (known.list name.now))) table.old table.new (tree_of tree)) }
{
    let mut list = Vec::new(alloc);
    add_used(alloc, scope, table, name, &mut list)?;
    Ok(Tree::Call(Box::new(alloc, tree_of_list(alloc, list)?)?))
}

// A call of the kernel's procedure of that name.
fn kernel_called(alloc: Global, scope: &Scope, name: &Bytes) -> Result<Tree, Memory>
    ensures { IfOk result (λ tree. tree_of tree ≡ trees.Syscall (tree_at scope.now.outside.now.exports.now name.now)) }
{
    Ok(Tree::Syscall(Box::new(alloc, scope.exported(alloc, name)?)?))
}

// Adds what puts the digest of the procedure of that name on the stack.
fn add_reference(scope: &Scope, name: &Bytes, out: &mut Vec<Piece>) -> Result<(), Memory>
    ensures { OnOk result (pieces_of out.new.items ≡ pieces_of out.old.items ++ map lists.Operation (digest_items
        (digest_at scope.now.digests.now (place_at scope.now.names.now name.now)))) }
{
    add_digest(&scope.digest(name).elements(), out)
}

// A block that takes the list of either of two bodies.
fn split(alloc: Global, on_one: Vec<Piece>, on_zero: Vec<Piece>) -> Result<Tree, Memory>
    ensures { IfOk result (λ tree. tree_of tree ≡ trees.Split (whole as_tree (pieces_of on_one.items)) (whole as_tree (pieces_of on_zero.items))) }
{
    let on_one = tree_of_list(alloc, on_one)?;
    let on_zero = tree_of_list(alloc, on_zero)?;
    Ok(Tree::Split(Box::new(alloc, on_one)?, Box::new(alloc, on_zero)?))
}

// A block that runs a list again and again.
fn repeating(alloc: Global, turn: Vec<Piece>) -> Result<Tree, Memory>
    ensures { IfOk result (λ tree. tree_of tree ≡ trees.Loop (whole as_tree (pieces_of turn.items))) }
{
    Ok(Tree::Loop(Box::new(alloc, tree_of_list(alloc, turn)?)?))
}

/// Adds the list of a body (docs/ASSEMBLY.md, "Blocks"), in a procedure of so many locals, where
/// the lists of the procedures that it uses are given.
#[cycle(flattening)]
pub fn flatten(
    alloc: Global,
    scope: &Scope,
    table: &mut Table,
    locals: u32,
    body: &[Stmt],
    out: &mut Vec<Piece>,
) -> Result<(), Memory>
    requires { HasLocals locals (body_of body.now) }
    ensures { OnOk result (ComesTo scope.now (uses_of (body_of body.now))
        (λ known. pieces_of out.old.items ++ flat_with as_tree known locals (body_of body.now)) table.old table.new (pieces_of out.new.items)) }
{
    for stmt in body {
        add_statement(alloc, scope, table, locals, stmt, out)?;
    }
    Ok(())
}

// The list of one statement.
#[cycle(flattening)]
fn add_statement(
    alloc: Global,
    scope: &Scope,
    table: &mut Table,
    locals: u32,
    stmt: &Stmt,
    out: &mut Vec<Piece>,
) -> Result<(), Memory>
    requires { HasLocals locals (stmt_view stmt.now Empty) }
    ensures { OnOk result (ComesTo scope.now (uses_of (stmt_view stmt.now Empty))
        (λ known. pieces_of out.old.items ++ flat_with as_tree known locals (stmt_view stmt.now Empty)) table.old table.new
        (pieces_of out.new.items)) }
{
    match stmt {
        Stmt::Instr(_, instr) => add_instr(alloc, instr, locals, out),
        Stmt::Exec(_, name) => add_used(alloc, scope, table, name, out),
        Stmt::Call(_, name) => add_tree(alloc, called(alloc, scope, table, name)?, out),
        Stmt::Syscall(_, name) => add_tree(alloc, kernel_called(alloc, scope, name)?, out),
        Stmt::ProcRef(_, name) => add_reference(scope, name, out),
        Stmt::DynExec(_) => add_tree(alloc, scope.dispatched(alloc)?, out),
        Stmt::If(_, first, second) => {
            let on_one = list_of(alloc, scope, table, locals, first)?;
            let on_zero = list_of(alloc, scope, table, locals, second)?;
            add_tree(alloc, split(alloc, on_one, on_zero)?, out)
        }
        Stmt::While(_, turn) => {
            let list = list_of(alloc, scope, table, locals, turn)?;
            add_tree(alloc, repeating(alloc, list)?, out)
        }
        Stmt::Repeat(_, count, turn) => {
            let list = list_of(alloc, scope, table, locals, turn)?;
            add_times(alloc, *count, list, out)
        }
    }
}

// The list of a body alone.
#[cycle(flattening)]
fn list_of(
    alloc: Global,
    scope: &Scope,
    table: &mut Table,
    locals: u32,
    body: &[Stmt],
) -> Result<Vec<Piece>, Memory>
    requires { HasLocals locals (body_of body.now) }
    ensures { IfOk result (λ list. ComesTo scope.now (uses_of (body_of body.now))
        (λ known. flat_with as_tree known locals (body_of body.now)) table.old table.new (pieces_of list.items)) }
{
    let mut list = Vec::new(alloc);
    flatten(alloc, scope, table, locals, body, &mut list)?;
    Ok(list)
}
