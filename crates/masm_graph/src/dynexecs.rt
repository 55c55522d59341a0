ghost use Rattle.std.specs.Prelude.{◌≡◌, ◌++◌, map, IfOk, OnOk};
ghost use Rattle.std.specs.List.{list_any};
ghost use Rattle.graphs.specs.Graph.{rows_of};
ghost use Rattle.masm_graph.specs.Dynexecs.{dynexecs_in, main_dynexecs_in, has_one, has_dynexec};
ghost use Rattle.masm_names.specs.Uses.{dynexecs_of};
ghost use Rattle.masm_tree.specs.Trees.{Empty};
ghost use Rattle.masm_tree.specs.Views.{stmt_view, body_of};

use masm_tree::{Position, Proc, Stmt};
use std::alloc::{AllocError, Global};

#[cycle(finding)]
#[tactic(auto, using(crate::proofs::DynexecLemmas::views))]
fn add_statement(out: &mut Vec<Position>, stmt: &Stmt) -> Result<(), AllocError>
    ensures { OnOk result (out.new.items ≡ out.old.items ++ dynexecs_of (stmt_view stmt.now Empty)) }
{
    match stmt {
        Stmt::Instr(_, _) => Ok(()),
        Stmt::If(_, first, second) => {
            add_body(out, first)?;
            add_body(out, second)?;
            Ok(())
        }
        Stmt::While(_, turn) => add_body(out, turn),
        Stmt::Repeat(_, _, turn) => add_body(out, turn),
        Stmt::Exec(_, _) => Ok(()),
        Stmt::Call(_, _) => Ok(()),
        Stmt::Syscall(_, _) => Ok(()),
        Stmt::ProcRef(_, _) => Ok(()),
        Stmt::DynExec(at) => {
            out.push(*at)?;
            Ok(())
        }
    }
}

#[cycle(finding)]
fn add_body(out: &mut Vec<Position>, body: &[Stmt]) -> Result<(), AllocError>
    ensures { OnOk result (out.new.items ≡ out.old.items ++ dynexecs_of (body_of body.now)) }
{
    for stmt in body {
        add_statement(out, stmt)?;
    }
    Ok(())
}

// The places of the dynexecs in a body, in order.
fn dynexecs_of(alloc: Global, body: &[Stmt]) -> Result<Vec<Position>, AllocError>
    ensures { IfOk result (λ places. places.items ≡ dynexecs_of (body_of body.now)) }
{
    let mut places = Vec::new(alloc);
    add_body(&mut places, body)?;
    Ok(places)
}

/// The places of the dynexecs in the body of each procedure.
pub fn all_dynexecs(alloc: Global, procs: &[Proc]) -> Result<Vec<Vec<Position>>, AllocError>
    ensures { IfOk result (λ rows. rows_of rows.items ≡ map dynexecs_in procs.now) }
{
    let mut rows = Vec::new(alloc);
    for procedure in procs {
        rows.push(dynexecs_of(alloc, &procedure.body)?)?;
    }
    Ok(rows)
}

// The places of the dynexecs between `begin` and `end`.
fn main_dynexecs(alloc: Global, main: &Option<Proc>) -> Result<Vec<Position>, AllocError>
    ensures { IfOk result (λ places. places.items ≡ main_dynexecs_in main.now) }
{
    match main {
        Some(procedure) => dynexecs_of(alloc, &procedure.body),
        None => Ok(Vec::new(alloc)),
    }
}

fn has_one(row: &[Position]) -> bool
    ensures { result ≡ has_one row.now }
{
    match row {
        [] => false,
        [_, ..] => true,
    }
}

fn some_has_one(rows: &[Vec<Position>]) -> bool
    ensures { result ≡ list_any has_one (rows_of rows.now) }
{
    for row in rows {
        if has_one(row) {
            return true;
        }
    }
    false
}

/// Whether one of these procedures has a dynexec, or the body between `begin` and `end`.
pub fn is_dynamic(alloc: Global, procs: &[Proc], main: &Option<Proc>) -> Result<bool, AllocError>
    ensures { IfOk result (λ dynamic. dynamic ≡ has_dynexec procs.now main.now) }
{
    let rows = all_dynexecs(alloc, procs)?;
    let last = main_dynexecs(alloc, main)?;
    Ok(some_has_one(&rows) || has_one(&last))
}
