ghost use Rattle.std.specs.Prelude.{◌≡◌, is_some, slice_get};
ghost use Rattle.masm_names.specs.Uses.{dynexecs_of};
ghost use Rattle.masm_tree.specs.Trees.{Empty};
ghost use Rattle.masm_tree.specs.Views.{stmt_view, body_of};

use masm_tree::Stmt;

/// Whether a body has a dynexec.
#[cycle(dynexecs)]
pub fn has_dynexec(body: &[Stmt]) -> bool
    ensures { result ≡ is_some (slice_get (dynexecs_of (body_of body.now)) 0) }
{
    for stmt in body {
        if is_dynamic(stmt) {
            return true;
        }
    }
    false
}

// Whether a statement is a dynexec or has one inside.
#[cycle(dynexecs)]
#[tactic(auto, using(crate::proofs::Statements::dynamic))]
fn is_dynamic(stmt: &Stmt) -> bool
    ensures { result ≡ is_some (slice_get (dynexecs_of (stmt_view stmt.now Empty)) 0) }
{
    match stmt {
        Stmt::Instr(_, _) => false,
        Stmt::Exec(_, _) => false,
        Stmt::Call(_, _) => false,
        Stmt::Syscall(_, _) => false,
        Stmt::ProcRef(_, _) => false,
        Stmt::DynExec(_) => true,
        Stmt::If(_, first, second) => has_dynexec(first) || has_dynexec(second),
        Stmt::While(_, turn) => has_dynexec(turn),
        Stmt::Repeat(_, _, turn) => has_dynexec(turn),
    }
}
