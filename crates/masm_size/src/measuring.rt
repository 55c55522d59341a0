ghost use Rattle.std.specs.Prelude.{◌≡◌, IfOk};
ghost use Rattle.masm_tree.specs.Trees.{Empty};
ghost use Rattle.masm_tree.specs.Views.{stmt_view, body_of};
ghost use Rattle.masm_tree.specs.Locals.{HasLocals};
ghost use Rattle.masm_size.specs.KnownSizes.{known_sizes_of};
ghost use Rattle.masm_size.specs.Sizes.{size_view, nothing, extent_of, size_onto, procedure_size};

use crate::known_sizes::Sizes;
use crate::shape::Size;
use crate::size::{both, extent_of, over, over_two, times, with_block, with_instr, with_run};
use masm_flat::Extent;
use masm_tree::{Proc, Stmt};
use std::alloc::Global;
use vm_field::Memory;

// A procref is one operation for each element of a digest.
const DIGEST_OPERATIONS: usize = 4;

/// The size of what stands before a body, and then the body, in a procedure of so many locals,
/// where the sizes of the procedures that it uses are given.
#[cycle(measuring)]
pub fn size_onto(
    alloc: Global,
    sizes: &Sizes,
    locals: u32,
    body: &[Stmt],
    before: Size,
) -> Result<Size, Memory>
    requires { HasLocals locals (body_of body.now) }
    ensures { IfOk result (λ size. size_view size ≡ size_onto (known_sizes_of sizes.now) locals (body_of body.now) (size_view before)) }
{
    let mut size = before;
    for stmt in body {
        size = with_statement(alloc, sizes, locals, stmt, size)?;
    }
    Ok(size)
}

// A size with a statement behind it.
#[cycle(measuring)]
#[tactic(auto, using(crate::proofs::Sizing::sized))]
fn with_statement(
    alloc: Global,
    sizes: &Sizes,
    locals: u32,
    stmt: &Stmt,
    before: Size,
) -> Result<Size, Memory>
    requires { HasLocals locals (stmt_view stmt.now Empty) }
    ensures { IfOk result (λ size. size_view size ≡ size_onto (known_sizes_of sizes.now) locals (stmt_view stmt.now Empty) (size_view before)) }
{
    match stmt {
        Stmt::Instr(_, instr) => with_instr(alloc, instr, locals, before),
        Stmt::Exec(_, name) => both(before, sizes.size(name)),
        Stmt::Call(_, name) => with_block(before, over(extent_of(sizes.size(name)))),
        Stmt::Syscall(_, name) => with_block(before, over(sizes.exported(name))),
        Stmt::ProcRef(_, _) => with_run(DIGEST_OPERATIONS, before),
        Stmt::DynExec(_) => with_block(before, sizes.dispatch),
        Stmt::If(_, first, second) => {
            let on_one = extent(alloc, sizes, locals, first)?;
            let on_zero = extent(alloc, sizes, locals, second)?;
            with_block(before, over_two(on_one, on_zero))
        }
        Stmt::While(_, turn) => with_block(before, over(extent(alloc, sizes, locals, turn)?)),
        Stmt::Repeat(_, count, turn) => {
            let turn = size_onto(alloc, sizes, locals, turn, Size::nothing(alloc))?;
            both(before, times(*count, turn).part())
        }
    }
}

// The extent of the block of a body.
#[cycle(measuring)]
fn extent(alloc: Global, sizes: &Sizes, locals: u32, body: &[Stmt]) -> Result<Extent, Memory>
    requires { HasLocals locals (body_of body.now) }
    ensures { IfOk result (λ extent. extent ≡ extent_of (size_onto (known_sizes_of sizes.now) locals (body_of body.now) nothing)) }
{
    let size = size_onto(alloc, sizes, locals, body, Size::nothing(alloc))?;
    Ok(extent_of(size.part()))
}

/// The size of a procedure's list, where the sizes of the procedures that it uses are given.
#[tactic(auto, using(crate::proofs::Sizing::procedures))]
pub fn size_of_procedure(alloc: Global, sizes: &Sizes, proc: &Proc) -> Result<Size, Memory>
    requires { HasLocals proc.now.locals (body_of proc.now.body.items) }
    ensures { IfOk result (λ size. size_view size ≡ procedure_size (known_sizes_of sizes.now) proc.now.locals (body_of proc.now.body.items)) }
{
    let before = Size::nothing(alloc);
    if proc.locals == 0 {
        return size_onto(alloc, sizes, 0, &proc.body, before);
    }
    let before = with_run(2, before)?;
    let size = size_onto(alloc, sizes, proc.locals, &proc.body, before)?;
    with_run(2, size)
}
