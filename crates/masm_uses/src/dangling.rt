ghost use Rattle.std.specs.Prelude.{◌≡◌, ℕ, List, IfOk};
ghost use Rattle.masm_tree.specs.Views.{source_of};
ghost use Rattle.masm_names.specs.Least.{FindsLeast};
ghost use Rattle.masm_names.specs.Names.{place_at};
ghost use Rattle.masm_names.specs.Naming.{Dangles};
ghost use Rattle.masm_names.specs.Uses.{first_place};

use crate::dispatch::first_dispatch;
use crate::missing::{first_missing, first_missing_of};
use crate::recursion::first_recursion;
use masm_graph::{all_links, main_links, users_of};
use masm_names::{Names, Refusal, earlier};
use masm_tree::Ast;
use std::alloc::Global;
use vm_field::{Bytes, Memory};

/// The first use that leads nowhere or back, or dynexec that is reached from one of its targets,
/// where the kernel exports these names.
pub fn first_dangling(
    alloc: Global,
    ast: &Ast,
    names: &Names,
    kernel: &[Bytes],
) -> Result<Option<Refusal>, Memory>
    requires names { (name : List ℕ) → place_at names.now name ≡ first_place (source_of ast.now).procs name }
    ensures { IfOk result (λ first. FindsLeast (Dangles (source_of ast.now) kernel.now) first) }
{
    let exports = Names::of(alloc, kernel)?;
    let rows = all_links(alloc, names, &exports, &ast.procs)?;
    let main = main_links(alloc, names, &exports, &ast.main)?;
    let users = users_of(alloc, &rows)?;
    let missing = earlier(first_missing_of(&rows), first_missing(&main));
    let dangling = earlier(missing, first_recursion(alloc, &users, &rows)?);
    let dispatch = first_dispatch(alloc, &ast.procs, &rows, &main)?;
    Ok(earlier(dangling, dispatch))
}
