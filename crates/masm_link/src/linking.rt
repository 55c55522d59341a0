ghost use Rattle.std.specs.Prelude.{◌≡◌, ℕ, List, Some, is_some, IfOk};
ghost use Rattle.masm_flat.specs.Lists as lists;
ghost use Rattle.masm_link.specs.declared.linking.Stop.TheVariants as stops;
ghost use Rattle.masm_tables.specs.Kernels.{IsOutside, names_in};
ghost use Rattle.masm_link.specs.Measures.{IsMeasured, IsNeverRefused, Measures, IsLinked, LinksTo};
ghost use Rattle.masm_link.specs.Refusals.{Oversized};
ghost use Rattle.masm_tree.specs.Locals.{SourceFits};
ghost use Rattle.masm_tree.specs.Views.{source_of};
ghost use Rattle.masm_names.specs.Earlier.{earlier};
ghost use Rattle.masm_names.specs.Least.{FindsLeast};
ghost use Rattle.masm_names.specs.Names.{place_at};
ghost use Rattle.masm_names.specs.Naming.{IsClosed};
ghost use Rattle.masm_names.specs.Uses.{first_place};

use block_tree::Tree;
use masm_flat::{KernelProc, Outside};
use masm_names::{Names, Refusal, earlier, first_double, procedure_names};
use masm_size::Size;
use masm_tables::{
    export_names, exports_of, first_too_large, lists_of, main_too_large, main_tree, sizes_of,
};
use masm_tree::Ast;
use masm_uses::{Plan, Step, first_dangling, use_plan};
use std::alloc::{AllocError, Global};
use thiserror::Error;
use tree_hash::Digests;
use vm_field::{Bytes, Memory};

// Why a source is not linked.
#[derive(Clone, Copy, Debug, PartialEq, Eq, Error)]
pub(crate) enum Stop {
    #[error("{}", .0.cause)]
    Refused(Refusal),
    #[error("out of memory")]
    Memory,
}

impl From<AllocError> for Stop {
    ghost from_gives = { λ _ e. e ≡ stops.Memory };

    fn from(_error: AllocError) -> Stop {
        Stop::Memory
    }
}

impl From<Memory> for Stop {
    ghost from_gives = { λ _ e. e ≡ stops.Memory };

    fn from(_error: Memory) -> Stop {
        Stop::Memory
    }
}

// What is known of a source's procedures before any tree is built.
#[derive(Drop)]
pub(crate) struct Measured {
    // The places of their names.
    pub names: Names,
    // Their places, each behind those of the procedures that it uses.
    pub order: Vec<usize>,
    // The steps that build the lists that are needed.
    pub steps: Vec<Step>,
    // The places of the procedures that are used between `begin` and `end`, one for each use.
    pub uses: Vec<usize>,
    // The places of the procedures that procrefs name, which are the targets of each dynexec.
    pub targets: Vec<usize>,
    // The sizes of their lists, by their places.
    pub sizes: Vec<Size>,
}

// What a source links to.
#[derive(Drop)]
pub(crate) struct Linked {
    // What it exports, in order.
    pub exports: Vec<KernelProc>,
    // The tree of the body between `begin` and `end`.
    pub main: Option<Tree>,
}

// The sizes of the lists, where no use leads nowhere or back.
fn sized(
    alloc: Global,
    ast: &Ast,
    outside: &Outside<'_>,
    names: Names,
    exported: &[Bytes],
) -> Result<Measured, Memory>
    requires names { (name : List ℕ) → place_at names name ≡ first_place (source_of ast.now).procs name }
    requires fits { SourceFits (source_of ast.now) }
    requires exported { exported.now ≡ names_in outside.now.exports.now }
    requires closed { IsClosed (source_of ast.now) (names_in outside.now.exports.now) }
    ensures { IfOk result (IsMeasured (source_of ast.now) outside.now.exports.now) }
{
    let Plan {
        order,
        steps,
        main,
        targets,
    } = use_plan(alloc, ast, &names, exported)?;
    let sizes = sizes_of(alloc, ast, &names, outside, &order, &targets)?;
    Ok(Measured {
        names,
        order,
        steps,
        uses: main,
        targets,
        sizes,
    })
}

// The first procedure whose tree is too large.
fn first_oversized(
    alloc: Global,
    ast: &Ast,
    outside: &Outside<'_>,
    measured: &Measured,
) -> Result<Option<Refusal>, Memory>
    requires fits { SourceFits (source_of ast.now) }
    requires measured { IsMeasured (source_of ast.now) outside.now.exports.now measured.now }
    ensures { IfOk result (λ first. (out : lists.Outside) → IsOutside outside.now.exports.now out
        → FindsLeast (Oversized (source_of ast.now) out) first) }
{
    let procs = first_too_large(&ast.procs, &measured.sizes);
    let main = main_too_large(
        alloc,
        &measured.names,
        outside,
        &ast.main,
        &measured.sizes,
        &measured.targets,
    )?;
    Ok(earlier(procs, main))
}

fn first_of(a: Option<Refusal>, b: Refusal) -> Refusal
    ensures { Some result ≡ earlier a (Some b) }
{
    match earlier(a, Some(b)) {
        Some(first) => first,
        None => b,
    }
}

// The sizes of a source's lists, or its first refusal. Sizes are tested only where no use leads
// nowhere or back.
fn measure(alloc: Global, ast: &Ast, outside: &Outside<'_>) -> Result<Measured, Stop>
    requires { SourceFits (source_of ast.now) }
    ensures { Measures (source_of ast.now) outside.now.exports.now result }
{
    let names = procedure_names(alloc, ast)?;
    let exported = export_names(alloc, outside.exports)?;
    let double = first_double(alloc, ast)?;
    if let Some(refusal) = first_dangling(alloc, ast, &names, &exported)? {
        return Err(Stop::Refused(first_of(double, refusal)));
    }
    let measured = sized(alloc, ast, outside, names, &exported)?;
    let oversized = first_oversized(alloc, ast, outside, &measured)?;
    match earlier(double, oversized) {
        Some(refusal) => Err(Stop::Refused(refusal)),
        None => Ok(measured),
    }
}

// The trees of a source that is not refused.
fn built(
    alloc: Global,
    ast: &Ast,
    outside: &Outside<'_>,
    measured: &Measured,
    digests: &mut Digests,
) -> Result<Linked, Memory>
    requires fits { SourceFits (source_of ast.now) }
    requires measured { IsMeasured (source_of ast.now) outside.now.exports.now measured.now }
    requires clean { IsNeverRefused (source_of ast.now) outside.now.exports.now }
    ensures linked { IfOk result (λ linked. (out : lists.Outside) → out.constants ≡ digests.old.permutations → IsOutside outside.now.exports.now out
        → IsLinked (source_of ast.now) out linked) }
    ensures main { IfOk result (λ linked. is_some linked.main ≡ is_some ast.now.main) }
    ensures permutations { digests.new.permutations ≡ digests.old.permutations }
{
    let names = &measured.names;
    let targets = measured.targets.as_slice();
    let built = lists_of(
        alloc,
        ast,
        names,
        outside,
        &measured.steps,
        targets,
        digests,
    )?;
    let exports = exports_of(alloc, &ast.procs, &measured.sizes, &built.table.lists)?;
    let uses = measured.uses.as_slice();
    let main = main_tree(alloc, names, outside, &ast.main, uses, targets, built)?;
    Ok(Linked { exports, main })
}

// What a source links to with a kernel's exports, or its first refusal. The digests that procrefs ask
// for are computed with these.
pub(crate) fn link(
    alloc: Global,
    ast: &Ast,
    kernel: &[KernelProc],
    digests: &mut Digests,
) -> Result<Linked, Stop>
    requires { SourceFits (source_of ast.now) }
    ensures linked { LinksTo digests.old.permutations (source_of ast.now) kernel.now result }
    ensures main { IfOk result (λ linked. is_some linked.main ≡ is_some ast.now.main) }
    ensures permutations { digests.new.permutations ≡ digests.old.permutations }
{
    let outside = Outside::of(alloc, kernel)?;
    let measured = measure(alloc, ast, &outside)?;
    let linked = built(alloc, ast, &outside, &measured, digests)?;
    Ok(linked)
}
