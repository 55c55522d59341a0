ghost use Rattle.std.specs.Prelude.{◌≡◌, ℕ, ◌<◌, Bool, true, false, List, length, map, reverse, Some, slice_index_or, ◌⊎◌, IfOk};
ghost use Rattle.std.specs.List.{All, Contains};
ghost use Rattle.graphs.specs.Graph.{rows_of, Edge, IsGraph};
ghost use Rattle.graphs.specs.Orders.{IsOrder};
ghost use Rattle.masm_graph.specs.Links.{places_with};
ghost use Rattle.masm_tree.specs.Views.{source_of};
ghost use Rattle.masm_names.specs.Names.{place_at};
ghost use Rattle.masm_names.specs.Naming.{IsClosed};
ghost use Rattle.masm_uses.specs.Plans.{Builds, EndsInFull, EndsInGraph, IsPlan, StandsBefore, ended_lists, held, keeps_list, main_uses, makes_digest, no_ends};
ghost use Rattle.masm_uses.specs.UseOrders.{IsUseOrder};
ghost use Rattle.masm_names.specs.Uses.{first_place, target_names};

use crate::ordering::{held, order_from};
use crate::planning::{Step, needed_at_end, steps_of};
use masm_graph::{
    Link, all_links, graph_with, is_dynamic, main_links, own_graph, places_with, targets,
};
use masm_names::Names;
use masm_tree::{Ast, Proc};
use std::alloc::Global;
use vm_field::{Bytes, Memory};

/// Which lists of a source's procedures are built, and in which order.
#[derive(Drop)]
pub struct Plan {
    /// The places of the procedures, each behind those that the procedure uses, and behind those that a
    /// dynexec of it may run.
    pub order: Vec<usize>,
    /// The steps that build the lists of the procedures that are exported or used between `begin`
    /// and `end`, of the targets where there is a dynexec, and of those that all these reach, and that
    /// make the digests of those that procrefs of these name. The last step stands first.
    pub steps: Vec<Step>,
    /// The places of the procedures whose lists are used between `begin` and `end`, one for each
    /// use.
    pub main: Vec<usize>,
    /// The places of the procedures that procrefs name, in the order of the first procref of each:
    /// the targets of each dynexec.
    pub targets: Vec<usize>,
}

// The plan of an order of procedures, where each procedure has a row of its uses, these are those
// between `begin` and `end`, and a dynexec, if there is one, may run these targets.
fn planned(
    alloc: Global,
    procs: &[Proc],
    rows: &[Vec<Link>],
    main: &[Link],
    order: Vec<usize>,
    dynamic: bool,
    targets: Vec<usize>,
) -> Result<Plan, Memory>
    requires count { length rows.now ≡ length procs.now }
    requires graph { (refers : Bool) → IsGraph (map (places_with refers) (rows_of rows.now)) }
    requires order { (refers : Bool) → IsOrder (map (places_with refers) (rows_of rows.now)) order.items }
    requires main { (refers : Bool) → All (λ place. place < length procs.now) (places_with refers main.now) }
    requires targets { All (λ place. place < length procs.now) targets.items }
    ensures order { IfOk result (λ plan. plan.order ≡ order) }
    ensures targets { IfOk result (λ plan. plan.targets ≡ targets) }
    ensures lists { IfOk result (λ plan. Builds keeps_list ended_lists
        (λ place other. Edge (map (places_with false) (rows_of rows.now)) place other
        ⊎ (Contains (held dynamic targets.items) other × StandsBefore order.items other place))
        (length (map (places_with false) (rows_of rows.now)))
        (λ place. (slice_index_or (map (λ p. p.exported) procs.now) place false ≡ true)
        ⊎ (Contains (places_with false main.now) place ⊎ Contains (held dynamic targets.items) place))
        (λ place. ⊥) (reverse plan.steps.items)) }
    ensures digests { IfOk result (λ plan. Builds makes_digest no_ends (Edge (map (places_with true) (rows_of rows.now)))
        (length (map (places_with true) (rows_of rows.now))) (λ place. Contains (places_with true main.now) place)
        (λ place. ⊥) (reverse plan.steps.items)) }
    ensures ended { IfOk result (λ plan. All (EndsInGraph (map (places_with false) (rows_of rows.now))) plan.steps.items) }
    ensures main { IfOk result (λ plan. plan.main.items ≡ places_with false main.now) }
{
    let used = places_with(alloc, false, main)?;
    let referred = places_with(alloc, true, main)?;
    let held = held(dynamic, targets.as_slice());
    let needed = needed_at_end(alloc, procs, used.as_slice(), held, referred.as_slice())?;
    let lists = graph_with(alloc, false, rows)?;
    let lists = lists.as_slice();
    let digests = graph_with(alloc, true, rows)?;
    let digests = digests.as_slice();
    let steps = steps_of(alloc, lists, digests, order.as_slice(), needed)?;
    Ok(Plan {
        order,
        steps,
        main: used,
        targets,
    })
}

/// An order of a source's procedures and the steps that build their lists, where the kernel exports
/// these names and no use is refused.
pub fn use_plan(alloc: Global, ast: &Ast, names: &Names, kernel: &[Bytes]) -> Result<Plan, Memory>
    requires names { (name : List ℕ) → place_at names.now name ≡ first_place (source_of ast.now).procs name }
    requires closed { IsClosed (source_of ast.now) kernel.now }
    ensures order { IfOk result (λ plan. IsUseOrder (source_of ast.now) plan.order.items) }
    ensures steps { IfOk result (λ plan. IsPlan (source_of ast.now) plan.steps.items) }
    ensures ended { IfOk result (λ plan. All (EndsInFull (place_at names.now) (source_of ast.now).procs) plan.steps.items) }
    ensures main { IfOk result (λ plan. plan.main.items ≡ main_uses (place_at names.now) (source_of ast.now).main) }
    ensures targets { IfOk result (λ plan. map Some plan.targets.items
        ≡ map (first_place (source_of ast.now).procs) (target_names (source_of ast.now))) }
{
    let exports = Names::of(alloc, kernel)?;
    let procs = ast.procs.as_slice();
    let rows = all_links(alloc, names, &exports, procs)?;
    let rows = rows.as_slice();
    let main = main_links(alloc, names, &exports, &ast.main)?;
    let main = main.as_slice();
    let graph = own_graph(alloc, rows)?;
    let graph = graph.as_slice();
    let targets = targets(alloc, rows, main)?;
    let dynamic = is_dynamic(alloc, procs, &ast.main)?;
    let order = order_from(alloc, graph, held(dynamic, targets.as_slice()))?;
    let plan = planned(alloc, procs, rows, main, order, dynamic, targets)?;
    Ok(plan)
}
