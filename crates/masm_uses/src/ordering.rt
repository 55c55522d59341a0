ghost use Rattle.std.specs.Prelude.{◌≡◌, ℕ, ◌<◌, length, take, slice_index, IfOk};
ghost use Rattle.std.specs.List.{All, Contains};
ghost use Rattle.graphs.specs.Graph.{rows_of, IsGraph, LeadsFrom};
ghost use Rattle.graphs.specs.Orders.{IsAcyclic, IsOrder};
ghost use Rattle.masm_uses.specs.Plans.{held};

use graphs::{marked_first, order, reached_from};
use std::alloc::{AllocError, Global};

// The targets, where there is a dynexec that may run them.
pub(crate) fn held(dynamic: bool, targets: &[usize]) -> &[usize]
    ensures { result.now ≡ held dynamic targets.now }
{
    if dynamic { targets } else { &[] }
}

// The places of a graph with no way back, each behind those to which it has edges, and all that are
// reached from these before the others.
pub(crate) fn order_from(
    alloc: Global,
    graph: &[Vec<usize>],
    starts: &[usize],
) -> Result<Vec<usize>, AllocError>
    requires graph { IsGraph (rows_of graph.now) }
    requires acyclic { IsAcyclic (rows_of graph.now) }
    requires starts { All (λ place. place < length graph.now) starts.now }
    ensures order { IfOk result (λ order. IsOrder (rows_of graph.now) order.items) }
    ensures starts { IfOk result (λ order. (k start : ℕ) → ¬ (LeadsFrom (rows_of graph.now) starts.now (slice_index order.items k))
        → Contains starts.now start → Contains (take k order.items) start) }
{
    let order = order(alloc, graph)?;
    let marks = reached_from(alloc, graph, starts)?;
    let first = marked_first(alloc, &marks, order.as_slice())?;
    Ok(first)
}
