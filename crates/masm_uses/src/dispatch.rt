ghost use Rattle.std.specs.Prelude.{◌≡◌, ◌<◌, true, false, length, map, slice_index_or, IfOk};
ghost use Rattle.std.specs.List.{All};
ghost use Rattle.graphs.specs.Graph.{rows_of, IsGraph, LeadsFrom};
ghost use Rattle.masm_graph.specs.Dynexecs.{dynexecs_in};
ghost use Rattle.masm_graph.specs.Links.{own_places, places_referred};
ghost use Rattle.masm_names.specs.Among.{Among};
ghost use Rattle.masm_names.specs.Least.{FindsLeast};
ghost use Rattle.masm_uses.specs.Dangling.{Dynexecs, IsRefusedDynexec};

use graphs::{is_marked, reached_from};
use masm_graph::{Link, all_dynexecs, own_graph, places_referred};
use masm_names::{LinkCause, Refusal, earlier};
use masm_tree::{Position, Proc};
use std::alloc::{AllocError, Global};

// The refusal of a dynexec in a procedure that is reached from a target, or is not.
fn refused(reached: bool, at: Position) -> Option<Refusal>
    ensures { FindsLeast (IsRefusedDynexec (reached ≡ true) at) result }
{
    if !reached {
        return None;
    }
    Some(Refusal {
        at,
        cause: LinkCause::Recursive,
    })
}

// The first of these dynexecs, in a procedure that is reached from a target.
fn first_refused(reached: bool, row: &[Position]) -> Option<Refusal>
    ensures { FindsLeast (Among (λ k dynexec. IsRefusedDynexec (reached ≡ true) dynexec) row.now) result }
{
    let mut first = None;
    for at in row {
        first = earlier(first, refused(reached, *at));
    }
    first
}

// The first dynexec, in the procedures' rows, in a procedure that has a mark.
fn first_marked(marks: &[bool], rows: &[Vec<Position>]) -> Option<Refusal>
    ensures { FindsLeast (Dynexecs (λ place. slice_index_or marks.now place false ≡ true) (rows_of rows.now)) result }
{
    let mut first = None;
    for (place, row) in rows.iter().enumerate() {
        first = earlier(first, first_refused(is_marked(marks, place), row));
    }
    first
}

// The first dynexec in a procedure that is reached from one that a procref names.
pub(crate) fn first_dispatch(
    alloc: Global,
    procs: &[Proc],
    rows: &[Vec<Link>],
    main: &[Link],
) -> Result<Option<Refusal>, AllocError>
    requires graph { IsGraph (map own_places (rows_of rows.now)) }
    requires targets { All (λ place. place < length rows.now) (places_referred (rows_of rows.now) main.now) }
    ensures { IfOk result (λ first. FindsLeast (Dynexecs
        (LeadsFrom (map own_places (rows_of rows.now)) (places_referred (rows_of rows.now) main.now)) (map dynexecs_in procs.now)) first) }
{
    let graph = own_graph(alloc, rows)?;
    let targets = places_referred(alloc, rows, main)?;
    let marks = reached_from(alloc, &graph, &targets)?;
    let dynexecs = all_dynexecs(alloc, procs)?;
    Ok(first_marked(&marks, &dynexecs))
}
