ghost use Rattle.std.specs.Prelude.{◌≡◌, ◌<◌, length, IfOk};
ghost use Rattle.std.specs.List.{All};
ghost use Rattle.graphs.specs.Graph.{rows_of};
ghost use Rattle.graphs.specs.Orders.{each_once};
ghost use Rattle.masm_graph.specs.Links.{places_referred};

use crate::links::Link;
use crate::own::places_with;
use graphs::each_once;
use std::alloc::{AllocError, Global};

/// The source's own procedures to which the procrefs of these rows and of the last one lead, one for
/// each, in order.
pub fn places_referred(
    alloc: Global,
    rows: &[Vec<Link>],
    main: &[Link],
) -> Result<Vec<usize>, AllocError>
    ensures { IfOk result (λ places. places.items ≡ places_referred (rows_of rows.now) main.now) }
{
    let mut places = Vec::new(alloc);
    for row in rows {
        let more = places_with(alloc, true, row)?;
        places.extend_from_slice(more.as_slice())?;
    }
    let last = places_with(alloc, true, main)?;
    places.extend_from_slice(last.as_slice())?;
    Ok(places)
}

/// The source's own procedures that procrefs name, each once, in the order of the first procref of
/// each: the targets of each dynexec.
pub fn targets(alloc: Global, rows: &[Vec<Link>], main: &[Link]) -> Result<Vec<usize>, AllocError>
    requires { All (λ place. place < length rows.now) (places_referred (rows_of rows.now) main.now) }
    ensures { IfOk result (λ targets. targets.items ≡ each_once (places_referred (rows_of rows.now) main.now)) }
{
    let places = places_referred(alloc, rows, main)?;
    let once = each_once(alloc, rows.len(), places.as_slice())?;
    Ok(once)
}
