ghost use Rattle.std.specs.Prelude.{◌≡◌, map, IfOk};
ghost use Rattle.graphs.specs.Graph.{rows_of};
ghost use Rattle.masm_graph.specs.Links.{own_place, own_places, place_if, places_with};

use crate::links::{Link, Target};
use std::alloc::{AllocError, Global};

fn own_place(target: Target) -> Option<usize>
    ensures { result ≡ own_place target }
{
    match target {
        Target::Own(place) => Some(place),
        Target::Kernel | Target::Unknown | Target::NotInKernel => None,
    }
}

fn place_if(wanted: bool, refers: bool, place: Option<usize>) -> Option<usize>
    ensures { result ≡ place_if wanted refers place }
{
    if wanted == refers { place } else { None }
}

/// The source's own procedures to which the procrefs among these uses lead, or to which the others
/// do.
pub fn places_with(alloc: Global, wanted: bool, row: &[Link]) -> Result<Vec<usize>, AllocError>
    ensures { IfOk result (λ places. places.items ≡ places_with wanted row.now) }
{
    row.iter()
        .filter_map(|link| place_if(wanted, link.refers, own_place(link.target)))
        .collect(alloc)
}

/// For each procedure the source's own to which its procrefs lead, or to which its other uses do.
pub fn graph_with(
    alloc: Global,
    wanted: bool,
    rows: &[Vec<Link>],
) -> Result<Vec<Vec<usize>>, AllocError>
    ensures { IfOk result (λ graph. rows_of graph.items ≡ map (places_with wanted) (rows_of rows.now)) }
{
    let mut graph = Vec::new(alloc);
    for row in rows {
        graph.push(places_with(alloc, wanted, row)?)?;
    }
    Ok(graph)
}

/// The source's own procedures to which these uses lead.
pub fn own_places(alloc: Global, row: &[Link]) -> Result<Vec<usize>, AllocError>
    ensures { IfOk result (λ places. places.items ≡ own_places row.now) }
{
    row.iter()
        .filter_map(|link| own_place(link.target))
        .collect(alloc)
}

/// For each procedure the source's own to which its uses lead.
pub fn own_graph(alloc: Global, rows: &[Vec<Link>]) -> Result<Vec<Vec<usize>>, AllocError>
    ensures { IfOk result (λ graph. rows_of graph.items ≡ map own_places (rows_of rows.now)) }
{
    let mut graph = Vec::new(alloc);
    for row in rows {
        graph.push(own_places(alloc, row)?)?;
    }
    Ok(graph)
}
