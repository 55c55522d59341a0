ghost use Rattle.std.specs.Prelude.{◌≡◌, length, IfOk};

use graphs::row_at;
use std::alloc::{AllocError, Global};

// A place that a walk in depth has entered, and the next of its edges.
#[derive(Clone, Copy)]
struct Visit {
    place: usize,
    edge: usize,
}

// A walk in depth over a graph.
#[derive(Drop)]
struct DepthWalk {
    // For each place, whether it was entered.
    entered: Vec<bool>,
    // The places that were entered and not left, the last one on top.
    open: Vec<Visit>,
    // Those that were left, in that order.
    left: Vec<usize>,
}

impl DepthWalk {
    fn enter(&mut self, place: usize) -> Result<(), AllocError> {
        if place < self.entered.len() && !self.entered[place] {
            self.entered[place] = true;
            self.open.push(Visit { place, edge: 0 })?;
        }
        Ok(())
    }

    // Enters the place to which the next edge leads, or leaves the place behind its last edge.
    fn advance(&mut self, graph: &[Vec<usize>], visit: Visit) -> Result<(), AllocError> {
        let Visit { place, edge } = visit;
        let row = row_at(graph, place);
        if edge < row.len() {
            let next = Visit {
                place,
                edge: edge + 1,
            };
            self.open.push(next)?;
            self.enter(row[edge])
        } else {
            self.left.push(place)?;
            Ok(())
        }
    }
}

// The places of a graph in the order in which a walk in depth leaves them.
fn leaving_order(alloc: Global, graph: &[Vec<usize>]) -> Result<Vec<usize>, AllocError> {
    let mut walk = DepthWalk {
        entered: vec![in alloc; false; graph.len()]?,
        open: Vec::new(alloc),
        left: Vec::new(alloc),
    };
    for start in 0..graph.len() {
        walk.enter(start)?;
        // There are no more steps than edges and places.
        for _ in 0..u64::MAX {
            let Some(visit) = walk.open.pop() else {
                break;
            };
            walk.advance(graph, visit)?;
        }
    }
    Ok(walk.left)
}

// Places that get numbers.
#[derive(Drop)]
struct Numbering {
    // The number of each place, and the count of places where it has none.
    numbers: Vec<usize>,
    // Those whose edges were not followed.
    open: Vec<usize>,
}

impl Numbering {
    fn give(&mut self, place: usize, number: usize) -> Result<(), AllocError>
        ensures { length self.new.numbers.items ≡ length self.old.numbers.items }
    {
        if place < self.numbers.len() && self.numbers[place] == self.numbers.len() {
            self.numbers[place] = number;
            self.open.push(place)?;
        }
        Ok(())
    }

    fn give_all(&mut self, row: &[usize], number: usize) -> Result<(), AllocError>
        ensures { length self.new.numbers.items ≡ length self.old.numbers.items }
    {
        for place in row {
            self.give(*place, number)?;
        }
        Ok(())
    }
}

// Numbers of a graph's places, one for each, by Kosaraju's algorithm: the same one for places that
// lead to one another, and else a greater one where an edge leads. The edges of the other graph are
// those of this one turned round. Callers test what they need of the numbers, so that only time
// rests on which they are.
pub(crate) fn numbers_of(
    alloc: Global,
    graph: &[Vec<usize>],
    back: &[Vec<usize>],
) -> Result<Vec<usize>, AllocError>
    ensures { IfOk result (λ numbers. length numbers.items ≡ length graph.now) }
{
    let left = leaving_order(alloc, graph)?;
    let mut numbering = Numbering {
        numbers: vec![in alloc; graph.len(); graph.len()]?,
        open: Vec::new(alloc),
    };
    for (number, start) in left.iter().rev().enumerate() {
        numbering.give(*start, number)?;
        // There are no more steps than places.
        for _ in 0..u64::MAX {
            let Some(place) = numbering.open.pop() else {
                break;
            };
            numbering.give_all(row_at(back, place), number)?;
        }
    }
    Ok(numbering.numbers)
}
