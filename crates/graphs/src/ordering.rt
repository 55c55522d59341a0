ghost use Rattle.std.specs.Prelude.{◌≡◌, ℕ, ◌<◌, ◌≤◌, [], ◌∷◌, ◌++◌, length, slice_index, slice_index_or};
ghost use Rattle.std.specs.Prelude.{slice_set, false, true, not, filter, IfOk, OnOk};
ghost use Rattle.std.specs.List.{All, Contains};
ghost use Rattle.graphs.specs.Graph.{rows_of, IsGraph};
ghost use Rattle.graphs.specs.Orders.{IsAcyclic, IsOrder, StandsBehind, marked_first};
ghost use Rattle.graphs.specs.Walks.{AreMarks};

use crate::reach::{Walk, is_marked};
use std::alloc::{AllocError, Global};
use std::mem;

// The places of a graph that were seen, each behind those to which it has edges. Each other one waits
// for a place that was not seen, so that its row is read once.
#[derive(Drop)]
struct Sorter {
    walk: Walk,
    // For each place, how many edges from its first on lead to places that were seen.
    passed: Vec<usize>,
    // For each place, those that wait for it.
    waiting: Vec<Vec<usize>>,
}

fn empty_rows(alloc: Global, count: usize) -> Result<Vec<Vec<usize>>, AllocError>
    ensures count { IfOk result (λ rows. length rows.items ≡ count) }
    ensures empty { IfOk result (λ rows. All (λ row. row ≡ []) (rows_of rows.items)) }
{
    let mut rows = Vec::new(alloc);
    for _ in 0..count {
        rows.push(Vec::new(alloc))?;
    }
    Ok(rows)
}

impl Sorter {
    ghost use Rattle.graphs.specs.Sorting.{waiters, IsSorting, IsSettled, Grows};

    fn new(alloc: Global, graph: &[Vec<usize>]) -> Result<Sorter, AllocError>
        ensures { IfOk result (IsSorting (rows_of graph.now)) }
    {
        Ok(Sorter {
            walk: Walk {
                marks: vec![in alloc; false; graph.len()]?,
                seen: Vec::new(alloc),
            },
            passed: vec![in alloc; 0; graph.len()]?,
            waiting: empty_rows(alloc, graph.len())?,
        })
    }

    // The first edge of a row, from this one on, that leads to a place that was not seen.
    fn first_unseen(&self, row: &[usize], from: usize) -> usize
        requires { All (λ place. place < length self.now.walk.marks.items) row.now }
        ensures seen { (k : ℕ) → from ≤ k → k < result
            → slice_index_or self.now.walk.marks.items (slice_index row.now k) false ≡ true }
        ensures unseen { result < length row.now
            → slice_index_or self.now.walk.marks.items (slice_index row.now result) false ≡ false }
    {
        let mut edge = from;
        while edge < row.len() && self.walk.marks[row[edge]] {
            edge += 1;
        }
        edge
    }

    // Lets a place wait for another one.
    fn wait(&mut self, place: usize, other: usize) -> Result<(), AllocError>
        requires { other < length self.old.waiting.items }
        ensures walk { self.new.walk ≡ self.old.walk }
        ensures passed { self.new.passed ≡ self.old.passed }
        ensures count { length self.new.waiting.items ≡ length self.old.waiting.items }
        ensures rows { OnOk result (rows_of self.new.waiting.items
            ≡ slice_set (rows_of self.old.waiting.items) other (waiters self.old other ++ place ∷ [])) }
    {
        self.waiting[other].push(place)?;
        Ok(())
    }

    // Those that wait for a place, which then has none.
    fn take_waiters(&mut self, alloc: Global, place: usize) -> Vec<usize>
        requires { place < length self.old.waiting.items }
        ensures walk { self.new.walk ≡ self.old.walk }
        ensures passed { self.new.passed ≡ self.old.passed }
        ensures count { length self.new.waiting.items ≡ length self.old.waiting.items }
        ensures taken { result.items ≡ waiters self.old place }
        ensures rows { rows_of self.new.waiting.items ≡ slice_set (rows_of self.old.waiting.items) place [] }
    {
        mem::replace(&mut self.waiting[place], Vec::new(alloc))
    }

    // Adds a place where all that it has edges to were seen, and else lets it wait for one that was not.
    fn settle(&mut self, graph: &[Vec<usize>], place: usize) -> Result<(), AllocError>
        requires graph { IsGraph (rows_of graph.now) }
        requires place { place < length graph.now }
        requires sorting { IsSorting (rows_of graph.now) self.old }
        ensures sorting { OnOk result (IsSorting (rows_of graph.now) self.new) }
        ensures grows { OnOk result (Grows self.old self.new) }
        ensures settled { OnOk result (IsSettled (rows_of graph.now) self.old.walk.seen.items self.new place) }
    {
        let row = graph[place].as_slice();
        let edge = self.first_unseen(row, self.passed[place]);
        self.passed[place] = edge;
        if edge < row.len() {
            self.wait(place, row[edge])
        } else {
            self.walk.visit(place)
        }
    }

    fn settle_all(&mut self, graph: &[Vec<usize>], places: &[usize]) -> Result<(), AllocError>
        requires graph { IsGraph (rows_of graph.now) }
        requires places { All (λ place. place < length graph.now) places.now }
        requires sorting { IsSorting (rows_of graph.now) self.old }
        ensures sorting { OnOk result (IsSorting (rows_of graph.now) self.new) }
        ensures grows { OnOk result (Grows self.old self.new) }
        ensures settled { OnOk result ((place : ℕ) → Contains places.now place
            → IsSettled (rows_of graph.now) self.old.walk.seen.items self.new place) }
    {
        for place in places {
            self.settle(graph, *place)?;
        }
        Ok(())
    }
}

// The places of a graph from which no way leads back, each behind those to which it has edges.
fn sorted(alloc: Global, graph: &[Vec<usize>]) -> Result<Walk, AllocError>
    requires { IsGraph (rows_of graph.now) }
    ensures marks { IfOk result (λ walk. AreMarks walk.marks.items walk.seen.items) }
    ensures behind { IfOk result (λ walk. StandsBehind (rows_of graph.now) walk.seen.items) }
    ensures all { IfOk result (λ walk. IsAcyclic (rows_of graph.now) → IsOrder (rows_of graph.now) walk.seen.items) }
{
    let mut sorter = Sorter::new(alloc, graph)?;
    for place in 0..graph.len() {
        sorter.settle(graph, place)?;
    }
    let mut next = 0;
    while next < sorter.walk.seen.len() {
        let place = sorter.walk.seen[next];
        let waiters = sorter.take_waiters(alloc, place);
        sorter.settle_all(graph, waiters.as_slice())?;
        next += 1;
    }
    Ok(sorter.walk)
}

/// The places of a graph with no way back, each behind those to which it has edges.
pub fn order(alloc: Global, graph: &[Vec<usize>]) -> Result<Vec<usize>, AllocError>
    requires graph { IsGraph (rows_of graph.now) }
    requires acyclic { IsAcyclic (rows_of graph.now) }
    ensures { IfOk result (λ order. IsOrder (rows_of graph.now) order.items) }
{
    let walk = sorted(alloc, graph)?;
    Ok(walk.seen)
}

// The places of a row that have a mark, in their order.
fn marked(alloc: Global, marks: &[bool], row: &[usize]) -> Result<Vec<usize>, AllocError>
    ensures { IfOk result (λ places. places.items ≡ filter (λ place. slice_index_or marks.now place false) row.now) }
{
    row.iter()
        .copied()
        .filter(|place| is_marked(marks, *place))
        .collect(alloc)
}

/// The places of a row that have no mark, in their order.
pub fn unmarked(alloc: Global, marks: &[bool], row: &[usize]) -> Result<Vec<usize>, AllocError>
    ensures { IfOk result (λ places. places.items ≡ filter (λ place. not (slice_index_or marks.now place false)) row.now) }
{
    row.iter()
        .copied()
        .filter(|place| !is_marked(marks, *place))
        .collect(alloc)
}

/// The places of an order that have a mark, and then those that have none, each in their order.
pub fn marked_first(
    alloc: Global,
    marks: &[bool],
    order: &[usize],
) -> Result<Vec<usize>, AllocError>
    ensures { IfOk result (λ first. first.items ≡ marked_first marks.now order.now) }
{
    let mut first = marked(alloc, marks, order)?;
    let rest = unmarked(alloc, marks, order)?;
    first.extend_from_slice(rest.as_slice())?;
    Ok(first)
}
