ghost use Rattle.std.specs.Prelude.{◌≡◌, ℕ, ◌<◌, ◌∷◌, ◌++◌, [], length, slice_index_or, false, true, ◌↔◌, if◌then◌else◌, IfOk, OnOk};
ghost use Rattle.std.specs.List.{All};
ghost use Rattle.graphs.specs.Graph.{rows_of, IsGraph, Leads, LeadsFrom};
ghost use Rattle.graphs.specs.Walks.{AreMarks, AddsPlaces};
ghost use Rattle.graphs.specs.Orders.{each_once};

use std::alloc::{AllocError, Global};

// The places that were seen, in their order, and for each place whether it was seen.
#[derive(Drop)]
pub(crate) struct Walk {
    pub marks: Vec<bool>,
    pub seen: Vec<usize>,
}

impl Walk {
    // None of so many places was seen.
    pub(crate) fn new(alloc: Global, count: usize) -> Result<Walk, AllocError>
        ensures marks { IfOk result (λ walk. AreMarks walk.marks.items walk.seen.items) }
        ensures seen { IfOk result (λ walk. walk.seen.items ≡ []) }
        ensures count { IfOk result (λ walk. length walk.marks.items ≡ count) }
    {
        Ok(Walk {
            marks: vec![in alloc; false; count]?,
            seen: Vec::new(alloc),
        })
    }

    pub(crate) fn visit(&mut self, place: usize) -> Result<(), AllocError>
        requires within { place < length self.old.marks.items }
        requires marks { AreMarks self.old.marks.items self.old.seen.items }
        ensures marks { OnOk result (AreMarks self.new.marks.items self.new.seen.items) }
        ensures adds { OnOk result (AddsPlaces self.old.seen.items (place ∷ []) self.new.seen.items) }
        ensures seen { OnOk result (self.new.seen.items
            ≡ (if slice_index_or self.old.marks.items place false then self.old.seen.items else self.old.seen.items ++ place ∷ [])) }
        ensures count { length self.new.marks.items ≡ length self.old.marks.items }
    {
        if self.marks[place] {
            return Ok(());
        }
        self.seen.push(place)?;
        self.marks[place] = true;
        Ok(())
    }

    fn visit_all(&mut self, row: &[usize]) -> Result<(), AllocError>
        requires within { All (λ place. place < length self.old.marks.items) row.now }
        requires marks { AreMarks self.old.marks.items self.old.seen.items }
        ensures marks { OnOk result (AreMarks self.new.marks.items self.new.seen.items) }
        ensures adds { OnOk result (AddsPlaces self.old.seen.items row.now self.new.seen.items) }
        ensures count { length self.new.marks.items ≡ length self.old.marks.items }
    {
        for place in row {
            self.visit(*place)?;
        }
        Ok(())
    }
}

/// The row of a place, which is empty past the end.
pub fn row_at<T>(rows: &[Vec<T>], place: usize) -> &[T]
    ensures { result.now ≡ slice_index_or (rows_of rows.now) place [] }
{
    match rows.get(place) {
        Some(row) => row.as_slice(),
        None => &[],
    }
}

/// Whether a place is marked; none is past the end.
pub fn is_marked(marks: &[bool], place: usize) -> bool
    ensures { result ≡ slice_index_or marks.now place false }
{
    match marks.get(place) {
        Some(mark) => *mark,
        None => false,
    }
}

/// The places of a row, which are below this count, in their order and each once.
pub fn each_once(alloc: Global, count: usize, row: &[usize]) -> Result<Vec<usize>, AllocError>
    requires { All (λ place. place < count) row.now }
    ensures { IfOk result (λ once. once.items ≡ each_once row.now) }
{
    let mut walk = Walk::new(alloc, count)?;
    for place in row {
        walk.visit(*place)?;
    }
    Ok(walk.seen)
}

/// For each place of a graph, whether it is reached from one of the starts.
pub fn reached_from(
    alloc: Global,
    graph: &[Vec<usize>],
    starts: &[usize],
) -> Result<Vec<bool>, AllocError>
    requires graph { IsGraph (rows_of graph.now) }
    requires starts { All (λ place. place < length graph.now) starts.now }
    ensures { IfOk result (λ marks. (place : ℕ) → (slice_index_or marks.items place false ≡ true) ↔ LeadsFrom (rows_of graph.now) starts.now place) }
{
    let mut walk = Walk::new(alloc, graph.len())?;
    walk.visit_all(starts)?;
    let mut next = 0;
    while next < walk.seen.len() {
        let place = walk.seen[next];
        walk.visit_all(row_at(graph, place))?;
        next += 1;
    }
    Ok(walk.marks)
}

/// For each place of a graph, whether it is reached from the start.
pub fn reached(alloc: Global, graph: &[Vec<usize>], start: usize) -> Result<Vec<bool>, AllocError>
    requires graph { IsGraph (rows_of graph.now) }
    requires start { start < length graph.now }
    ensures { IfOk result (λ marks. (place : ℕ) → (slice_index_or marks.items place false ≡ true) ↔ Leads (rows_of graph.now) start place) }
{
    let marks = reached_from(alloc, graph, &[start])?;
    Ok(marks)
}
