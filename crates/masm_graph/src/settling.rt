ghost use Rattle.std.specs.Prelude.{◌≡◌, ℕ, ◌<◌, ◌≤◌, true, false, nat_lt, nat_le, slice_index, slice_index_or, IfOk};
ghost use Rattle.std.specs.List.{list_all};
ghost use Rattle.graphs.specs.Graph.{rows_of, Edge, Leads};
ghost use Rattle.masm_graph.specs.Users.{UsesProcedure, AreUsers};

use crate::components::numbers_of;
use crate::links::Link;
use crate::own::own_graph;
use std::alloc::{AllocError, Global};

// The number of a place, which is 0 past the end.
fn number_at(numbers: &[usize], place: usize) -> usize
    ensures { result ≡ slice_index numbers.now place }
{
    match numbers.get(place) {
        Some(number) => *number,
        None => 0,
    }
}

fn all_no_less(numbers: &[usize], number: usize, row: &[usize]) -> bool
    ensures { result ≡ list_all (λ place. nat_le number (slice_index numbers.now place)) row.now }
{
    row.iter().all(|place| number <= number_at(numbers, *place))
}

fn all_greater(numbers: &[usize], number: usize, row: &[usize]) -> bool
    ensures { result ≡ list_all (λ place. nat_lt number (slice_index numbers.now place)) row.now }
{
    row.iter().all(|place| number < number_at(numbers, *place))
}

// Whether no edge leads to a lesser number.
fn ascends(graph: &[Vec<usize>], numbers: &[usize]) -> bool
    ensures { result ≡ true → (a b : ℕ) → Edge (rows_of graph.now) a b → slice_index numbers.now a ≤ slice_index numbers.now b }
{
    for (place, row) in graph.iter().enumerate() {
        if !all_no_less(numbers, number_at(numbers, place), row) {
            return false;
        }
    }
    true
}

// Marks of places all whose edges lead to greater numbers.
fn ascending(
    alloc: Global,
    graph: &[Vec<usize>],
    numbers: &[usize],
) -> Result<Vec<bool>, AllocError>
    ensures { IfOk result (λ marks. (a b : ℕ) → slice_index_or marks.items a false ≡ true → Edge (rows_of graph.now) a b
        → slice_index numbers.now a < slice_index numbers.now b) }
{
    let mut marks = Vec::new(alloc);
    for (place, row) in graph.iter().enumerate() {
        marks.push(all_greater(numbers, number_at(numbers, place), row))?;
    }
    Ok(marks)
}

/// Marks procedures to which no use of theirs leads back, in time that is linear in the uses. Of those
/// without a mark, also past the end of the marks, nothing is said: whether a use of theirs leads back
/// has to be searched.
// Each use leads to a number that is not less, so none leads back from a greater number. The numbers are
// those of components, so that the others do have a use that leads back: but that rests on no clause.
pub fn settled(
    alloc: Global,
    rows: &[Vec<Link>],
    users: &[Vec<usize>],
) -> Result<Vec<bool>, AllocError>
    requires { AreUsers (rows_of rows.now) (rows_of users.now) }
    ensures { IfOk result (λ settled. (user place : ℕ) → slice_index_or settled.items user false ≡ true
        → UsesProcedure (rows_of rows.now) user place → ¬ (Leads (rows_of users.now) user place)) }
{
    let graph = own_graph(alloc, rows)?;
    let graph = graph.as_slice();
    let numbers = numbers_of(alloc, graph, users)?;
    let numbers = numbers.as_slice();
    if !ascends(graph, numbers) {
        return Ok(Vec::new(alloc));
    }
    let settled = ascending(alloc, graph, numbers)?;
    Ok(settled)
}
