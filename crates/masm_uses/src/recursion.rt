ghost use Rattle.std.specs.Prelude.{◌≡◌, ℕ, ◌<◌, Bool, true, false, Some, length, slice_index_or, ◌⊎◌, IfOk};
ghost use Rattle.std.specs.List.{list_any};
ghost use Rattle.masm_uses.specs.Dangling.{IsReturn, Returns, Recursions, waits};
ghost use Rattle.graphs.specs.Graph.{rows_of, IsGraph, Leads};
ghost use Rattle.masm_names.specs.Least.{FindsLeast};
ghost use Rattle.masm_graph.specs.Users.{HasOwn, AreUsers};

use graphs::{is_marked, reached};
use masm_graph::{Link, Target, settled};
use masm_names::{LinkCause, Refusal, earlier, is_no_later};
use std::alloc::{AllocError, Global};

// The refusal of a use that leads to one of the places that are marked.
fn returning(marks: &[bool], link: Link) -> Option<Refusal>
    ensures { FindsLeast (IsReturn (λ place. slice_index_or marks.now place false ≡ true) link) result }
{
    let Target::Own(place) = link.target else {
        return None;
    };
    if !is_marked(marks, place) {
        return None;
    }
    Some(Refusal {
        at: link.at,
        cause: LinkCause::Recursive,
    })
}

// The first of these uses that leads to one of the places that are marked.
fn first_return(marks: &[bool], row: &[Link]) -> Option<Refusal>
    ensures { FindsLeast (Returns (λ place. slice_index_or marks.now place false ≡ true) row.now) result }
{
    let mut first = None;
    for link in row {
        first = earlier(first, returning(marks, *link));
    }
    first
}

// Whether a use may be the first that is refused.
fn waits(first: Option<Refusal>, link: Link) -> bool
    ensures { result ≡ waits first link }
{
    let Target::Own(_) = link.target else {
        return false;
    };
    let refusal = Refusal {
        at: link.at,
        cause: LinkCause::Recursive,
    };
    match first {
        Some(before) => !is_no_later(before, refusal),
        None => true,
    }
}

fn some_waits(first: Option<Refusal>, row: &[Link]) -> bool
    ensures { result ≡ list_any (waits first) row.now }
{
    row.iter().any(|link| waits(first, *link))
}

// The first refusal so far, or the first use in a procedure that leads back to it. The graph is
// walked only where a use may come first, and not from procedures that are settled.
fn with_row(
    alloc: Global,
    users: &[Vec<usize>],
    is_settled: bool,
    user: usize,
    row: &[Link],
    first: Option<Refusal>,
) -> Result<Option<Refusal>, AllocError>
    requires graph { IsGraph (rows_of users.now) }
    requires user { user < length users.now }
    requires settled { is_settled ≡ true → (place : ℕ) → HasOwn row.now place
        → ¬ (Leads (rows_of users.now) user place) }
    ensures { IfOk result (λ now. FindsLeast (λ at cause. (first ≡ Some (record { at = at; cause = cause }))
        ⊎ Returns (Leads (rows_of users.now) user) row.now at cause) now) }
{
    if is_settled {
        return Ok(first);
    }
    if !some_waits(first, row) {
        return Ok(first);
    }
    let marks = reached(alloc, users, user)?;
    Ok(earlier(first, first_return(&marks, row)))
}

// The first use, in the procedures' rows, that leads to a procedure from which its own is reached.
pub(crate) fn first_recursion(
    alloc: Global,
    users: &[Vec<usize>],
    rows: &[Vec<Link>],
) -> Result<Option<Refusal>, AllocError>
    requires { AreUsers (rows_of rows.now) (rows_of users.now) }
    ensures { IfOk result (λ first. FindsLeast (Recursions (rows_of users.now) (rows_of rows.now)) first) }
{
    let settled = settled(alloc, rows, users)?;
    let mut first = None;
    for (user, row) in rows.iter().enumerate() {
        first = with_row(alloc, users, is_marked(&settled, user), user, row, first)?;
    }
    Ok(first)
}
