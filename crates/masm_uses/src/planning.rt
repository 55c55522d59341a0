ghost use Rattle.std.specs.Prelude.{◌≡◌, ℕ, ◌<◌, true, false, not, List, [], length, map, filter, reverse, slice_index_or, IfOk, OnOk};
ghost use Rattle.std.specs.List.{All, Contains};
ghost use Rattle.graphs.specs.Graph.{rows_of, IsGraph};
ghost use Rattle.graphs.specs.Orders.{IsOrder};
ghost use Rattle.masm_uses.specs.Plans.{Builds, EndsInGraph, IsHeldFor, MarksRow, StepsTo, keeps_list, ended_lists, makes_digest, no_ends};

use graphs::{is_marked, row_at, unmarked};
use masm_tree::Proc;
use std::alloc::{AllocError, Global};

/// A procedure whose list is built, by its place.
#[derive(Drop)]
pub struct Step {
    pub place: usize,
    /// The procedures whose lists no later step needs, each once for each exec or call that this
    /// procedure has of it.
    pub ended: Vec<usize>,
    /// Whether a later step or the end needs the list.
    pub kept: bool,
    /// Whether a later step or the end needs the digest of its tree.
    pub referred: bool,
}

/// The lists, or the digests, that later steps or the end need, by places: those that are needed in
/// the end, and those to which rows lead.
#[derive(Drop)]
pub(crate) struct Needed {
    pub lists: Vec<bool>,
    pub digests: Vec<bool>,
}

fn mark_all(marks: &mut Vec<bool>, row: &[usize])
    requires { All (λ place. place < length marks.old.items) row.now }
    ensures { MarksRow marks.old.items row.now marks.new.items [] }
{
    for place in row {
        marks[*place] = true;
    }
}

// Marks the places of a row, and gives those that had no mark, each as often as it stands there.
fn mark_row(alloc: Global, marks: &mut Vec<bool>, row: &[usize]) -> Result<Vec<usize>, AllocError>
    requires { All (λ place. place < length marks.old.items) row.now }
    ensures marks { IfOk result (λ fresh. MarksRow marks.old.items row.now marks.new.items fresh.items) }
    ensures fresh { IfOk result (λ fresh. fresh.items ≡ filter (λ place. not (slice_index_or marks.old.items place false)) row.now) }
    ensures count { length marks.new.items ≡ length marks.old.items }
{
    let fresh = unmarked(alloc, marks, row)?;
    mark_all(marks, row);
    Ok(fresh)
}

// Marks of the procedures that are exported and of those in two rows.
fn wanted_marks(
    alloc: Global,
    procs: &[Proc],
    row: &[usize],
    held: &[usize],
) -> Result<Vec<bool>, AllocError>
    requires row { All (λ place. place < length procs.now) row.now }
    requires held { All (λ place. place < length procs.now) held.now }
    ensures count { IfOk result (λ marks. length marks.items ≡ length procs.now) }
    ensures exported { IfOk result (λ marks. (place : ℕ)
        → slice_index_or (map (λ p. p.exported) procs.now) place false ≡ true → slice_index_or marks.items place false ≡ true) }
    ensures used { IfOk result (λ marks. (place : ℕ) → Contains row.now place → slice_index_or marks.items place false ≡ true) }
    ensures held { IfOk result (λ marks. (place : ℕ) → Contains held.now place → slice_index_or marks.items place false ≡ true) }
{
    let mut marks = procs.iter().map(|p| p.exported).collect(alloc)?;
    mark_all(&mut marks, row);
    mark_all(&mut marks, held);
    Ok(marks)
}

// Marks of the procedures in a row.
fn row_marks(alloc: Global, count: usize, row: &[usize]) -> Result<Vec<bool>, AllocError>
    requires { All (λ place. place < count) row.now }
    ensures count { IfOk result (λ marks. length marks.items ≡ count) }
    ensures used { IfOk result (λ marks. (place : ℕ) → Contains row.now place → slice_index_or marks.items place false ≡ true) }
{
    let mut marks = vec![in alloc; false; count]?;
    mark_all(&mut marks, row);
    Ok(marks)
}

// What is needed in the end: the lists of the procedures that are exported or in one of the first two
// rows, and the digests of those in the third.
pub(crate) fn needed_at_end(
    alloc: Global,
    procs: &[Proc],
    used: &[usize],
    held: &[usize],
    referred: &[usize],
) -> Result<Needed, AllocError>
    requires used { All (λ place. place < length procs.now) used.now }
    requires held { All (λ place. place < length procs.now) held.now }
    requires referred { All (λ place. place < length procs.now) referred.now }
    ensures lists_count { IfOk result (λ needed. length needed.lists.items ≡ length procs.now) }
    ensures digests_count { IfOk result (λ needed. length needed.digests.items ≡ length procs.now) }
    ensures exported { IfOk result (λ needed. (place : ℕ)
        → slice_index_or (map (λ p. p.exported) procs.now) place false ≡ true → slice_index_or needed.lists.items place false ≡ true) }
    ensures used { IfOk result (λ needed. (place : ℕ) → Contains used.now place → slice_index_or needed.lists.items place false ≡ true) }
    ensures held { IfOk result (λ needed. (place : ℕ) → Contains held.now place → slice_index_or needed.lists.items place false ≡ true) }
    ensures referred { IfOk result (λ needed. (place : ℕ) → Contains referred.now place
        → slice_index_or needed.digests.items place false ≡ true) }
{
    Ok(Needed {
        lists: wanted_marks(alloc, procs, used, held)?,
        digests: row_marks(alloc, procs.len(), referred)?,
    })
}

// Adds the step of a place whose list or digest is needed, of which these rows say which lists and
// which digests it needs.
fn add_step(
    alloc: Global,
    needed: &mut Needed,
    steps: &mut Vec<Step>,
    place: usize,
    lists: &[usize],
    digests: &[usize],
) -> Result<(), AllocError>
    requires lists { All (λ other. other < length needed.old.lists.items) lists.now }
    requires digests { All (λ other. other < length needed.old.digests.items) digests.now }
    ensures lists { OnOk result (StepsTo keeps_list ended_lists place lists.now needed.old.lists.items steps.old.items needed.new.lists.items steps.new.items) }
    ensures digests { OnOk result (StepsTo makes_digest no_ends place digests.now needed.old.digests.items steps.old.items needed.new.digests.items steps.new.items) }
    ensures ended { OnOk result ((graph : List (List ℕ)) → slice_index_or graph place [] ≡ lists.now
        → All (EndsInGraph graph) steps.old.items → All (EndsInGraph graph) steps.new.items) }
    ensures lists_count { OnOk result (length needed.new.lists.items ≡ length needed.old.lists.items) }
    ensures digests_count { OnOk result (length needed.new.digests.items ≡ length needed.old.digests.items) }
{
    let kept = is_marked(&needed.lists, place);
    let referred = is_marked(&needed.digests, place);
    if !kept && !referred {
        return Ok(());
    }
    let ended = mark_row(alloc, &mut needed.lists, lists)?;
    mark_all(&mut needed.digests, digests);
    steps.push(Step {
        place,
        ended,
        kept,
        referred,
    })?;
    Ok(())
}

// The steps that build what is needed, in an order in which each place stands behind those to which
// it has edges. Edges of the one graph lead to the lists that a place needs, and those of the other
// to the digests; what is needed in the end is there from its step on. The last step stands first.
pub(crate) fn steps_of(
    alloc: Global,
    lists: &[Vec<usize>],
    digests: &[Vec<usize>],
    order: &[usize],
    needed: Needed,
) -> Result<Vec<Step>, AllocError>
    requires lists { IsGraph (rows_of lists.now) }
    requires digests { IsGraph (rows_of digests.now) }
    requires lists_order { IsOrder (rows_of lists.now) order.now }
    requires digests_order { IsOrder (rows_of digests.now) order.now }
    requires lists_count { length needed.lists.items ≡ length lists.now }
    requires digests_count { length needed.digests.items ≡ length digests.now }
    ensures lists { IfOk result (λ steps. Builds keeps_list ended_lists
        (IsHeldFor (rows_of lists.now) needed.lists.items order.now) (length (rows_of lists.now))
        (λ place. slice_index_or needed.lists.items place false ≡ true) (λ place. ⊥) (reverse steps.items)) }
    ensures digests { IfOk result (λ steps. Builds makes_digest no_ends
        (IsHeldFor (rows_of digests.now) needed.digests.items order.now) (length (rows_of digests.now))
        (λ place. slice_index_or needed.digests.items place false ≡ true) (λ place. ⊥) (reverse steps.items)) }
    ensures ended { IfOk result (λ steps. All (EndsInGraph (rows_of lists.now)) steps.items) }
{
    let mut needs = needed;
    let mut steps = Vec::new(alloc);
    for k in (0..order.len()).rev() {
        let place = order[k];
        let list_row = row_at(lists, place);
        let digest_row = row_at(digests, place);
        add_step(alloc, &mut needs, &mut steps, place, list_row, digest_row)?;
    }
    Ok(steps)
}
