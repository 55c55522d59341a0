ghost use Rattle.std.specs.Prelude.{◌≡◌, IfOk};
ghost use Rattle.vm_state.specs.Views.{core_of};
ghost use Rattle.machine_cycles.specs.Events.{visible_of};
ghost use Rattle.complete_rows.specs.Filling.{rows_of_run};
ghost use Rattle.complete_rows.specs.Numbers.{HasSmallNumbers};
ghost use Rattle.complete_rows.specs.RunRequests.{requests_of};

use crate::fill::fill;
use air_kit::Requests;
use machine_cycles::{Events, Visible};
use perm_memo::Permutations;
use std::alloc::Global;
use vm_field::Memory;
use vm_state::State;
use vm_table::Table;

/// The main table of a run that ends in a state, one row for each of its events and HALT's behind
/// them, and what its rows ask of the small tables. The numbers that these events show and ask are
/// those of a run: they are as small as columns and requests take.
///
/// # Errors
///
/// `Memory` where the system gave none for the rows, the requests or what is counted on the way.
pub fn fill_main(
    alloc: Global,
    permutations: &mut Permutations,
    state: &State,
    events: &Events,
) -> Result<(Table<65>, Requests), Memory>
    requires { HasSmallNumbers (visible_of (core_of state.now)) events.now }
    ensures rows { IfOk result (λ r. r.0 ≡ rows_of_run (visible_of (core_of state.now)) events.now) }
    ensures requests { IfOk result (λ r. r.1 ≡ requests_of permutations.old (visible_of (core_of state.now)) events.now) }
    ensures same { permutations.new ≡ permutations.old }
{
    let last = last_seen(state);
    fill(alloc, permutations, &last, events)
}

// What the row of HALT shows of the state at the end.
fn last_seen(state: &State) -> Visible
    ensures { result ≡ visible_of (core_of state.now) }
{
    Visible {
        clock: state.clock,
        context: state.context,
        fmp: state.fmp,
        in_syscall: state.in_syscall,
        digest: state.digest,
        nesting: state.nesting,
        depth: state.depth(),
        cells: *state.visible(),
    }
}
