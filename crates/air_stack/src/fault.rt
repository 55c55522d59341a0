ghost use Rattle.std.specs.Prelude.{◌≡◌};
ghost use Rattle.air_kit.specs.Places.{first_fault_of};
ghost use Rattle.air_kit.specs.Rows.{spot_at};
ghost use Rattle.air_kit.specs.StackValues.{stack_values};

use crate::cells::cell_fault;
use crate::depth::depth_fault;
use crate::operands::operand_fault;
use crate::quick::is_moved;
use air_kit::{Place, Seen, or_next};
use vm_field::Felt;
use vm_table::MainView;

/// The first of the entries 115 to 139 that is not 0 at a place, with its value.
pub fn first_fault<V: MainView>(place: &Place<'_, V>) -> Option<(u16, Felt)>
    ensures { result ≡ first_fault_of 115 (stack_values (spot_at V.cells place.now)) }
{
    first_fault_seen(place, &Seen::of(&place.cur))
}

/// The same, where the place's row is decoded already.
pub fn first_fault_seen<V: MainView>(place: &Place<'_, V>, x: &Seen<'_, V>) -> Option<(u16, Felt)>
    requires { x.now.row.now ≡ place.now.cur }
    ensures { result ≡ first_fault_of 115 (stack_values (spot_at V.cells place.now)) }
{
    if is_moved(x, &place.next) {
        return operand_fault(x, &place.next);
    }
    fault_by_entries(place, x)
}

// The same entry by entry. It stands apart, so that the rows that pass the quick test pay nothing for it.
#[inline(never)]
fn fault_by_entries<V: MainView>(place: &Place<'_, V>, x: &Seen<'_, V>) -> Option<(u16, Felt)>
    requires { x.now.row.now ≡ place.now.cur }
    ensures { result ≡ first_fault_of 115 (stack_values (spot_at V.cells place.now)) }
{
    let depth = depth_fault(x, &place.next);
    let cells = cell_fault(x, &place.next);
    let operands = operand_fault(x, &place.next);
    or_next(depth, or_next(cells, operands))
}
