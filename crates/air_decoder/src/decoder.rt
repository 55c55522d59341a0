ghost use Rattle.std.specs.Prelude.{◌≡◌, option_map};
ghost use Rattle.air_kit.specs.MainValues.{decoder_values};
ghost use Rattle.air_kit.specs.Places.{first_fault_of};
ghost use Rattle.air_kit.specs.Rows.{claim_at, spot_at};

use crate::quick::is_inner;
use crate::spans::span_faults;
use air_blocks::{block_faults, boundary_faults, opcode_faults};
use air_kit::{Place, Seen, or_next};
use vm_field::Felt;
use vm_table::MainView;

/// The first of entries 1 to 114 that is not 0 at a place of the main table, with its number and its value.
pub fn first_fault<V: MainView>(place: &Place<'_, V>) -> Option<(u16, Felt)>
    ensures { result ≡ first_fault_of 1 (decoder_values (claim_at place.now) (spot_at V.cells place.now)) }
{
    first_fault_seen(place, &Seen::of(&place.cur))
}

/// The same, where the place's row is decoded already.
pub fn first_fault_seen<V: MainView>(place: &Place<'_, V>, x: &Seen<'_, V>) -> Option<(u16, Felt)>
    requires { x.now.row.now ≡ place.now.cur }
    ensures { result ≡ first_fault_of 1 (decoder_values (claim_at place.now) (spot_at V.cells place.now)) }
{
    if is_inner(place.row, x, &place.next) {
        return None;
    }
    fault_by_entries(place, x)
}

// The same entry by entry. It stands apart, so that the rows that pass the quick test pay nothing for it.
#[inline(never)]
fn fault_by_entries<V: MainView>(place: &Place<'_, V>, x: &Seen<'_, V>) -> Option<(u16, Felt)>
    requires { x.now.row.now ≡ place.now.cur }
    ensures { result ≡ first_fault_of 1 (decoder_values (claim_at place.now) (spot_at V.cells place.now)) }
{
    let next = seen_next(&place.next);
    let opcode = opcode_faults(place.row, x, &next);
    let boundary = boundary_faults(place, x);
    let block = block_faults(x, &next);
    let span = span_faults(x, &next);
    or_next(opcode, or_next(boundary, or_next(block, span)))
}

// The row behind, decoded.
fn seen_next<V: MainView>(next: &Option<V>) -> Option<Seen<'_, V>>
    ensures { option_map (λ y. V.cells y.row.now) result ≡ option_map V.cells next.now }
{
    match next {
        Some(row) => Some(Seen::of(row)),
        None => None,
    }
}
