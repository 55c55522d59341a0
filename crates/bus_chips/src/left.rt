ghost use Rattle.std.specs.Prelude.{◌≡◌, ◌^◌, OnOk, option_map};
ghost use Rattle.air_kit.specs.ChipTuples.{chip_given, chip_asked, next_key};
ghost use Rattle.air_kit.specs.Rows.{claim_at};
ghost use Rattle.air_kit.specs.declared.trace.TableName.TheVariants as table;
ghost use Rattle.bus_kit.specs.ByBus.{AreCounted, HaveRoom};
ghost use Rattle.std.specs.Prelude.{◌+◌, slice_index};

use air_kit::Place;
use bus_kit::{Tallies, ask};
use chip_columns::LeftView;
use vm_field::{Felt, Memory};
use vm_state::Statement;

/// The cell of a row, asked as the one that went below the sixteenth. At `Memory` a part may be counted.
pub fn tuples_left<V: LeftView>(place: &Place<'_, V>, tallies: &mut Tallies) -> Result<(), Memory>
    requires { HaveRoom tallies.old }
    ensures { OnOk result (AreCounted (2 ^ 66) tallies.old tallies.new
        (λ bus. chip_asked (claim_at place.now) bus table.Left place.now.row (V.cells place.now.cur) (option_map V.cells place.now.next))
        (λ bus. chip_given bus table.Left place.now.row (V.cells place.now.cur) (option_map V.cells place.now.next))) }
{
    let output = output_at(&place.public.statement, place.row);
    let key = place.cur.key();
    let below = key_after(&place.next);
    ask(&mut tallies.overflow, &[key, output, below])
}

// The output of a row's number behind the first sixteen; 0 where there is none.
fn output_at(statement: &Statement, row: u32) -> Felt
    ensures { result ≡ slice_index statement.now.outputs (16 + row) }
{
    match statement.outputs.as_slice().get(16 + row as usize) {
        Some(output) => *output,
        None => Felt::ZERO,
    }
}

// The key of the row after it; 0 behind the last one.
fn key_after<V: LeftView>(next: &Option<V>) -> Felt
    ensures { result ≡ next_key (option_map V.cells next.now) }
{
    match next {
        Some(next) => next.key(),
        None => Felt::ZERO,
    }
}
