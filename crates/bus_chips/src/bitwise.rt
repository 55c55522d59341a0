ghost use Rattle.std.specs.Prelude.{◌≡◌, ◌^◌, [], OnOk, option_map};
ghost use Rattle.air_kit.specs.ChipTuples.{bitwise_given, chip_given, chip_asked};
ghost use Rattle.air_kit.specs.Rows.{claim_at};
ghost use Rattle.air_kit.specs.declared.trace.TableName.TheVariants as table;
ghost use Rattle.bus_kit.specs.Widths.{tallied};
ghost use Rattle.bus_kit.specs.Adding.{CanCount, IsCounted};
ghost use Rattle.bus_kit.specs.ByBus.{AreCounted, HaveRoom};

use air_kit::Place;
use bus_kit::{Tallies, Tally, give};
use chip_columns::BitwiseView;
use vm_field::Memory;

/// What the last row of a bitwise operation gives: its kind, its operands and its result. At `Memory` a part may be counted.
pub fn tuples_bitwise<V: BitwiseView>(
    place: &Place<'_, V>,
    tallies: &mut Tallies,
) -> Result<(), Memory>
    requires { HaveRoom tallies.old }
    ensures { OnOk result (AreCounted (2 ^ 66) tallies.old tallies.new
        (λ bus. chip_asked (claim_at place.now) bus table.Bitwise place.now.row (V.cells place.now.cur) (option_map V.cells place.now.next))
        (λ bus. chip_given bus table.Bitwise place.now.row (V.cells place.now.cur) (option_map V.cells place.now.next))) }
{
    operation(place.row, &place.cur, &mut tallies.bitwise)
}

// What row i of the table gives.
fn operation<V: BitwiseView>(i: u32, row: &V, tally: &mut Tally<4>) -> Result<(), Memory>
    requires { CanCount (tallied tally.old) }
    ensures { OnOk result (IsCounted 1 (tallied tally.old) (tallied tally.new) [] (bitwise_given i (V.cells row.now))) }
{
    let place = i % 8;
    if place == 7 {
        give(tally, &[row.op(), row.a(), row.b(), row.z()])
    } else {
        Ok(())
    }
}
