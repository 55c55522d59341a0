ghost use Rattle.std.specs.Prelude.{◌≡◌, ◌^◌, OnOk, option_map};
ghost use Rattle.air_kit.specs.ChipTuples.{chip_given, chip_asked};
ghost use Rattle.air_kit.specs.Rows.{claim_at};
ghost use Rattle.air_kit.specs.declared.trace.TableName.TheVariants as table;
ghost use Rattle.bus_kit.specs.ByBus.{AreCounted, HaveRoom};

use air_kit::Place;
use bus_kit::{Tallies, give_times};
use chip_columns::KernelView;
use vm_field::Memory;

/// The digest of a row, given as often as the row says. At `Memory` a part may be counted.
pub fn tuples_kernel<V: KernelView>(
    place: &Place<'_, V>,
    tallies: &mut Tallies,
) -> Result<(), Memory>
    requires { HaveRoom tallies.old }
    ensures { OnOk result (AreCounted (2 ^ 66) tallies.old tallies.new
        (λ bus. chip_asked (claim_at place.now) bus table.Kernel place.now.row (V.cells place.now.cur) (option_map V.cells place.now.next))
        (λ bus. chip_given bus table.Kernel place.now.row (V.cells place.now.cur) (option_map V.cells place.now.next))) }
{
    let digest = [
        place.cur.d0(),
        place.cur.d1(),
        place.cur.d2(),
        place.cur.d3(),
    ];
    give_times(&mut tallies.kernel, &digest, place.cur.count())
}
