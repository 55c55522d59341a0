ghost use Rattle.std.specs.Prelude.{◌≡◌, ◌^◌, [], ◌∷◌, OnOk, option_map};
ghost use Rattle.air_kit.specs.ChipTuples.{chip_given, chip_asked};
ghost use Rattle.air_kit.specs.Rows.{claim_at};
ghost use Rattle.air_kit.specs.declared.trace.TableName.TheVariants as table;
ghost use Rattle.bus_kit.specs.ByBus.{AreCounted, HaveRoom};
ghost use Rattle.chip_columns.specs.MemoryColumns as memory;

use air_kit::Place;
use bus_kit::{Tallies, ask_values, give};
use chip_columns::MemoryView;
use vm_field::{Felt, Memory};

/// The access of a row is given, and its limbs are asked. At `Memory` a part may be counted.
pub fn tuples_memory<V: MemoryView>(
    place: &Place<'_, V>,
    tallies: &mut Tallies,
) -> Result<(), Memory>
    requires { HaveRoom tallies.old }
    ensures { OnOk result (AreCounted (2 ^ 66) tallies.old tallies.new
        (λ bus. chip_asked (claim_at place.now) bus table.Memory place.now.row (V.cells place.now.cur) (option_map V.cells place.now.next))
        (λ bus. chip_given bus table.Memory place.now.row (V.cells place.now.cur) (option_map V.cells place.now.next))) }
{
    give(&mut tallies.memory, &access_in(&place.cur))?;
    ask_values(&mut tallies.range, &limbs_in(&place.cur))
}

// What is accessed, when, and the word behind it.
fn access_in<V: MemoryView>(row: &V) -> [Felt; 8]
    ensures { result ≡ memory.kind (V.cells row.now) ∷ memory.ctx (V.cells row.now) ∷ memory.addr (V.cells row.now) ∷ memory.clk (V.cells row.now)
        ∷ memory.v (V.cells row.now) 0 ∷ memory.v (V.cells row.now) 1 ∷ memory.v (V.cells row.now) 2 ∷ memory.v (V.cells row.now) 3 ∷ [] }
{
    [
        row.kind(),
        row.ctx(),
        row.addr(),
        row.clk(),
        row.v0(),
        row.v1(),
        row.v2(),
        row.v3(),
    ]
}

// The limbs of what the order grows by, and of the address.
fn limbs_in<V: MemoryView>(row: &V) -> [Felt; 4]
    ensures { result ≡ memory.d0 (V.cells row.now) ∷ memory.d1 (V.cells row.now) ∷ memory.a0 (V.cells row.now) ∷ memory.a1 (V.cells row.now) ∷ [] }
{
    [row.d0(), row.d1(), row.a0(), row.a1()]
}
