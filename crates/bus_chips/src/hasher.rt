ghost use Rattle.std.specs.Prelude.{◌≡◌, ◌^◌, suc, [], ◌∷◌, OnOk, option_map};
ghost use Rattle.air_kit.specs.ChipTuples.{chip_given, chip_asked, hasher_given, permutation_begins, permutation_ends, whole_part, absorbed_part, digest_part};
ghost use Rattle.chip_columns.specs.HasherColumns as hasher;
ghost use Rattle.air_kit.specs.Rows.{claim_at};
ghost use Rattle.air_kit.specs.declared.trace.TableName.TheVariants as table;
ghost use Rattle.bus_kit.specs.Tallies.{steps_tallied};
ghost use Rattle.bus_kit.specs.Adding.{CanCount, IsCounted};
ghost use Rattle.bus_kit.specs.ByBus.{AreCounted, HaveRoom};

use air_kit::Place;
use bus_kit::{StepTally, Tallies, give};
use chip_columns::HasherView;
use vm_field::{Felt, Memory};

/// What the first or the last row of a permutation gives: its input, or its output. At `Memory` a part
/// may be counted.
pub fn tuples_hasher<V: HasherView>(
    place: &Place<'_, V>,
    tallies: &mut Tallies,
) -> Result<(), Memory>
    requires { HaveRoom tallies.old }
    ensures { OnOk result (AreCounted (2 ^ 66) tallies.old tallies.new
        (λ bus. chip_asked (claim_at place.now) bus table.Hasher place.now.row (V.cells place.now.cur) (option_map V.cells place.now.next))
        (λ bus. chip_given bus table.Hasher place.now.row (V.cells place.now.cur) (option_map V.cells place.now.next))) }
{
    permutation(place.row, &place.cur, &mut tallies.hasher)
}

// What row i of the table gives.
fn permutation<V: HasherView>(i: u32, row: &V, tally: &mut StepTally) -> Result<(), Memory>
    requires { CanCount (steps_tallied tally.old) }
    ensures { OnOk result (IsCounted 1 (steps_tallied tally.old) (steps_tallied tally.new) [] (hasher_given i (V.cells row.now))) }
{
    let place = i % 8;
    let address = address_of(i);
    if place == 0 {
        begins(address, row, tally)
    } else if place == 7 {
        ends(address, row, tally)
    } else {
        Ok(())
    }
}

// The address of row i: a number one more.
fn address_of(i: u32) -> Felt
    ensures { result ≡ suc i }
{
    Felt::reduced(u128::from(i) + 1)
}

// What the first row of a permutation gives.
fn begins<V: HasherView>(address: Felt, row: &V, tally: &mut StepTally) -> Result<(), Memory>
    requires { CanCount (steps_tallied tally.old) }
    ensures { OnOk result (IsCounted 1 (steps_tallied tally.old) (steps_tallied tally.new) [] (permutation_begins address (V.cells row.now))) }
{
    if row.mode() == Felt::ONE {
        give(tally, &whole(4, address, row))
    } else if row.cont() == Felt::ONE {
        give(tally, &absorbed(address, row))
    } else {
        give(tally, &first_absorbed(address, row))
    }
}

// What the last row of a permutation gives.
fn ends<V: HasherView>(address: Felt, row: &V, tally: &mut StepTally) -> Result<(), Memory>
    requires { CanCount (steps_tallied tally.old) }
    ensures { OnOk result (IsCounted 1 (steps_tallied tally.old) (steps_tallied tally.new) [] (permutation_ends address (V.cells row.now))) }
{
    if row.mode() == Felt::ONE {
        give(tally, &whole(5, address, row))
    } else if row.more() == Felt::ZERO {
        give(tally, &digest(address, row))
    } else {
        Ok(())
    }
}

// The whole state, with the tag of an input or of an output.
fn whole<V: HasherView>(tag: u32, address: Felt, row: &V) -> [Felt; 14]
    ensures { result ≡ tag ∷ address ∷ whole_part (V.cells row.now) }
{
    [
        Felt::from_u32(tag),
        address,
        row.x0(),
        row.x1(),
        row.x2(),
        row.x3(),
        row.x4(),
        row.x5(),
        row.x6(),
        row.x7(),
        row.x8(),
        row.x9(),
        row.x10(),
        row.x11(),
    ]
}

// The block that a hash takes in.
fn absorbed<V: HasherView>(address: Felt, row: &V) -> [Felt; 10]
    ensures { result ≡ 2 ∷ address ∷ absorbed_part (V.cells row.now) }
{
    [
        Felt::from_u32(2),
        address,
        row.x4(),
        row.x5(),
        row.x6(),
        row.x7(),
        row.x8(),
        row.x9(),
        row.x10(),
        row.x11(),
    ]
}

// The domain and the first block of a hash.
fn first_absorbed<V: HasherView>(address: Felt, row: &V) -> [Felt; 11]
    ensures { result ≡ 1 ∷ address ∷ hasher.x (V.cells row.now) 1 ∷ absorbed_part (V.cells row.now) }
{
    [
        Felt::ONE,
        address,
        row.x1(),
        row.x4(),
        row.x5(),
        row.x6(),
        row.x7(),
        row.x8(),
        row.x9(),
        row.x10(),
        row.x11(),
    ]
}

// The digest of a hash.
fn digest<V: HasherView>(address: Felt, row: &V) -> [Felt; 6]
    ensures { result ≡ 3 ∷ address ∷ digest_part (V.cells row.now) }
{
    [
        Felt::from_u32(3),
        address,
        row.x4(),
        row.x5(),
        row.x6(),
        row.x7(),
    ]
}
