ghost use Rattle.std.specs.Prelude.{◌≡◌, ◌^◌, ◌==◌, ◌++◌, if◌then◌else◌, [], ◌∷◌, drop, length, IfSome, OnOk, option_map};
ghost use Rattle.buses.specs.Counts.{once};
ghost use Rattle.bus_kit.specs.Widths.{tallied};
ghost use Rattle.bus_kit.specs.Adding.{CanCount, IsCounted};
ghost use Rattle.bus_kit.specs.ByBus.{AreCounted, HaveRoom};
ghost use Rattle.air_kit.specs.DeepCells.{cell_tuples, keys_at_start};
ghost use Rattle.air_kit.specs.Flags.{HasBits};
ghost use Rattle.air_kit.specs.Rows.{claim_at};
ghost use Rattle.bus_main.specs.RowTuples.{IsReadable, main_asked_at, main_given_at};

use crate::inputs::give_inputs;
use crate::step::step;
use air_kit::{Place, Public, deep_inputs};
use bus_kit::{Tallies, Tally, give};
use vm_field::{Felt, Memory, Word};
use vm_table::MainView;

/// What a row of the main table gives and asks on each bus, with the statement's digest and its deep inputs at the first row;
/// nothing else in the last row. At `Memory` a part may be counted.
pub fn tuples<V: MainView>(place: &Place<'_, V>, tallies: &mut Tallies) -> Result<(), Memory>
    requires readable { IsReadable (V.cells place.now.cur) }
    requires next { IfSome place.now.next (λ y. HasBits (V.cells y)) }
    requires room { HaveRoom tallies.old }
    ensures { OnOk result (AreCounted (2 ^ 66) tallies.old tallies.new
        (λ bus. main_asked_at bus place.now.row (V.cells place.now.cur) (option_map V.cells place.now.next))
        (λ bus. main_given_at (claim_at place.now) bus place.now.row (V.cells place.now.cur) (option_map V.cells place.now.next))) }
{
    outermost(
        place.row,
        &place.public.statement.digest,
        &mut tallies.children,
    )?;
    deepest(place.row, place.public, &mut tallies.overflow)?;
    match &place.next {
        Some(next) => step(&place.cur, next, tallies),
        None => Ok(()),
    }
}

// The first row gives the statement's digest, as the child of no block.
fn outermost(row: u32, digest: &Word, tally: &mut Tally<6>) -> Result<(), Memory>
    requires { CanCount (tallied tally.old) }
    ensures { OnOk result (IsCounted 1 (tallied tally.old) (tallied tally.new) []
        (if row == 0 then once (0 ∷ digest.now ++ 0 ∷ []) ∷ [] else [])) }
{
    if row == 0 {
        give(tally, &child_of_none(digest))
    } else {
        Ok(())
    }
}

// The first row gives the inputs below the sixteenth.
fn deepest(row: u32, public: &Public, tally: &mut Tally<3>) -> Result<(), Memory>
    requires { CanCount (tallied tally.old) }
    ensures { OnOk result (IsCounted (2 ^ 20) (tallied tally.old) (tallied tally.new) []
        (if row == 0 then cell_tuples (keys_at_start (length (drop 16 public.now.statement.inputs))) (drop 16 public.now.statement.inputs) else [])) }
{
    if row == 0 {
        let _known = public.statement.inputs.len();
        give_inputs(deep_inputs(public), tally)
    } else {
        Ok(())
    }
}

fn child_of_none(digest: &Word) -> [Felt; 6]
    ensures { result ≡ 0 ∷ digest.now ++ 0 ∷ [] }
{
    let [d0, d1, d2, d3] = digest.elements();
    [Felt::ZERO, d0, d1, d2, d3, Felt::ZERO]
}
