ghost use Rattle.std.specs.Prelude.{◌≡◌, ◌-◌, ◌^◌, ◌≤◌, [], length, OnOk};
ghost use Rattle.bus_kit.specs.Widths.{tallied};
ghost use Rattle.bus_kit.specs.Adding.{CanCount, IsCounted};
ghost use Rattle.air_kit.specs.DeepCells.{cell_tuples, input_keys, key_of, keys_at_start};

use air_kit::input_key;
use bus_kit::{Tally, give};
use vm_field::{Felt, Memory};

/// Gives the inputs that lie below the sixteenth cell, each with its key and that of the one below it.
pub(crate) fn give_inputs(inputs: &[Felt], tally: &mut Tally<3>) -> Result<(), Memory>
    requires few { length inputs.now ≤ 2 ^ 20 }
    requires room { CanCount (tallied tally.old) }
    ensures { OnOk result (IsCounted (2 ^ 20) (tallied tally.old) (tallied tally.new) []
        (cell_tuples (keys_at_start (length inputs.now)) inputs.now)) }
{
    let count = inputs.len() as u32;
    for i in 0..count {
        let tuple = [input_key(i), inputs[i as usize], key_from(i + 1, count)];
        give(tally, &tuple)?;
    }
    Ok(())
}

// The key of the input of this number of so many; 0 behind the last one.
#[tactic(auto, using(crate::proofs::InputLemmas::key_here, crate::proofs::InputLemmas::key_behind))]
fn key_from(number: u32, count: u32) -> Felt
    ensures { result ≡ key_of (input_keys number (count - number)) }
{
    if number < count {
        input_key(number)
    } else {
        Felt::ZERO
    }
}
