ghost use Rattle.std.specs.Prelude.{◌≡◌, drop};
ghost use Rattle.air_kit.specs.DeepCells.{input_key};

use crate::trace::Public;
use vm_field::{Felt, LEAST_DEPTH};

/// The inputs that lie below the sixteenth cell at the start.
pub fn deep_inputs(public: &Public) -> &[Felt]
    ensures { result.now ≡ drop 16 public.now.statement.inputs }
{
    let inputs = public.statement.inputs.as_slice();
    &inputs[inputs.len().min(LEAST_DEPTH)..]
}

/// The key under which the input of this number below the sixteenth cell stands, from 0 on: the prime less 1, then less 2, and so on.
#[tactic(auto, unfolding(crate::specs::DeepCells::input_key))]
pub fn input_key(number: u32) -> Felt
    ensures { result ≡ input_key number }
{
    Felt::ZERO - Felt::ONE - Felt::from_u32(number)
}
