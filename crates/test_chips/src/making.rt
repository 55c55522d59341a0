ghost use Rattle.std.specs.Prelude.{◌≡◌, ◌%◌};
ghost use Rattle.vm_field.specs.Field.{prime};

use air_kit::Public;
use rpo_hash::Params;
use std::alloc::Global;
use vm_field::{Felt, Felts, Memory, Word, Words};
use vm_state::Statement;

/// Constants that are all 0.
pub const NO_CONSTANTS: Params = Params {
    first: [[Felt::ZERO; 12]; 7],
    second: [[Felt::ZERO; 12]; 7],
};

/// The element of a number.
pub fn felt(number: u64) -> Felt
    ensures { result ≡ number % prime }
{
    Felt::reduced(u128::from(number))
}

/// Constants of zeros, and a statement without a kernel.
pub fn public(alloc: Global) -> Result<Public, Memory> {
    let outputs = Felts::copied(alloc, &[Felt::ZERO; 16])?;
    let statement = Statement::new(Word::ZERO, Words::new(alloc), Felts::new(alloc), outputs);
    Ok(Public {
        params: NO_CONSTANTS,
        statement,
    })
}
