ghost use Rattle.std.specs.Prelude.{◌≡◌, ◌↔◌, ◌<◌, ◌++◌, [], ◌∷◌, length, IsTrue, IfOk, OnOk};
ghost use Rattle.vm_field.specs.Machine.{zero_word};
ghost use Rattle.vm_field.specs.Sponge.{hashed};
ghost use Rattle.vm_ops.specs.Codes.{code_of};
ghost use Rattle.rpo_hash.specs.Constants.{constants_of};
ghost use Rattle.test_merge.specs.Hashes.{AreZeros, hasher_rows, rows_of, zeros};

use air_kit::Trace;
use op_pack::Batches;
use rpo_hash::{Params, digest_of};
use std::alloc::Global;
use vm_field::{Felt, Memory};
use vm_ops::{Op, opcode};
use vm_table::Table;

/// Constants that are all 0.
pub const NO_CONSTANTS: Params = Params {
    first: [[Felt::ZERO; 12]; 7],
    second: [[Felt::ZERO; 12]; 7],
};

const ZEROS: [Felt; 8] = [Felt::ZERO; 8];

/// Whether the digests of one batch of zeros and of two are zeros.
pub fn are_zeros(params: &Params) -> bool
    ensures { IsTrue result → AreZeros (constants_of params.now) }
{
    is_zero(params, &[ZEROS]) && is_zero(params, &[ZEROS, ZEROS])
}

fn is_zero(params: &Params, blocks: &[[Felt; 8]]) -> bool
    requires { 0 < length blocks.now }
    ensures { IsTrue result ↔ (hashed (constants_of params.now) 0 blocks.now ≡ zero_word) }
{
    digest_of(params, Felt::ZERO, blocks).elements() == [Felt::ZERO; 4]
}

// One batch of zeros.
pub fn one(alloc: Global) -> Result<Batches, Memory>
    ensures { IfOk result (λ batches. batches ≡ zeros ∷ []) }
{
    Batches::of(alloc, ZEROS)
}

// Two batches of zeros.
pub fn two(alloc: Global) -> Result<Batches, Memory>
    ensures { IfOk result (λ batches. batches ≡ zeros ∷ zeros ∷ []) }
{
    let mut batches = Batches::of(alloc, ZEROS)?;
    batches.push(ZEROS)?;
    Ok(batches)
}

// The eight rows of a permutation, as far as they are read.
fn permutation(hasher: &mut Table<15>, cont: Felt, more: Felt, domain: Felt) -> Result<(), Memory>
    ensures { OnOk result (hasher.new ≡ hasher.old ++ rows_of cont more domain) }
{
    let mut row = [Felt::ZERO; 15];
    row[1] = cont;
    row[2] = more;
    row[4] = domain;
    hasher.push_row(&row)?;
    hasher.push_row(&row)?;
    hasher.push_row(&row)?;
    hasher.push_row(&row)?;
    hasher.push_row(&row)?;
    hasher.push_row(&row)?;
    hasher.push_row(&row)?;
    hasher.push_row(&row)?;
    Ok(())
}

fn domain(op: Op) -> Felt
    ensures { result ≡ code_of op }
{
    Felt::reduced(u128::from(opcode(op)))
}

fn hasher(alloc: Global) -> Result<Table<15>, Memory>
    ensures { IfOk result (λ rows. rows ≡ hasher_rows) }
{
    let mut hasher = Table::new(alloc);
    permutation(&mut hasher, Felt::ZERO, Felt::ZERO, Felt::ZERO)?;
    permutation(&mut hasher, Felt::ZERO, Felt::ZERO, Felt::ZERO)?;
    permutation(&mut hasher, Felt::ZERO, Felt::ONE, Felt::ZERO)?;
    permutation(&mut hasher, Felt::ONE, Felt::ZERO, Felt::ZERO)?;
    permutation(&mut hasher, Felt::ZERO, Felt::ZERO, domain(Op::Split))?;
    permutation(&mut hasher, Felt::ZERO, Felt::ZERO, domain(Op::Loop))?;
    permutation(&mut hasher, Felt::ZERO, Felt::ZERO, domain(Op::Dyn))?;
    Ok(hasher)
}

/// A trace of which only the hasher's table has rows.
pub fn trace(alloc: Global) -> Result<Trace, Memory>
    ensures { IfOk result (λ trace. trace.hasher ≡ hasher_rows) }
{
    Ok(Trace {
        main: Table::new(alloc),
        range: Table::new(alloc),
        hasher: hasher(alloc)?,
        bitwise: Table::new(alloc),
        memory: Table::new(alloc),
        kernel: Table::new(alloc),
        left: Table::new(alloc),
    })
}
