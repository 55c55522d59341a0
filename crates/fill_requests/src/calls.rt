ghost use Rattle.std.specs.Prelude.{◌≡◌, ◌++◌, [], ◌∷◌, take, if◌then◌else◌, OnOk};
ghost use Rattle.vm_ops.specs.declared.op.Op.TheVariants as ops;
ghost use Rattle.air_kit.specs.Flags.{is_op};

use crate::same::is_op;
use machine_cycles::Event;
use vm_field::{Felt, Memory, Word, Words};
use vm_ops::Op;

// Adds the digest that an event calls, if it is a syscall.
pub(crate) fn push_call(calls: &mut Words, event: &Event) -> Result<(), Memory>
    ensures { OnOk result (calls.new ≡ calls.old ++ (if is_op event.now.op ops.Syscall then take 4 event.now.hash ∷ [] else [])) }
{
    if is_op(event.op, Op::Syscall) {
        return calls.push(first_word(&event.hash));
    }
    Ok(())
}

// The first four elements.
#[tactic(auto, using(crate::proofs::Elements::first_four))]
fn first_word(hash: &[Felt; 8]) -> Word
    ensures { result ≡ take 4 hash.now }
{
    Word([hash[0], hash[1], hash[2], hash[3]])
}
