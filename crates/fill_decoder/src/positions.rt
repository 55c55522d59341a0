ghost use Rattle.std.specs.Prelude.{◌≡◌, drop, take, IfOk};
ghost use Rattle.op_pack.specs.Reading.{positions_in_use};

use crate::stack::Stack;
use op_pack::in_use;
use std::alloc::Global;
use vm_field::{Felt, Memory};

// The positions in use of a batch behind its first one.
pub(crate) fn positions_of(alloc: Global, batch: &[Felt; 8]) -> Result<Stack<Felt>, Memory>
    ensures { IfOk result (λ positions. positions ≡ drop 1 (take (positions_in_use batch.now) batch.now)) }
{
    let elements = &batch[..];
    stacked(alloc, &elements[1..in_use(batch)])
}

// These elements.
fn stacked(alloc: Global, elements: &[Felt]) -> Result<Stack<Felt>, Memory>
    ensures { IfOk result (λ stack. stack ≡ elements.now) }
{
    let mut stack = Stack::new(alloc);
    for i in (0..elements.len()).rev() {
        stack.push(elements[i])?;
    }
    Ok(stack)
}
