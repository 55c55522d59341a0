ghost use Rattle.std.specs.Prelude.{◌≡◌, ◌<◌, ◌++◌, map, replicate, OnOk, All};
ghost use Rattle.vm_field.specs.Field.{prime};
ghost use Rattle.masm_expand.specs.Expansion.{plain, lit};

use vm_field::{Felt, Memory};
use vm_ops::{Item, Items, Op};

// The element of a number.
pub(crate) fn element(number: u64) -> Felt
    requires { number < prime }
    ensures { result ≡ number }
{
    match Felt::try_from_u64(number) {
        Ok(element) => element,
        Err(_) => unreachable!(),
    }
}

// PAD for 0, else PUSH.
pub(crate) fn literal(value: Felt) -> Item
    ensures { result ≡ lit value }
{
    if value.value() == 0 {
        Item::plain(Op::Pad)
    } else {
        Item::push(value)
    }
}

// Adds operations with no immediate.
pub(crate) fn add_plain(items: &mut Items, operations: &[Op]) -> Result<(), Memory>
    ensures { OnOk result (items.new ≡ items.old ++ plain operations.now) }
{
    for operation in operations {
        items.push(Item::plain(*operation))?;
    }
    Ok(())
}

// Adds an operation so many times.
pub(crate) fn add_times(items: &mut Items, times: u128, operation: Op) -> Result<(), Memory>
    ensures { OnOk result (items.new ≡ items.old ++ plain (replicate times operation)) }
{
    for _ in 0..times {
        items.push(Item::plain(operation))?;
    }
    Ok(())
}

// Adds the numbers, each of which is that of an element.
pub(crate) fn add_literals(items: &mut Items, numbers: &[u128]) -> Result<(), Memory>
    requires { All (λ n. n < prime) numbers.now }
    ensures { OnOk result (items.new ≡ items.old ++ map lit numbers.now) }
{
    for number in numbers {
        items.push(literal(element(*number as u64)))?;
    }
    Ok(())
}
