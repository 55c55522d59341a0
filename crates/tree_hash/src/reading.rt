ghost use Rattle.std.specs.Prelude.{◌≡◌, IfOk};
ghost use Rattle.tree_hash.specs.Nodes.{elements_of};

use crate::batch::ReadBatch;
use op_pack::Batches;
use std::alloc::Global;
use vm_field::Memory;

// Batches with their operations, so that none is read again where it is executed again.
pub(crate) fn read_batches(alloc: Global, batches: &Batches) -> Result<Vec<ReadBatch>, Memory>
    ensures elements { IfOk result (λ read. elements_of read.items ≡ batches.now) }
{
    let batches = batches.as_slice();
    let mut read = Vec::with_capacity(alloc, batches.len())?;
    for batch in batches {
        read.push(ReadBatch::of(alloc, batch)?)?;
    }
    Ok(read)
}
