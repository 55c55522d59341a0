ghost use Rattle.std.specs.Prelude.{◌≡◌, IfOk, is_some};
ghost use Rattle.op_pack.specs.Reading.{IsBatch, reading};

use op_pack::unpack;
use std::alloc::Global;
use vm_field::{Felt, Memory, known_elements};
use vm_ops::Items;

/// A batch, and whether it has a reading.
#[derive(Clone, Copy, Drop)]
pub struct Batch {
    pub elements: [Felt; 8],
    pub is_read: bool,
    pub ghost read: { is_read ≡ is_some (reading elements) },
}

/// A batch with its operations, if it has a reading.
#[derive(Drop)]
pub struct ReadBatch {
    pub elements: [Felt; 8],
    pub items: Option<Items>,
    pub ghost read: { items ≡ reading elements },
    pub ghost is_batch: { IsBatch elements },
}

impl ReadBatch {
    // A batch as it is read.
    pub(crate) fn of(alloc: Global, elements: &[Felt; 8]) -> Result<ReadBatch, Memory>
        ensures elements { IfOk result (λ batch. batch.elements ≡ elements.now) }
    {
        known_elements(elements);
        Ok(ReadBatch {
            elements: *elements,
            items: unpack(alloc, elements)?,
        })
    }

    /// The batch without its operations.
    pub fn shown(&self) -> Batch
        ensures elements { result.elements ≡ self.now.elements }
    {
        Batch {
            elements: self.elements,
            is_read: self.items.is_some(),
        }
    }
}
