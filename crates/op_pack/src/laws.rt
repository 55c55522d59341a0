ghost use Rattle.std.specs.Prelude.{◌≡◌, ◌≢◌, ℕ, List, [], All, Some};
ghost use Rattle.op_pack.specs.Packing.{IsPackable, packed};
ghost use Rattle.op_pack.specs.Reading.{IsBatch, reading};
ghost use Rattle.op_pack.specs.RoundTrip.{IsReadAs, read_batches};
ghost use Rattle.vm_ops.specs.Items.{IsOrdinaryItem};
ghost use Rattle.vm_ops.specs.declared.item.Item.{Item};

use crate::batches::Batches;

/// The laws of packing: operations that can be packed make one batch or more of eight elements
/// each, which, read one after another, are these operations up to NOOPs; and what a batch is read
/// as are ordinary items.
pub fn packing_laws()
    ensures read_back { (items : List Item) → IsPackable items
        → IsReadAs (read_batches (packed items)) items }
    ensures batches { (items : List Item) → IsPackable items → All IsBatch (packed items) }
    ensures some { (items : List Item) → items ≢ [] → packed items ≢ [] }
    ensures ordinary { (batch : List ℕ) (items : List Item) → IsBatch batch
        → reading batch ≡ Some items → All IsOrdinaryItem items }
{}

fn crosses<T: Send + Sync>() {}

/// Batches may be sent to other threads and read by several.
pub fn types_cross() {
    crosses::<Batches>();
}
