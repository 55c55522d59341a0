mod vectors;

use op_pack::{Batches, in_use, pack, packing_laws, types_cross, unpack};
use std::alloc::Global;
use std::test::Fail;
use vectors::{PACKED, READ};
use vm_field::{Felt, Memory};
use vm_ops::{Item, Items, from_opcode};

// The code of PUSH.
const PUSH: u64 = 69;

// The batch of these numbers; none where one is no element.
fn elements(numbers: &[u64; 8]) -> Option<[Felt; 8]> {
    let mut batch = [Felt::ZERO; 8];
    for i in 0..8 {
        batch[i] = Felt::try_from_u64(numbers[i]).ok()?;
    }
    Some(batch)
}

// The item of a number, which is an immediate or else a code.
fn item_of(number: u64, is_immediate: bool) -> Option<Item> {
    if is_immediate {
        return Some(Item::push(Felt::try_from_u64(number).ok()?));
    }
    Some(Item::plain(from_opcode(u8::try_from(number).ok()?)?))
}

// Operations by their codes, where the immediate stands behind the code of PUSH; none where a number is neither.
fn items_of(alloc: Global, codes: &[u64]) -> Result<Option<Items>, Memory> {
    let mut items = Items::new(alloc);
    let mut is_immediate = false;
    for code in codes {
        if !is_immediate && *code == PUSH {
            is_immediate = true;
            continue;
        }
        let Some(item) = item_of(*code, is_immediate) else {
            return Ok(None);
        };
        items.push(item)?;
        is_immediate = false;
    }
    Ok(Some(items))
}

// Whether these batches are those of these numbers.
fn are_batches(batches: &[[Felt; 8]], numbers: &[[u64; 8]]) -> bool {
    let mut same = batches.len() == numbers.len();
    for (batch, row) in batches.iter().zip(numbers) {
        same = same && Some(*batch) == elements(row);
    }
    same
}

// Whether operations are packed into these batches; none are not packed.
fn packs(alloc: Global, codes: &[u64], numbers: &[[u64; 8]]) -> Result<bool, Memory> {
    let Some(items) = items_of(alloc, codes)? else {
        return Ok(false);
    };
    if items.is_empty() {
        return Ok(false);
    }
    let packed = pack(alloc, items.as_slice())?;
    Ok(are_batches(packed.as_slice(), numbers))
}

#[test]
fn packs_operations(rt: HostRuntime) -> Result<(), Fail> {
    for row in &PACKED {
        assert_eq!(rt; packs(rt.alloc(), row.0, row.1)?, true);
    }
    Ok(())
}

// Whether a batch is read as these operations, or has no reading as wanted.
fn reads(alloc: Global, batch: &[Felt; 8], wanted: Option<&[u64]>) -> Result<bool, Memory> {
    match (unpack(alloc, batch)?, wanted) {
        (Some(items), Some(codes)) => {
            let Some(wanted) = items_of(alloc, codes)? else {
                return Ok(false);
            };
            Ok(items.as_slice() == wanted.as_slice())
        }
        (None, None) => Ok(true),
        _ => Ok(false),
    }
}

#[test]
fn reads_batches(rt: HostRuntime) -> Result<(), Fail> {
    for row in &READ {
        let batch = elements(&row.0).ok_or("no element")?;
        assert_eq!(rt; in_use(&batch), row.1);
        assert_eq!(rt; reads(rt.alloc(), &batch, row.2)?, true);
    }
    Ok(())
}

#[test]
fn keeps_batches(rt: HostRuntime) -> Result<(), Fail> {
    let first = [1, 2, 3, 4, 5, 6, 7, 8].map(Felt::from_u32);
    let mut batches = Batches::of(rt.alloc(), first)?;
    batches.push([Felt::ZERO; 8])?;
    let batches = batches.copy(rt.alloc())?;
    assert_eq!(rt; batches.len(), 2);
    assert_eq!(rt; *batches.at(0), first);
    assert_eq!(rt; batches.as_slice()[1], [Felt::ZERO; 8]);
    Ok(())
}

#[test]
fn states_laws() {
    packing_laws();
    types_cross();
}
