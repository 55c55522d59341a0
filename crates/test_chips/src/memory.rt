use crate::making::{felt, public};
use air_kit::Place;
use air_memory::first_fault;
use std::alloc::Global;
use std::test::Fail;
use vm_field::{Felt, Memory};
use vm_table::Table;

fn row(numbers: &[u64; 14]) -> [Felt; 14] {
    let mut row = [Felt::ZERO; 14];
    for i in 0..14 {
        row[i] = felt(numbers[i]);
    }
    row
}

// The fault of the first of two rows that stand at a number.
fn fault(
    alloc: Global,
    number: u32,
    first: &[u64; 14],
    second: &[u64; 14],
) -> Result<Option<(u16, u64)>, Memory> {
    let mut table = Table::<14>::new(alloc);
    table.push_row(&row(first))?;
    table.push_row(&row(second))?;
    let place = Place {
        cur: table.row(0),
        next: Some(table.row(1)),
        row: number,
        lengths: [0; 7],
        left_key: Felt::ZERO,
        public: &public(alloc)?,
    };
    Ok(first_fault(&place).map(|(number, value)| (number, value.value())))
}

// Address 5 of context 0 is written at clock 3, read at clock 7, and its element 0 written at clock 10.
static WRITES: [u64; 14] = [1, 0, 5, 3, 1, 2, 3, 4, 1, 0, 0, 0, 5, 0];

static READS: [u64; 14] = [0, 0, 5, 7, 1, 2, 3, 4, 0, 0, 3, 0, 5, 0];

static STORES: [u64; 14] = [2, 0, 5, 10, 9, 2, 3, 4, 0, 0, 2, 0, 5, 0];

// The same where the write is the one at clock 7.
static WRITES_LATER: [u64; 14] = [1, 0, 5, 7, 1, 2, 3, 4, 1, 0, 0, 0, 5, 0];

static READS_EARLIER: [u64; 14] = [0, 0, 5, 3, 1, 2, 3, 4, 0, 0, 3, 0, 5, 0];

// An access of kind 3, an address that is not that of its limbs, and a read at once of what is not zero.
static OF_KIND_3: [u64; 14] = [3, 0, 5, 3, 1, 2, 3, 4, 1, 0, 0, 0, 5, 0];

static OF_OTHER_LIMBS: [u64; 14] = [1, 0, 65541, 3, 1, 2, 3, 4, 1, 0, 0, 0, 5, 0];

static READS_AT_ONCE: [u64; 14] = [0, 0, 5, 3, 0, 2, 3, 4, 1, 0, 0, 0, 5, 0];

// A read of address 131077, which grows by 131072, that shows zeros, or the word of another address.
static READS_ZEROS: [u64; 14] = [0, 0, 131077, 1, 0, 0, 0, 0, 0, 1, 65535, 1, 5, 2];

static READS_OTHERS: [u64; 14] = [0, 0, 131077, 1, 1, 2, 3, 4, 0, 1, 65535, 1, 5, 2];

// A store that does not keep element 3.
static STORES_TWICE: [u64; 14] = [2, 0, 5, 10, 9, 2, 3, 5, 0, 0, 2, 0, 5, 0];

fn is_fault(
    alloc: Global,
    number: u32,
    first: &[u64; 14],
    second: &[u64; 14],
    wanted: Option<(u16, u64)>,
) -> Result<bool, Memory> {
    Ok(fault(alloc, number, first, second)? == wanted)
}

// Rows that follow one another as they may.
fn have_none(alloc: Global) -> Result<bool, Memory> {
    Ok(
        is_fault(alloc, 0, &WRITES, &READS, None)?
            && is_fault(alloc, 1, &READS, &STORES, None)?
            && is_fault(alloc, 0, &WRITES, &READS_ZEROS, None)?,
    )
}

// Rows that are wrong by themselves, or as the first one.
fn begin_wrongly(alloc: Global) -> Result<bool, Memory> {
    let not_zero = Some((11, 18446744069414584319));
    Ok(
        is_fault(alloc, 0, &OF_KIND_3, &READS, Some((1, 6)))?
            && is_fault(alloc, 0, &OF_OTHER_LIMBS, &READS, Some((5, 65536)))?
            && is_fault(alloc, 0, &READS, &STORES, Some((6, 1)))?
            && is_fault(alloc, 0, &READS_AT_ONCE, &READS, not_zero)?,
    )
}

// Rows of which the second is wrong behind the first one.
fn go_on_wrongly(alloc: Global) -> Result<bool, Memory> {
    let earlier = Some((9, 18446744069414584313));
    Ok(
        is_fault(alloc, 0, &WRITES_LATER, &READS_EARLIER, earlier)?
            && is_fault(alloc, 0, &WRITES, &READS_OTHERS, Some((14, 2)))?
            && is_fault(alloc, 1, &READS, &STORES_TWICE, Some((17, 1)))?,
    )
}

#[test]
fn names_first_faults(rt: HostRuntime) -> Result<(), Fail> {
    assert!(rt; have_none(rt.alloc())?);
    assert!(rt; begin_wrongly(rt.alloc())?);
    assert!(rt; go_on_wrongly(rt.alloc())?);
    Ok(())
}
