use super::{Part, fault_of, row_of, with};
use std::alloc::Global;
use std::test::Fail;
use vm_field::Memory;

// The code of DYN, 80, and that of SYSCALL, 75, as bits.
static DYN: [(usize, u64); 2] = [(13, 1), (15, 1)];

static SYSCALL: [(usize, u64); 4] = [(9, 1), (10, 1), (12, 1), (15, 1)];

// An element of the row, and its fault as a dynamic block's: the first and the last of those that have to be 0, one of those that
// other entries ask, and the cell on top of the stack.
static FAULTS: [((usize, u64), Option<(u16, u64)>); 4] = [
    ((16, 7), Some((148, 7))),
    ((19, 9), Some((151, 9))),
    ((20, 1), None),
    ((30, 5), None),
];

// Whether the row of a dynamic block has these faults, and that of a syscall none.
fn faults_are(
    alloc: Global,
    faults: &[((usize, u64), Option<(u16, u64)>)],
) -> Result<bool, Memory> {
    for (cell, fault) in faults {
        if !has_fault(alloc, &DYN, cell, *fault)? || !has_fault(alloc, &SYSCALL, cell, None)? {
            return Ok(false);
        }
    }
    Ok(true)
}

fn has_fault(
    alloc: Global,
    operation: &[(usize, u64)],
    cell: &(usize, u64),
    fault: Option<(u16, u64)>,
) -> Result<bool, Memory> {
    let Some(bits) = row_of(operation) else {
        return Ok(false);
    };
    match with(bits, cell) {
        Some(row) => Ok(fault_of(alloc, Part::Dynamic, &row, &row)? == fault),
        None => Ok(false),
    }
}

#[test]
fn a_dynamic_block_shows_zeros(rt: HostRuntime) -> Result<(), Fail> {
    assert!(rt; faults_are(rt.alloc(), &FAULTS)?);
    Ok(())
}
