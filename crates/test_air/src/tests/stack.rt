use super::{Part, fault_of, row_of, with};
use std::alloc::Global;
use std::test::Fail;
use vm_field::{Felt, Memory};

macro_rules! cells {
    ($($column:literal = $cell:literal)*) => {
        [$(($column, $cell)),*]
    };
}

// INCR on the cells 10, 11, .., 25 at depth 16, and the row behind it.
static INCR: [(usize, u64); 18] = cells! {
    11=1 30=10 31=11 32=12 33=13 34=14 35=15 36=16 37=17 38=18 39=19 40=20 41=21 42=22 43=23 44=24 45=25 46=16
};

// A cell of the row and one of the next row that are changed, and the fault. With a bit of 2 the flag of NOOP is -1 and that of
// INCR 2, so that cell 0 has the value 2 (11 - 11) - (11 - 10).
static CHANGES: [((usize, u64), (usize, u64), Option<(u16, u64)>); 7] = [
    ((46, 16), (46, 16), None),
    ((46, 17), (46, 17), Some((115, 1))),
    ((46, 16), (46, 17), Some((116, 1))),
    ((46, 16), (47, 5), Some((118, 5))),
    ((46, 16), (30, 13), Some((119, 2))),
    ((46, 16), (45, 26), Some((134, 1))),
    ((11, 2), (46, 16), Some((119, 18446744069414584320))),
];

// The row of INCR with a changed cell.
fn row_with(cell: &(usize, u64)) -> Option<[Felt; 65]> {
    with(row_of(&INCR)?, cell)
}

// The row behind it with a changed cell.
fn next_with(cell: &(usize, u64)) -> Option<[Felt; 65]> {
    with(row_with(&(30, 11))?, cell)
}

fn faults_are(
    alloc: Global,
    changes: &[((usize, u64), (usize, u64), Option<(u16, u64)>)],
) -> Result<bool, Memory> {
    for (here, behind, fault) in changes {
        let Some(cur) = row_with(here) else {
            return Ok(false);
        };
        let Some(next) = next_with(behind) else {
            return Ok(false);
        };
        if fault_of(alloc, Part::Stack, &cur, &next)? != *fault {
            return Ok(false);
        }
    }
    Ok(true)
}

#[test]
fn names_first_faults(rt: HostRuntime) -> Result<(), Fail> {
    assert!(rt; faults_are(rt.alloc(), &CHANGES)?);
    Ok(())
}
