use super::{Part, fault_of, row_of, with};
use std::alloc::Global;
use std::test::Fail;
use vm_field::{Felt, Memory};

macro_rules! cells {
    ($($column:literal = $cell:literal)*) => {
        [$(($column, $cell)),*]
    };
}

// U32ADD of 70,000 and 5: the limbs of both and of their sum.
static ADDS: [(usize, u64); 12] = cells! {
    10=1 11=1 12=1 13=1 30=70000 31=5 55=4464 56=1 57=5 59=4469 60=1 46=16
};

// The row behind it.
static ADDED: [(usize, u64); 2] = cells! {
    31=70005 46=16
};

// A cell of the row and one of the row behind it that are changed, and the fault: none where nothing is, an operand and then the
// other one without its limbs, the sum without its limbs and then its carry, and limbs of a sum that is one too much.
static FAULTS: [((usize, u64), (usize, u64), Option<(u16, u64)>); 6] = [
    ((46, 16), (46, 16), None),
    ((30, 70001), (46, 16), Some((140, 1))),
    ((31, 6), (46, 16), Some((141, 1))),
    ((46, 16), (31, 70006), Some((143, 1))),
    ((46, 16), (30, 1), Some((144, 1))),
    ((59, 4470), (31, 70006), Some((145, 18446744069414584320))),
];

// A row of these cells with a changed one.
fn row_with(cells: &[(usize, u64)], cell: &(usize, u64)) -> Option<[Felt; 65]> {
    with(row_of(cells)?, cell)
}

fn faults_are(
    alloc: Global,
    faults: &[((usize, u64), (usize, u64), Option<(u16, u64)>)],
) -> Result<bool, Memory> {
    for (here, behind, fault) in faults {
        let Some(cur) = row_with(&ADDS, here) else {
            return Ok(false);
        };
        let Some(next) = row_with(&ADDED, behind) else {
            return Ok(false);
        };
        if fault_of(alloc, Part::Limbs, &cur, &next)? != *fault {
            return Ok(false);
        }
    }
    Ok(true)
}

#[test]
fn names_first_faults(rt: HostRuntime) -> Result<(), Fail> {
    assert!(rt; faults_are(rt.alloc(), &FAULTS)?);
    Ok(())
}
