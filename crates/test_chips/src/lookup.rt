use crate::making::{NO_CONSTANTS, felt};
use air_kit::{Place, Public};
use air_lookup::{first_fault_kernel, first_fault_range};
use std::alloc::Global;
use std::test::Fail;
use vm_field::{Felt, Felts, Memory, Word, Words};
use vm_state::Statement;
use vm_table::Table;

fn row<const W: usize>(numbers: &[u64; W]) -> [Felt; W] {
    let mut row = [Felt::ZERO; W];
    for i in 0..W {
        row[i] = felt(numbers[i]);
    }
    row
}

// A kernel of the digest 1, 2, 3, 4.
fn statement(alloc: Global) -> Result<Statement, Memory> {
    let kernel = Words::copied(alloc, &[Word(row(&[1, 2, 3, 4]))])?;
    let outputs = Felts::copied(alloc, &[Felt::ZERO; 16])?;
    let statement = Statement::new(Word::ZERO, kernel, Felts::new(alloc), outputs);
    Ok(statement)
}

fn public(alloc: Global) -> Result<Public, Memory> {
    Ok(Public {
        params: NO_CONSTANTS,
        statement: statement(alloc)?,
    })
}

fn numbers(fault: Option<(u16, Felt)>) -> Option<(u16, u64)> {
    let (number, value) = fault?;
    Some((number, value.value()))
}

fn range_fault(
    alloc: Global,
    row: u32,
    value: u64,
    next: Option<u64>,
) -> Result<Option<(u16, u64)>, Memory> {
    let mut table = Table::<2>::new(alloc);
    table.push_row(&[Felt::ZERO, felt(value)])?;
    table.push_row(&[Felt::ZERO, felt(next.unwrap_or(0))])?;
    let place = Place {
        cur: table.row(0),
        next: if next.is_some() {
            Some(table.row(1))
        } else {
            None
        },
        row,
        lengths: [0; 7],
        left_key: Felt::ZERO,
        public: &public(alloc)?,
    };
    Ok(numbers(first_fault_range(&place)))
}

fn kernel_fault(
    alloc: Global,
    number: u32,
    digest: &[u64; 5],
) -> Result<Option<(u16, u64)>, Memory> {
    let mut table = Table::<5>::new(alloc);
    table.push_row(&row(digest))?;
    let place = Place {
        cur: table.row(0),
        next: None,
        row: number,
        lengths: [0; 7],
        left_key: Felt::ZERO,
        public: &public(alloc)?,
    };
    Ok(numbers(first_fault_kernel(&place)))
}

// A row's number, its value, the next one, and the fault. 12 behind 10 is a step of 2, whose value is
// 2 (2 - 1) (2 - 3) (2 - 9) (2 - 27) (2 - 81) (2 - 243) (2 - 729) (2 - 2187).
static STEPS: [(u32, u64, Option<u64>, Option<(u16, u64)>); 5] = [
    (0, 0, Some(2187), None),
    (9, 65535, None, None),
    (0, 5, Some(5), Some((1, 5))),
    (9, 65534, None, Some((2, 18446744069414584320))),
    (9, 10, Some(12), Some((3, 18446733484239877571))),
];

fn steps_are(
    alloc: Global,
    steps: &[(u32, u64, Option<u64>, Option<(u16, u64)>)],
) -> Result<bool, Memory> {
    for (row, value, next, fault) in steps {
        if range_fault(alloc, *row, *value, *next)? != *fault {
            return Ok(false);
        }
    }
    Ok(true)
}

// A row's number, its cells, and the fault. Behind the kernel's only digest zeros are expected.
static DIGESTS: [(u32, [u64; 5], Option<(u16, u64)>); 4] = [
    (0, [1, 2, 3, 4, 9], None),
    (0, [1, 3, 2, 4, 9], Some((2, 1))),
    (1, [0, 0, 0, 0, 9], None),
    (1, [1, 2, 3, 4, 9], Some((1, 1))),
];

fn digests_are(
    alloc: Global,
    rows: &[(u32, [u64; 5], Option<(u16, u64)>)],
) -> Result<bool, Memory> {
    for (number, cells, fault) in rows {
        if kernel_fault(alloc, *number, cells)? != *fault {
            return Ok(false);
        }
    }
    Ok(true)
}

#[test]
fn names_first_faults(rt: HostRuntime) -> Result<(), Fail> {
    assert!(rt; steps_are(rt.alloc(), &STEPS)?);
    assert!(rt; digests_are(rt.alloc(), &DIGESTS)?);
    Ok(())
}
