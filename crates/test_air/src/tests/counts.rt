use air_kit::{TableName, Trace, has_counts, may_have};
use std::alloc::Global;
use std::test::Fail;
use vm_field::{Felt, Memory};
use vm_table::Table;

/// A table, and how many rows it may have or not.
struct Case {
    table: TableName,
    may: &'static [usize],
    may_not: &'static [usize],
}

macro_rules! cases {
    ($($table:ident [$($may:literal)*] [$($may_not:literal)*];)*) => {
        [$(Case {
            table: TableName::$table,
            may: &[$($may),*],
            may_not: &[$($may_not),*],
        }),*]
    };
}

// The least and the most rows of each table, one more, and ends inside of an operation.
static CASES: [Case; 7] = cases! {
    Main [1 2 524288] [0 524289];
    Range [1 2 131072] [0 131073];
    Hasher [0 8 4194304] [1 7 9 4194303 4194312];
    Bitwise [0 8 4194304] [1 7 9 4194303 4194312];
    Memory [0 1 524288] [524289];
    Kernel [0 1 255] [256];
    Left [0 1 524288 1048576] [1048577];
};

fn answers_all(cases: &[Case]) -> bool {
    for case in cases {
        let all = case.may.iter().all(|count| may_have(case.table, *count));
        let any = case
            .may_not
            .iter()
            .any(|count| may_have(case.table, *count));
        if !all || any {
            return false;
        }
    }
    true
}

// A trace with so many rows of zeros in its main table, one in the range table, and none elsewhere.
fn trace(alloc: Global, rows: usize) -> Result<Trace, Memory> {
    let mut main = Table::new(alloc);
    for _ in 0..rows {
        main.push_row(&[Felt::ZERO; 65])?;
    }
    let mut range = Table::new(alloc);
    range.push_row(&[Felt::ZERO; 2])?;
    Ok(Trace {
        main,
        range,
        hasher: Table::new(alloc),
        bitwise: Table::new(alloc),
        memory: Table::new(alloc),
        kernel: Table::new(alloc),
        left: Table::new(alloc),
    })
}

#[test]
fn each_table_has_its_limits(rt: HostRuntime) {
    assert!(rt; answers_all(&CASES));
}

#[test]
fn the_main_table_has_a_row(rt: HostRuntime) -> Result<(), Fail> {
    let alloc = rt.alloc();
    assert!(rt; has_counts(&trace(alloc, 1)?));
    assert!(rt; !has_counts(&trace(alloc, 0)?));
    Ok(())
}
