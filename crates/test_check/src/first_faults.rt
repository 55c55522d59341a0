ghost use Rattle.std.specs.Prelude.{◌≤◌};

use crate::making::{Change, are_within, public, trace};
use crate::runs::Named;
use air_kit::{Fault, Public, TableName, Trace};
use checker::{check_rows, has_counts};
use std::alloc::Global;
use std::test::Fail;
use std::thread::Threads;
use vm_field::Memory;
use vm_io::OpenGate;

/// Cells that are changed, and the table, row and number of the first fault that the trace then has.
struct Case {
    changes: &'static [Change],
    fault: Option<(TableName, u32, u16)>,
}

// A case is a line: the cells that are changed, each with its table, row, column and value, and the fault.
macro_rules! cases {
    ($([$($table:ident $row:literal $column:literal $value:literal)?] => $fault:ident $($at:literal $number:literal)?;)*) => {
        [$(Case {
            changes: &[$(Change {
                table: TableName::$table,
                cell: ($row, $column, $value),
            })?],
            fault: cases!(@fault $fault $($at $number)?),
        }),*]
    };
    (@fault none) => {
        None
    };
    (@fault $table:ident $row:literal $number:literal) => {
        Some((TableName::$table, $row, $number))
    };
}

static CASES: [Case; 8] = cases! {
    // nothing that is changed
    [] => none;
    // the positions that are left behind SPAN
    [Main 1 25 1] => Main 0 105;
    // a cell that changes behind END
    [Main 3 45 1] => Main 2 134;
    // the first value of the range table
    [Range 0 1 1] => Range 0 1;
    // its last value, which is 65535
    [Range 37 1 65536] => Range 36 3;
    // an element of the third state of a permutation
    [Hasher 3 8 1] => Hasher 2 23;
    // the result of a bitwise operation's sixth row
    [Bitwise 5 11 1] => Bitwise 4 16;
    // an element of a word that is read a second time
    [Memory 1 7 1] => Memory 0 17;
};

fn is_fault(found: &Option<Fault>, fault: Option<(TableName, u32, u16)>) -> bool {
    match (found, fault) {
        (Some(found), Some((table, row, number))) => {
            found.table == table && found.row == row && found.number == number
        }
        (None, None) => true,
        _ => false,
    }
}

// Whether a case's trace has the cells that are changed, and the case's fault as its first, in so many pieces.
fn is_first(
    rt: &(impl Threads + Sync),
    trace: &Trace,
    public: &Public,
    pieces: usize,
    case: &Case,
) -> bool
    requires { (1 ≤ pieces) × (pieces ≤ 64) }
{
    are_within(trace, case.changes)
        && has_counts(trace)
        && is_fault(
            &check_rows(rt, trace, public, pieces, &OpenGate),
            case.fault,
        )
}

// Whether it is, in each number of pieces that there may be.
fn finds(rt: &(impl Threads + Sync), alloc: Global, case: &Case) -> Result<bool, Memory> {
    let run = Named::NothingAsked.run();
    let public = public(alloc, &run, false)?;
    let trace = trace(alloc, &run, false, case.changes)?;
    let mut all = true;
    for pieces in 1..65usize {
        all = is_first(rt, &trace, &public, pieces, case) && all;
    }
    Ok(all)
}

fn finds_all(rt: &(impl Threads + Sync), alloc: Global, cases: &[Case]) -> Result<bool, Memory> {
    let mut all = true;
    for case in cases {
        all = finds(rt, alloc, case)? && all;
    }
    Ok(all)
}

#[test]
fn the_first_fault_is_found(rt: HostRuntime) -> Result<(), Fail> {
    assert!(rt; finds_all(&rt, rt.alloc(), &CASES)?);
    Ok(())
}
