use crate::making::{Change, are_within, public, trace};
use crate::runs::Named;
use air_kit::{Fault, Public, TableName, Trace};
use checker::{FaultRows, faults_by_row, has_counts};
use std::alloc::Global;
use std::test::Fail;
use vm_field::Memory;

// A place: the table, the row and the number of its first entry that is not 0.
type Place = (TableName, u32, u16);

// One cell of each of four tables. Each but that of memory has two rows refused.
static CHANGES: [Change; 4] = [
    // a cell of the last row, which HALT keeps and the outputs say
    Change {
        table: TableName::Main,
        cell: (3, 45, 1),
    },
    // the last value, which is 65535, behind 65532
    Change {
        table: TableName::Range,
        cell: (37, 1, 65536),
    },
    // the result of a bitwise operation's sixth row, which the seventh goes on from
    Change {
        table: TableName::Bitwise,
        cell: (5, 11, 1),
    },
    // an element of a word that is read a second time
    Change {
        table: TableName::Memory,
        cell: (1, 7, 1),
    },
];

// The rows that are refused then.
static REFUSED: [Place; 7] = [
    (TableName::Main, 2, 134),
    (TableName::Main, 3, 59),
    (TableName::Range, 36, 3),
    (TableName::Range, 37, 2),
    (TableName::Bitwise, 4, 16),
    (TableName::Bitwise, 5, 16),
    (TableName::Memory, 0, 17),
];

// How many are asked for: none, some, all, and more than there are.
static MOST: [usize; 6] = [0, 1, 2, 6, 7, 8];

fn is_at(found: &Fault, place: &Place) -> bool {
    found.table == place.0 && found.row == place.1 && found.number == place.2
}

// Whether these are the first of the places, no more than so many, and all of them are counted.
fn are_first(found: &FaultRows, places: &[Place], most: usize) -> bool {
    if found.rows != places.len() || found.told.len() != most.min(places.len()) {
        return false;
    }
    let mut all = true;
    for (fault, place) in found.told.iter().zip(places) {
        all = is_at(fault, place) && all;
    }
    all
}

// Whether the rows of a trace that are refused are these, however many are asked for.
fn tells(alloc: Global, trace: &Trace, public: &Public, places: &[Place]) -> Result<bool, Memory> {
    if !has_counts(trace) {
        return Ok(false);
    }
    let mut all = true;
    for most in &MOST {
        let found = faults_by_row(alloc, trace, public, *most)?;
        all = are_first(&found, places, *most) && all;
    }
    Ok(all)
}

// Whether the trace has these cells changed, and these rows refused.
fn refuses(alloc: Global, changes: &[Change], places: &[Place]) -> Result<bool, Memory> {
    let run = Named::NothingAsked.run();
    let public = public(alloc, &run, false)?;
    let trace = trace(alloc, &run, false, changes)?;
    Ok(are_within(&trace, changes) && tells(alloc, &trace, &public, places)?)
}

#[test]
fn the_rows_that_are_refused_are_told(rt: HostRuntime) -> Result<(), Fail> {
    assert!(rt; refuses(rt.alloc(), &CHANGES, &REFUSED)?);
    Ok(())
}

#[test]
fn no_row_of_a_good_trace_is_refused(rt: HostRuntime) -> Result<(), Fail> {
    assert!(rt; refuses(rt.alloc(), &[], &[])?);
    Ok(())
}
