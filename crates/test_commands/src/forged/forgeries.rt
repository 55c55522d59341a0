use super::shelf::{checked, put_trace, ran, set, trace_in};
use air_kit::Trace;
use std::alloc::Global;
use std::process::Abort;
use std::test::Fail;
use std::thread::Threads;
use vm_field::Memory;
use vm_io::MemShelf;
use vm_table::Table;

// A change of a trace, or of its statement.
enum Change {
    // A cell of the main table: its row, its column, the number.
    Main(usize, usize, u64),
    // One of the range table.
    Range(usize, usize, u64),
    // One of the hasher's table.
    Hasher(usize, usize, u64),
    // One of the table of cells that are left.
    Left(usize, usize, u64),
    // No cell is left.
    NoneLeft,
    // The statement is this text.
    Statement(&'static str),
    // The statement claims one output less, which is 0.
    OneOutputLess,
}

// A program without inputs, the changes of what its run writes, and what `check` prints then.
struct Forgery {
    source: &'static str,
    changes: &'static [Change],
    printed: &'static str,
}

// The statement of `begin end`, but for an output.
const OTHER_OUTPUT: &str =
    r#"{"digest":"0000000000000000000000000000000000000000000000000000000000000000","inputs":[],"kernel":[],"outputs":[1,0,0,0,0,0,0,0,0,0,0,0,0,0,0,0]}"#;

// The same, but for the digest.
const OTHER_DIGEST: &str =
    r#"{"digest":"0000000000000001000000000000000000000000000000000000000000000000","inputs":[],"kernel":[],"outputs":[0,0,0,0,0,0,0,0,0,0,0,0,0,0,0,0]}"#;

// A forgery is a line: the program, the changes and what is printed.
macro_rules! forgeries {
    ($($source:literal [$($change:ident $(($($of:tt)*))?),*] => $printed:literal;)*) => {
        [$(Forgery {
            source: $source,
            changes: &[$(Change::$change $(($($of)*))?),*],
            printed: $printed,
        }),*]
    };
}

static FORGERIES: [Forgery; 7] = forgeries! {
    // The key of the second cell that is left is not that of the cell's push.
    "begin push.2 push.3 add push.7 end" [Left(1, 0, 2)] => "refused bus overflow tuple 1 0 0 asked 0 given 1\n";
    // A batch of two NEGs is left behind the first.
    "begin neg end" [Main(0, 16, 258), Main(1, 16, 258), Main(1, 54, 0)] => "refused main row 1 constraint 107 value 256\n";
    // Another output is claimed.
    "begin end" [Statement(OTHER_OUTPUT)] => "refused main row 3 constraint 44 value 18446744069414584320\n";
    // Another program is claimed.
    "begin end" [Statement(OTHER_DIGEST)] => "refused bus children tuple 0 0 0 0 0 0 asked 1 given 0\n";
    // The output of a permutation is not what its rounds come to.
    "begin end" [Hasher(7, 7, 1)] => "refused hasher row 6 constraint 22 value 1\n";
    // A value of the range table is counted that nothing asks for.
    "begin end" [Range(1, 0, 1)] => "refused bus range tuple 729 asked 0 given 1\n";
    // Behind a call the caller's cells below the sixteenth are gone.
    "proc.f push.1 add end begin push.9 call.f end" [
        Main(11, 46, 16), Main(11, 47, 0), Main(11, 48, 0), Main(12, 46, 16), Main(12, 47, 0), Main(12, 48, 0), NoneLeft, OneOutputLess
    ] => "refused bus blocks tuple 17 1 3 0 1073741824 0 16 0 0 0 0 0 asked 1 given 0\n";
};

// Whether there was what is changed; a statement is no part of the trace.
fn change_trace(alloc: Global, trace: &mut Trace, change: &Change) -> bool {
    match change {
        Change::Main(row, column, number) => set(&mut trace.main, *row, *column, *number),
        Change::Range(row, column, number) => set(&mut trace.range, *row, *column, *number),
        Change::Hasher(row, column, number) => set(&mut trace.hasher, *row, *column, *number),
        Change::Left(row, column, number) => set(&mut trace.left, *row, *column, *number),
        Change::NoneLeft => {
            trace.left = Table::new(alloc);
            true
        }
        Change::Statement(_) | Change::OneOutputLess => true,
    }
}

// Whether the statement was what is changed; a cell is no part of it.
fn change_statement(alloc: Global, shelf: &mut MemShelf, change: &Change) -> Result<bool, Memory> {
    match change {
        Change::Statement(text) => shelf.put("u", text.as_bytes())?,
        Change::OneOutputLess => {
            let Some(claim) = one_output_less(alloc, shelf)? else {
                return Ok(false);
            };
            shelf.put("u", claim.as_slice())?;
        }
        _ => {}
    }
    Ok(true)
}

// The statement of the shelf without its last output, if that is 0.
fn one_output_less(alloc: Global, shelf: &MemShelf) -> Result<Option<Vec<u8>>, Memory> {
    let Some(front) = shelf.get("u").and_then(|text| text.strip_suffix(b",0]}")) else {
        return Ok(None);
    };
    let mut claim = Vec::from_slice(alloc, front)?;
    claim.extend_from_slice(b"]}")?;
    Ok(Some(claim))
}

// Whether `check` of the forged files prints what the row says.
fn is_right(rt: &(impl Threads + Sync), alloc: Global, forgery: &Forgery) -> Result<bool, Memory> {
    let mut shelf = ran(rt, alloc, forgery.source)?;
    let Some(mut trace) = trace_in(alloc, &shelf) else {
        return Ok(false);
    };
    for change in forgery.changes {
        if !change_trace(alloc, &mut trace, change)
            || !change_statement(alloc, &mut shelf, change)?
        {
            return Ok(false);
        }
    }
    Ok(
        put_trace(alloc, &mut shelf, &trace)?
            && checked(rt, alloc, &mut shelf)?.as_slice() == forgery.printed.as_bytes(),
    )
}

fn all_right(
    rt: &(impl Abort + AllocGlobal + Threads + Sync),
    forgeries: &[Forgery],
) -> Result<(), Fail> {
    for forgery in forgeries {
        let is_right = is_right(rt, rt.alloc(), forgery)?;
        assert!(rt; is_right, "{}", forgery.printed);
    }
    Ok(())
}

#[test]
fn forgeries_are_refused(rt: HostRuntime) -> Result<(), Fail> {
    all_right(&rt, &FORGERIES)
}
