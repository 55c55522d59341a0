use super::shelf::{checked, put_trace, ran, set, trace_in};
use std::alloc::Global;
use std::test::Fail;
use std::thread::Threads;
use vm_field::{Felt, Memory};
use vm_table::View;

// The columns that nothing asks for in a row of PUSH: what would be hash elements but the first, the flags of a batch, three
// witnesses and all limbs.
fn is_free(column: usize) -> bool {
    matches!(column, 17..=23 | 27..=29 | 51..=53 | 55..=64)
}

// What is printed where a cell of this column in main row 3 is raised by 1; none where there is no such cell.
fn raised(
    rt: &(impl Threads + Sync),
    alloc: Global,
    column: usize,
) -> Result<Option<Vec<u8>>, Memory> {
    let mut shelf = ran(rt, alloc, "begin push.2 push.3 add push.7 end")?;
    let Some(mut trace) = trace_in(alloc, &shelf) else {
        return Ok(None);
    };
    if trace.main.rows() <= 3 || column >= 65 {
        return Ok(None);
    }
    let number = (trace.main.row(3).cell(column) + Felt::ONE).value();
    if set(&mut trace.main, 3, column, number) && put_trace(alloc, &mut shelf, &trace)? {
        Ok(Some(checked(rt, alloc, &mut shelf)?))
    } else {
        Ok(None)
    }
}

// Whether a file in which the column is raised is accepted exactly where the column is free, and else refused at this row or the
// one before it.
fn is_right(rt: &(impl Threads + Sync), alloc: Global, column: usize) -> Result<bool, Memory> {
    let Some(said) = raised(rt, alloc, column)? else {
        return Ok(false);
    };
    Ok(if is_free(column) {
        said.as_slice() == b"accepted run\n".as_slice()
    } else {
        said.starts_with(b"refused main row 2 ") || said.starts_with(b"refused main row 3 ")
    })
}

#[test]
fn each_column_is_used_or_free(rt: HostRuntime) -> Result<(), Fail> {
    for column in 0..65usize {
        let is_right = is_right(&rt, rt.alloc(), column)?;
        assert!(rt; is_right, "{column}");
    }
    Ok(())
}
