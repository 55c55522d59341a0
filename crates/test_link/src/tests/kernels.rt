use super::{assembled, bad, chain, is_refused, refused};
use masm_link::AsmCause;
use std::alloc::{AllocError, Global};
use std::test::Fail;

// A kernel that is refused on its first line, by the column and the cause.
type Row = (&'static [u8], u32, AsmCause);

static KERNELS: [Row; 13] = refused! {
    b"begin end" 1 KernelBody;
    b"export.f end proc.f end" 14 Duplicate;
    b"export.f exec.g end" 10 UnknownProcedure;
    b"export.f exec.f end" 10 Recursive;
    b"export.f dynexec end" 10 KernelBody;
    b"export.f end proc.g repeat.10000 repeat.10000 neg end end end" 14 TooManyOps;
    b"\x80" 1 Lexical;
    b"export.f" 9 Syntax;
    b"export.f emit.1 end" 10 Unsupported;
    b"export.f frob end" 10 UnknownInstruction;
    b"export.f swap.0 end" 10 NumberRange;
    b"export.f loc_load.0 end" 10 LocalsRange;
    b"export.f repeat.0 neg end end" 10 RepeatRange;
};

// A kernel's refusal stands before that of the program.
fn is_kernel_refused(alloc: Global, row: &Row) -> bool {
    let want = bad(true, 1, row.1, row.2);
    is_refused(alloc, Some(row.0), b"begin frob end", want)
}

// How many exports and how many words a kernel has, where a program calls its `k`.
fn kernel_counts(alloc: Global, kernel: &str) -> (usize, usize) {
    match assembled(alloc, Some(kernel.as_bytes()), b"begin syscall.k end") {
        Ok(program) => (program.exports.len(), program.kernel.len()),
        Err(_) => (0, 0),
    }
}

// A kernel of so many exports behind `k`, one a line.
fn exports(alloc: Global, count: u32) -> Result<String, AllocError> {
    let mut source = String::from_str(alloc, "export.k end\n")?;
    for i in 0..count {
        let line = format!(in alloc; "export.e{i} end\n")?;
        source.push_str(line.as_str())?;
    }
    Ok(source)
}

// The exports of a kernel of so many behind `k`, and whether it is refused at the 256th.
fn exports_of(alloc: Global, count: u32) -> Result<(usize, bool), AllocError> {
    let source = exports(alloc, count)?;
    let text = source.as_str();
    let want = bad(true, 256, 1, AsmCause::TooManyExports);
    let refused = is_refused(alloc, Some(text.as_bytes()), b"begin end", want);
    Ok((kernel_counts(alloc, text).0, refused))
}

// A kernel whose `k` has so many branches in one another.
fn nested(alloc: Global, count: u32) -> Result<String, AllocError> {
    let mut source = String::from_str(alloc, "export.k ")?;
    for _ in 0..count {
        source.push_str("if.true ")?;
    }
    for _ in 0..count {
        source.push_str("end ")?;
    }
    source.push_str("end")?;
    Ok(source)
}

// Whether a kernel of so many branches in one another is refused at the 257th.
fn is_nest_refused(alloc: Global, count: u32) -> Result<bool, AllocError> {
    let source = nested(alloc, count)?;
    let want = bad(true, 1, 2058, AsmCause::TooDeep);
    Ok(is_refused(alloc, Some(source.as_bytes()), b"begin end", want))
}

// A kernel of `k` behind so many procedures, each with a loop round the one before it.
fn chained(alloc: Global, count: u32) -> Result<String, AllocError> {
    let mut source = chain(alloc, count)?;
    source.push_str("export.k end")?;
    Ok(source)
}

// Whether such a kernel is refused at the 1,025th procedure.
fn is_chain_refused(alloc: Global, count: u32) -> Result<bool, AllocError> {
    let source = chained(alloc, count)?;
    let want = bad(true, 1025, 1, AsmCause::TooDeep);
    Ok(is_refused(alloc, Some(source.as_bytes()), b"begin end", want))
}

#[test]
fn refuses_kernels(rt: HostRuntime) -> Result<(), Fail> {
    for row in &KERNELS {
        assert!(rt; is_kernel_refused(rt.alloc(), row), "{:?}", row.0);
    }
    Ok(())
}

#[test]
fn counts_exports(rt: HostRuntime) -> Result<(), Fail> {
    assert_eq!(rt; kernel_counts(rt.alloc(), "export.k end"), (1, 1));
    assert_eq!(rt;
        kernel_counts(rt.alloc(), "export.a end export.k end"),
        (2, 1)
    );
    Ok(())
}

#[test]
fn exports_at_most_255(rt: HostRuntime) -> Result<(), Fail> {
    assert_eq!(rt; exports_of(rt.alloc(), 254)?, (255, false));
    assert_eq!(rt; exports_of(rt.alloc(), 255)?, (0, true));
    Ok(())
}

#[test]
fn nests_to_256(rt: HostRuntime) -> Result<(), Fail> {
    let most = nested(rt.alloc(), 256)?;
    assert_eq!(rt; kernel_counts(rt.alloc(), most.as_str()), (1, 1));
    assert!(rt; is_nest_refused(rt.alloc(), 257)?);
    Ok(())
}

#[test]
fn bounds_heights(rt: HostRuntime) -> Result<(), Fail> {
    let most = chained(rt.alloc(), 1024)?;
    assert_eq!(rt; kernel_counts(rt.alloc(), most.as_str()), (1, 1));
    assert!(rt; is_chain_refused(rt.alloc(), 1025)?);
    Ok(())
}
