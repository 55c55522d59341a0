use super::{assembled, bad, chain, is_refused, refused};
use masm_link::{AsmCause, cause_text};
use std::alloc::{AllocError, Global};
use std::test::Fail;

// A source that is refused on its first line, by the column and the cause. Its kernel exports `k`.
type Row = (&'static [u8], u32, AsmCause);

static PROGRAMS: [Row; 41] = refused! {
    b"begin mtree_get end" 7 Unsupported;
    b"begin frob end" 7 UnknownInstruction;
    b"begin repeat.0 neg end end" 7 RepeatRange;
    b"begin add" 10 Syntax;
    b"\x80" 1 Lexical;
    b"begin swap.0 end" 7 NumberRange;
    b"begin loc_load.0 end" 7 LocalsRange;
    b"begin exec.g end" 7 UnknownProcedure;
    b"begin syscall.j end" 7 NotInKernel;
    b"begin exec.zz syscall.j end" 7 UnknownProcedure;
    b"begin syscall.j exec.zz end" 7 NotInKernel;
    b"proc.f while.true if.true add else repeat.2 exec.g end end end end begin exec.f end" 45 UnknownProcedure;
    b"const.N=1 const.N=2 begin push.N end" 11 Duplicate;
    b"proc.f end const.N=1 const.N=2 proc.f end begin end" 22 Duplicate;
    b"proc.f end proc.f exec.f end begin end" 12 Duplicate;
    b"proc.f exec.f end begin end" 8 Recursive;
    b"proc.f exec.g end proc.g call.f end begin end" 8 Recursive;
    b"proc.h exec.f end proc.f exec.f end begin end" 26 Recursive;
    b"proc.a exec.b end proc.b exec.c end proc.c exec.d exec.b end proc.d end begin end" 26 Recursive;
    b"proc.f exec.f exec.g end proc.g exec.h end proc.h end begin end" 8 Recursive;
    b"proc.b exec.c end proc.c exec.d end proc.d exec.d end proc.a exec.a exec.b end begin end" 44 Recursive;
    b"proc.f exec.g exec.f end begin end" 8 UnknownProcedure;
    b"begin repeat.10000 repeat.10000 neg end end end" 1 TooManyOps;
    b"proc.f repeat.10000 repeat.10000 neg end end end begin end" 1 TooManyOps;
    b"begin repeat.9 repeat.9999 repeat.9999 repeat.9999 repeat.9999 neg end end end end end end" 1 TooManyOps;
    b"begin repeat.10000 repeat.10000 repeat.10000 repeat.10000 repeat.10000 repeat.10000 repeat.10000 repeat.10000 neg end end end end end end end end \
        end" 1 TooManyOps;
    b"begin repeat.10000 repeat.10000 neg end end exec.g end" 45 UnknownProcedure;
    b"begin procref.g end" 7 UnknownProcedure;
    b"begin procref.zz syscall.j end" 7 UnknownProcedure;
    b"proc.f procref.f end begin end" 8 Recursive;
    b"proc.f procref.g end proc.g exec.f end begin end" 8 Recursive;
    b"proc.h procref.f end proc.f call.g end proc.g procref.f end begin end" 29 Recursive;
    b"proc.f end begin repeat.10000 repeat.13 procref.f end end repeat.1072 procref.f end neg end" 12 TooManyOps;
    b"proc.f repeat.10000 repeat.10000 neg end end end begin procref.f end" 1 TooManyOps;
    b"proc.f end proc.f repeat.10000 repeat.10000 neg end end end begin end" 12 Duplicate;
    b"begin dynexec.f end" 7 Syntax;
    b"proc.f dynexec end begin procref.f end" 8 Recursive;
    b"proc.f exec.g end proc.g neg dynexec end begin procref.f end" 30 Recursive;
    b"proc.b exec.a end proc.a dynexec end proc.c exec.b dynexec end begin procref.b end" 26 Recursive;
    b"proc.f repeat.1000 repeat.262 neg end end repeat.142 neg end end begin procref.f dynexec dynexec end" 66 TooManyOps;
    b"proc.f repeat.51 neg end end begin procref.f repeat.10000 dynexec end repeat.82 dynexec end repeat.21 neg end end" 30 TooManyOps;
};

static ACCEPTED: [&str; 10] = [
    "begin end",
    "begin syscall.k end",
    "proc.f.65535 end begin exec.f end",
    "proc.end end begin exec.end end",
    "proc.a exec.b end proc.b exec.c exec.d end proc.c exec.d end proc.d end begin exec.a end",
    "proc.a procref.b end proc.b procref.c exec.d end proc.c call.d end proc.d end begin procref.a exec.b end",
    "proc.f procref.g end proc.g repeat.10000 repeat.52 neg end end end begin end",
    "proc.f end begin repeat.10000 repeat.13 procref.f end end repeat.1072 procref.f end end",
    "proc.f end proc.g exec.f dynexec end begin procref.f exec.g dynexec end",
    "proc.f repeat.51 neg end end begin procref.f repeat.10000 dynexec end repeat.82 dynexec end repeat.20 neg end end",
];

fn is_program_refused(alloc: Global, row: &Row) -> bool {
    let want = bad(false, 1, row.1, row.2);
    is_refused(alloc, Some(b"export.k end"), row.0, want)
}

fn is_accepted(alloc: Global, source: &str) -> bool {
    assembled(alloc, Some(b"export.k end"), source.as_bytes()).is_ok()
}

// Whether such a chain and this body between `begin` and `end` are refused on the line as too deep.
fn is_chain_refused(alloc: Global, count: u32, main: &str, line: u32) -> Result<bool, AllocError> {
    let mut source = chain(alloc, count)?;
    source.push_str("begin ")?;
    source.push_str(main)?;
    source.push_str(" end")?;
    let want = bad(false, line, 1, AsmCause::TooDeep);
    Ok(is_refused(alloc, None, source.as_bytes(), want))
}

#[test]
fn refuses_programs(rt: HostRuntime) -> Result<(), Fail> {
    for row in &PROGRAMS {
        assert!(rt; is_program_refused(rt.alloc(), row), "{:?}", row.0);
    }
    Ok(())
}

#[test]
fn accepts_programs(rt: HostRuntime) -> Result<(), Fail> {
    for source in &ACCEPTED {
        assert!(rt; is_accepted(rt.alloc(), source), "{source}");
    }
    Ok(())
}

#[test]
fn bounds_heights(rt: HostRuntime) -> Result<(), Fail> {
    assert!(rt; !is_chain_refused(rt.alloc(), 1024, "", 1025)?);
    assert!(rt; is_chain_refused(rt.alloc(), 1025, "", 1025)?);
    Ok(())
}

// A dynexec is a block above its targets, and a procref beside it makes a join.
#[test]
fn bounds_heights_of_dynexecs(rt: HostRuntime) -> Result<(), Fail> {
    assert!(rt; !is_chain_refused(rt.alloc(), 1022, "procref.a1021 dynexec", 1023)?);
    assert!(rt; is_chain_refused(rt.alloc(), 1023, "procref.a1022 dynexec", 1024)?);
    Ok(())
}

// Four blocks are joined on two levels, and five on three.
#[test]
fn bounds_joined_heights(rt: HostRuntime) -> Result<(), Fail> {
    let four = "add repeat.2 call.a1020 end call.a1019";
    let five = "add repeat.2 call.a1020 end call.a1019 add";
    assert!(rt; !is_chain_refused(rt.alloc(), 1021, four, 1022)?);
    assert!(rt; is_chain_refused(rt.alloc(), 1021, five, 1022)?);
    Ok(())
}

// Procedures that nothing uses, each of more than 500,000 blocks.
#[test]
fn leaves_unused_procedures(rt: HostRuntime) -> Result<(), Fail> {
    let alloc = rt.alloc();
    let mut source = String::new(alloc);
    for i in 0..2000 {
        let line = format!(in alloc;
            "proc.f{i} repeat.10000 repeat.52 while.true end end end end\n"
        )?;
        source.push_str(line.as_str())?;
    }
    source.push_str("begin neg end")?;
    assert!(rt; is_accepted(alloc, source.as_str()));
    Ok(())
}

#[test]
fn names_causes(rt: HostRuntime) -> Result<(), Fail> {
    assert_eq!(rt; cause_text(AsmCause::NotInKernel), "NotInKernel");
    Ok(())
}
