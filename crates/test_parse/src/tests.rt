use masm_lex::{MAX_SOURCE, lex};
use masm_parse::{ParseError, parse};
use masm_tree::{Ast, Cause, Proc, Stmt};
use std::alloc::{AllocError, Global};
use std::process::Abort;
use std::test::Fail;

// A line is a source, the line and the column at which it is refused, and the cause.
macro_rules! refused {
    ($($source:literal $line:literal : $column:literal $cause:ident;)*) => {
        [$(($source, $line, $column, Cause::$cause)),*]
    };
}

// Programs that are read.
static PROGRAMS: [&[u8]; 32] = [
    b"begin end",
    b"const.A=1 begin push.A end",
    b"begin push.1.2.3.4.5.6.7.8.9.10.11.12.13.14.15.16 end",
    b"begin push.007 end",
    b"begin push.0xfF end",
    b"begin push.18446744069414584320 end",
    b"begin dup.0 swap.1 dupw.0 swapw.1 end",
    b"begin u32assert.2 end",
    b"begin u32assert.02 end",
    b"const.N=3 begin repeat.N neg end end",
    b"begin exp.0 end",
    b"const.N=1 const.N=2 begin push.N end",
    b"proc.f.2 locaddr.1 end begin end",
    b"proc.f.65535 end begin exec.f end",
    b"const.C=1 proc.f.2 loc_load.C end begin exec.f end",
    b"proc.end end begin exec.end end",
    b"proc.f end proc.f end begin end",
    b"begin add.4294967296 end",
    b"begin syscall.k end",
    b"begin div.0 u32checked_div.0 end",
    b"proc.f exec.g end proc.g call.f end begin end",
    b"proc.h exec.f end proc.f exec.f end begin end",
    b"begin exec.zz syscall.k end",
    b"begin syscall.k exec.zz end",
    b"proc.f if.true dynexec end end begin procref.f dynexec end",
    b"proc.f repeat.10000 repeat.53 neg end end end begin end",
    b"begin repeat.10000 repeat.53 while.true end end end end",
    b"begin repeat.10000 repeat.10000 end end end",
    b"begin repeat.10000 end end",
    b"begin end\n",
    b"begin add#c\n end",
    b"begin\tadd\r\n end\n\n",
];

// Programs that are refused, each with the line, the column and the cause.
static BAD_PROGRAMS: [(&[u8], u32, u32, Cause); 76] = refused! {
    b"" 1:1 Syntax;
    b"begin" 1:6 Syntax;
    b"# only" 1:7 Syntax;
    b"begin else end" 1:7 Syntax;
    b"begin if.true else else end end" 1:20 Syntax;
    b"begin if.true while.true else end end end" 1:26 Syntax;
    b"end" 1:1 Syntax;
    b"begin end end" 1:11 Syntax;
    b"begin end begin end" 1:11 Syntax;
    b"begin begin end" 1:7 Syntax;
    b"begin const.A=1 end" 1:7 Syntax;
    b"proc.f const.A=1 end begin end" 1:8 Syntax;
    b"export.f end begin end" 1:1 Syntax;
    b"begin export.f end" 1:7 Syntax;
    b"begin push end" 1:7 Syntax;
    b"begin push. end" 1:7 Syntax;
    b"begin push.1..2 end" 1:7 Syntax;
    b"begin push.1.2.3.4.5.6.7.8.9.10.11.12.13.14.15.16.17 end" 1:7 Syntax;
    b"begin push.0Xf end" 1:7 Syntax;
    b"begin push.0x end" 1:7 Syntax;
    b"begin push.0x00000000000000001 end" 1:7 Syntax;
    b"begin push.18446744069414584321 end" 1:7 NumberRange;
    b"begin push.99999999999999999999 end" 1:7 NumberRange;
    b"begin push.000000000000000000001 end" 1:7 Syntax;
    b"begin push.99999999999999999999.x end" 1:7 Syntax;
    b"begin swap.0 end" 1:7 NumberRange;
    b"begin movup.1 end" 1:7 NumberRange;
    b"begin movup.16 end" 1:7 NumberRange;
    b"begin adv_push.0 end" 1:7 NumberRange;
    b"begin adv_push.17 end" 1:7 NumberRange;
    b"begin u32assert.1 end" 1:7 NumberRange;
    b"begin movup end" 1:7 Syntax;
    b"begin movupw.1 end" 1:7 NumberRange;
    b"const.N=3 begin dup.N end" 1:17 Syntax;
    b"const.N=0 begin repeat.N neg end end" 1:17 RepeatRange;
    b"begin repeat.10001 neg end end" 1:7 RepeatRange;
    b"begin repeat.99999999999999999999 neg end end" 1:7 RepeatRange;
    b"begin repeat end end" 1:7 Syntax;
    b"begin exp end" 1:7 Unsupported;
    b"begin exp. end" 1:7 Syntax;
    b"begin exp.18446744069414584321 end" 1:7 NumberRange;
    b"const.N=18446744069414584321 begin end" 1:1 NumberRange;
    b"const.A=B begin end" 1:1 Syntax;
    b"const.n=1 begin end" 1:1 Syntax;
    b"begin loc_load.0 end" 1:7 LocalsRange;
    b"proc.f.2 locaddr.2 end begin end" 1:10 LocalsRange;
    b"proc.f.65536 end begin end" 1:1 LocalsRange;
    b"begin u32checked_add.4294967296 end" 1:7 NumberRange;
    b"begin u32checked_rotr end" 1:7 Syntax;
    b"begin u32checked_shl.32 end" 1:7 NumberRange;
    b"begin u32checked_and.1 end" 1:7 Syntax;
    b"begin end emit.1" 1:11 Unsupported;
    b"begin end frob" 1:11 UnknownInstruction;
    b"begin .add end" 1:7 UnknownInstruction;
    b"use.x" 1:1 Unsupported;
    b"add.99999999999999999999 begin end" 1:1 Syntax;
    b"loc_load.9" 1:1 Syntax;
    b"begin if.false end end" 1:7 Syntax;
    b"begin call.f.g end" 1:7 Syntax;
    b"begin procref end" 1:7 Syntax;
    b"begin procref.f.g end" 1:7 Syntax;
    b"begin procref.F end" 1:7 Syntax;
    b"begin procreff.f end" 1:7 UnknownInstruction;
    b"begin dynexec.1 end" 1:7 Syntax;
    b"dynexec begin end" 1:1 Syntax;
    b"begin dyncall end" 1:7 Unsupported;
    b"begin exec.F end" 1:7 Syntax;
    b"begin ADD end" 1:7 UnknownInstruction;
    b"begin mem_store.4294967296 end" 1:7 NumberRange;
    b"exec.f begin end" 1:1 Syntax;
    b"begin repeat.1 else end end" 1:16 Syntax;
    b"begin repeat.0 end end" 1:7 RepeatRange;
    b"begin if.true end else end" 1:19 Syntax;
    b"begin push.N end const.N=1" 1:7 Syntax;
    b"proc.f.1 end proc.g loc_load.0 end begin end" 1:21 LocalsRange;
    b"begin add\n" 2:1 Syntax;
};

static KERNELS: [&[u8]; 5] = [
    b"",
    b"export.k end",
    b"proc.k end",
    b"export.a exec.b end export.b end",
    b"proc.f if.true end end",
];

static BAD_KERNELS: [(&[u8], u32, u32, Cause); 11] = refused! {
    b"begin end" 1:1 KernelBody;
    b"proc.f call.f end" 1:8 KernelBody;
    b"call" 1:1 KernelBody;
    b"export.k syscall.x.y end" 1:10 KernelBody;
    b"export.k" 1:9 Syntax;
    b"const.A=1 export.a.A end" 1:11 Syntax;
    b"call." 1:1 KernelBody;
    b"proc.f procref.g end" 1:8 KernelBody;
    b"procref" 1:1 KernelBody;
    b"proc.f dynexec end" 1:8 KernelBody;
    b"dynexec.1" 1:1 KernelBody;
};

fn is_read(alloc: Global, source: &[u8], kernel: bool) -> bool {
    if source.len() > MAX_SOURCE {
        return false;
    }
    let Ok(tokens) = lex(alloc, source) else {
        return false;
    };
    parse(alloc, source, &tokens, kernel).is_ok()
}

fn reads(rt: &impl Abort, alloc: Global, kernel: bool, table: &[&[u8]]) {
    for source in table {
        assert!(rt; is_read(alloc, source, kernel), "at {source:?}");
    }
}

fn is_refused(
    alloc: Global,
    source: &[u8],
    kernel: bool,
    line: u32,
    column: u32,
    cause: Cause,
) -> bool {
    if source.len() > MAX_SOURCE {
        return false;
    }
    let Ok(tokens) = lex(alloc, source) else {
        return false;
    };
    match parse(alloc, source, &tokens, kernel) {
        Err(error) => error
            == ParseError::Bad {
                line,
                column,
                cause,
            },
        Ok(_) => false,
    }
}

fn refuses(rt: &impl Abort, alloc: Global, kernel: bool, table: &[(&[u8], u32, u32, Cause)]) {
    for (source, line, column, cause) in table {
        assert!(rt;
            is_refused(alloc, source, kernel, *line, *column, *cause),
            "at {source:?}"
        );
    }
}

// A program with so many statements inside one another.
fn nested(alloc: Global, depth: usize) -> Result<String, AllocError> {
    let mut source = String::new(alloc);
    source.push_str("begin")?;
    for _ in 0..depth {
        source.push_str(" if.true")?;
    }
    for _ in 0..depth {
        source.push_str(" end")?;
    }
    source.push_str(" end")?;
    Ok(source)
}

// The column of the conditional of a program, where its first body has one statement and its
// second has two.
fn if_column(main: &Proc) -> Option<u32> {
    match main.body.first() {
        Some(Stmt::If(at, first, second)) if first.len() == 1 && second.len() == 2 => {
            Some(at.column)
        }
        _ => None,
    }
}

// Whether the tree has a constant, the procedure f of three locals, and a conditional at this
// column.
fn is_tree(ast: &Ast, column: u32) -> bool {
    let (Some(procedure), Some(main)) = (ast.procs.first(), ast.main.as_ref()) else {
        return false;
    };
    ast.consts.as_slice().len() == 1
        && procedure.name.as_slice() == b"f".as_slice()
        && procedure.locals == 3
        && procedure.column == 11
        && if_column(main) == Some(column)
}

fn builds(alloc: Global, source: &[u8], column: u32) -> bool {
    if source.len() > MAX_SOURCE {
        return false;
    }
    let Ok(tokens) = lex(alloc, source) else {
        return false;
    };
    match parse(alloc, source, &tokens, false) {
        Ok(ast) => is_tree(&ast, column),
        Err(_) => false,
    }
}

#[test]
fn reads_programs(rt: HostRuntime) {
    reads(&rt, rt.alloc(), false, &PROGRAMS);
}

#[test]
fn refuses_programs(rt: HostRuntime) {
    refuses(&rt, rt.alloc(), false, &BAD_PROGRAMS);
}

#[test]
fn reads_kernels(rt: HostRuntime) {
    reads(&rt, rt.alloc(), true, &KERNELS);
}

#[test]
fn refuses_kernels(rt: HostRuntime) {
    refuses(&rt, rt.alloc(), true, &BAD_KERNELS);
}

#[test]
fn nests_to_256(rt: HostRuntime) -> Result<(), Fail> {
    let most = nested(rt.alloc(), 256)?;
    let more = nested(rt.alloc(), 257)?;
    assert!(rt; is_read(rt.alloc(), most.as_bytes(), false));
    assert!(rt; is_refused(rt.alloc(), more.as_bytes(), false, 1, 2055, Cause::TooDeep));
    Ok(())
}

#[test]
fn builds_the_tree(rt: HostRuntime) {
    assert!(rt;
        builds(
            rt.alloc(),
            b"const.A=7 proc.f.3 push.A end begin if.true exec.f else call.f add end end",
            37
        )
    );
}
