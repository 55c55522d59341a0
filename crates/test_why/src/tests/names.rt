use crate::tests::content::Content::Text;
use crate::tests::row::{Row, all_hold};
use std::test::Fail;

static WORDS: [Row; 6] = [
    (
        Text("begin\tadd \u{1} end"),
        None,
        3,
        "source p 1 11 Lexical\n\
            begin add ? end\n\
            \x20         ^\n\
            the byte 1 is neither a blank nor one of a token, which are 33 to 126\n",
    ),
    (
        Text("begin end"),
        Some(Text("export.f end begin end")),
        3,
        "source k 1 14 KernelBody\n\
            export.f end begin end\n\
            \x20            ^\n\
            a kernel has no begin\n",
    ),
    (
        Text("begin emit.1 end"),
        None,
        3,
        "source p 1 7 Unsupported\n\
            begin emit.1 end\n\
            \x20     ^\n\
            this machine has no emit\n",
    ),
    (
        Text("begin exp end"),
        None,
        3,
        "source p 1 7 Unsupported\n\
            begin exp end\n\
            \x20     ^\n\
            exp is written with its exponent, as exp.5\n",
    ),
    (
        Text("begin ADD end"),
        None,
        3,
        "source p 1 7 UnknownInstruction\n\
            begin ADD end\n\
            \x20     ^\n\
            there is no instruction ADD\n",
    ),
    (
        Text("const.A=1 const.A=2 begin end"),
        None,
        3,
        "source p 1 11 Duplicate\n\
            const.A=1 const.A=2 begin end\n\
            \x20         ^\n\
            A is defined already, at 1:1\n",
    ),
];

static PROCEDURES: [Row; 7] = [
    (
        Text("proc.f end\nproc.f end begin end"),
        None,
        3,
        "source p 2 1 Duplicate\n\
            proc.f end begin end\n\
            ^\n\
            f is defined already, at 1:1\n",
    ),
    (
        Text("begin exec.f end"),
        None,
        3,
        "source p 1 7 UnknownProcedure\n\
            begin exec.f end\n\
            \x20     ^\n\
            neither this source nor the library defines a procedure f\n",
    ),
    (
        Text("begin end"),
        Some(Text("export.g exec.u64_eq end")),
        3,
        "source k 1 10 UnknownProcedure\n\
            export.g exec.u64_eq end\n\
            \x20        ^\n\
            this kernel defines no procedure u64_eq\n",
    ),
    (
        Text("begin syscall.f end"),
        None,
        3,
        "source p 1 7 NotInKernel\n\
            begin syscall.f end\n\
            \x20     ^\n\
            no kernel is given that exports a procedure f\n",
    ),
    (
        Text("begin syscall.f end"),
        Some(Text("export.g end")),
        3,
        "source p 1 7 NotInKernel\n\
            begin syscall.f end\n\
            \x20     ^\n\
            the kernel exports no procedure f\n",
    ),
    (
        Text("proc.f exec.g end proc.g exec.f end begin end"),
        None,
        3,
        "source p 1 8 Recursive\n\
            proc.f exec.g end proc.g exec.f end begin end\n\
            \x20      ^\n\
            g reaches f, in which it is used\n",
    ),
    (
        Text("proc.f dynexec end begin procref.f dropw end"),
        None,
        3,
        "source p 1 8 Recursive\n\
            proc.f dynexec end begin procref.f dropw end\n\
            \x20      ^\n\
            a procedure that a procref names reaches f, in which this dynexec stands\n",
    ),
];

#[test]
fn words_are_unknown(rt: HostRuntime) -> Result<(), Fail> {
    all_hold(&rt, &WORDS)
}

#[test]
fn names_lead_nowhere(rt: HostRuntime) -> Result<(), Fail> {
    all_hold(&rt, &PROCEDURES)
}
