use super::{Case, are_told};
use std::test::Fail;

// The frame pointer moves at the header of a procedure with locals. The address of its local is p - 1, less the frame pointer.
static EXECS: [Case; 2] = [
    Case {
        kernel: "",
        source: "proc.f neg end begin exec.f add exec.f end",
        stack: &[],
        want: &[
            "SPAN at 1:8 in f at 1:22 in begin",
            "NEG at 1:8 in f at 1:22 in begin",
            "ADD at 1:29 in begin",
            "NEG at 1:8 in f at 1:33 in begin",
            "END at 1:8 in f at 1:33 in begin",
        ],
    },
    Case {
        kernel: "",
        source: "proc.g.1 loc_store.0 end begin exec.g end",
        stack: &[],
        want: &[
            "SPAN at 1:1 in g at 1:32 in begin",
            "PUSH 1 at 1:1 in g at 1:32 in begin",
            "FMPUPDATE at 1:1 in g at 1:32 in begin",
            "PUSH 18446744069414584320 at 1:10 in g at 1:32 in begin",
            "FMPADD at 1:10 in g at 1:32 in begin",
            "MSTORE at 1:10 in g at 1:32 in begin",
            "DROP at 1:10 in g at 1:32 in begin",
            "PUSH 18446744069414584320 at 1:1 in g at 1:32 in begin",
            "FMPUPDATE at 1:1 in g at 1:32 in begin",
            "END at 1:1 in g at 1:32 in begin",
        ],
    },
];

#[test]
fn procedures_in_place(rt: HostRuntime) -> Result<(), Fail> {
    assert!(rt; are_told(rt.alloc(), &EXECS));
    Ok(())
}

static CALLS: [Case; 2] = [
    Case {
        kernel: "",
        source: "proc.f neg end begin call.f end",
        stack: &[],
        want: &[
            "CALL at 1:22 in begin",
            "SPAN at 1:8 in f at 1:22 in begin",
            "NEG at 1:8 in f at 1:22 in begin",
            "END at 1:8 in f at 1:22 in begin",
            "END at 1:22 in begin",
        ],
    },
    Case {
        kernel: "proc.h add end export.k neg exec.h end",
        source: "begin syscall.k end",
        stack: &[],
        want: &[
            "SYSCALL at 1:7 in begin",
            "SPAN at kernel 1:25 in k at 1:7 in begin",
            "NEG at kernel 1:25 in k at 1:7 in begin",
            "ADD at kernel 1:8 in h at kernel 1:29 in k at 1:7 in begin",
            "END at kernel 1:8 in h at kernel 1:29 in k at 1:7 in begin",
            "END at 1:7 in begin",
        ],
    },
];

#[test]
fn calls(rt: HostRuntime) -> Result<(), Fail> {
    assert!(rt; are_told(rt.alloc(), &CALLS));
    Ok(())
}

static ELSEWHERE: [Case; 2] = [
    Case {
        kernel: "",
        source: "begin exec.u64_wrapping_add end",
        stack: &[],
        want: &[
            "SPAN at library in u64_wrapping_add at 1:7 in begin",
            "SWAP at library in u64_wrapping_add at 1:7 in begin",
            "MOVUP3 at library in u64_wrapping_add at 1:7 in begin",
            "U32ADD at library in u64_wrapping_add at 1:7 in begin",
            "MOVUP3 at library in u64_wrapping_add at 1:7 in begin",
            "MOVUP3 at library in u64_wrapping_add at 1:7 in begin",
            "U32ADD3 at library in u64_wrapping_add at 1:7 in begin",
            "DROP at library in u64_wrapping_add at 1:7 in begin",
            "END at library in u64_wrapping_add at 1:7 in begin",
        ],
    },
    // The digest of the empty procedure is four zeros under these constants.
    Case {
        kernel: "",
        source: "proc.f end begin procref.f dynexec end",
        stack: &[],
        want: &[
            "JOIN at 1:18 in begin",
            "SPAN at 1:18 in begin",
            "PAD at 1:18 in begin",
            "PAD at 1:18 in begin",
            "PAD at 1:18 in begin",
            "PAD at 1:18 in begin",
            "END at 1:18 in begin",
            "DYN at 1:28 in begin",
            "SPAN at ? in dynexec at 1:28 in begin",
            "NOOP at ? in dynexec at 1:28 in begin",
            "END at ? in dynexec at 1:28 in begin",
            "END at 1:28 in begin",
            "END at 1:28 in begin",
        ],
    },
];

#[test]
fn libraries_and_dynexecs(rt: HostRuntime) -> Result<(), Fail> {
    assert!(rt; are_told(rt.alloc(), &ELSEWHERE));
    Ok(())
}
