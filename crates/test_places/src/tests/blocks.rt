use super::{Case, are_told};
use std::test::Fail;

static BRANCHES: [Case; 3] = [
    Case {
        kernel: "",
        source: "begin if.true push.2 add else neg end end",
        stack: &[1],
        want: &[
            "SPLIT at 1:7 in begin",
            "SPAN at 1:15 in begin",
            "PUSH 2 at 1:15 in begin",
            "ADD at 1:22 in begin",
            "END at 1:22 in begin",
            "END at 1:7 in begin",
        ],
    },
    Case {
        kernel: "",
        source: "begin if.true push.2 add else neg end end",
        stack: &[0],
        want: &[
            "SPLIT at 1:7 in begin",
            "SPAN at 1:31 in begin",
            "NEG at 1:31 in begin",
            "END at 1:31 in begin",
            "END at 1:7 in begin",
        ],
    },
    Case {
        kernel: "",
        source: "begin if.true neg end end",
        stack: &[0],
        want: &[
            "SPLIT at 1:7 in begin",
            "SPAN at 1:7 in begin",
            "NOOP at 1:7 in begin",
            "END at 1:7 in begin",
            "END at 1:7 in begin",
        ],
    },
];

#[test]
fn both_branches(rt: HostRuntime) -> Result<(), Fail> {
    assert!(rt; are_told(rt.alloc(), &BRANCHES));
    Ok(())
}

// A join belongs to what comes next, and its END to what came last.
static NESTED: [Case; 2] = [
    Case {
        kernel: "",
        source: "begin not if.true if.true neg end end add end",
        stack: &[0, 1],
        want: &[
            "JOIN at 1:7 in begin",
            "JOIN at 1:7 in begin",
            "SPAN at 1:7 in begin",
            "NOT at 1:7 in begin",
            "END at 1:7 in begin",
            "SPLIT at 1:11 in begin",
            "SPLIT at 1:19 in begin",
            "SPAN at 1:27 in begin",
            "NEG at 1:27 in begin",
            "END at 1:27 in begin",
            "END at 1:19 in begin",
            "END at 1:11 in begin",
            "END at 1:11 in begin",
            "SPAN at 1:39 in begin",
            "ADD at 1:39 in begin",
            "END at 1:39 in begin",
            "END at 1:39 in begin",
        ],
    },
    Case {
        kernel: "",
        source: "proc.f if.true neg end end begin repeat.2 exec.f end end",
        stack: &[1, 0],
        want: &[
            "JOIN at 1:8 in f at 1:43 in begin",
            "SPLIT at 1:8 in f at 1:43 in begin",
            "SPAN at 1:16 in f at 1:43 in begin",
            "NEG at 1:16 in f at 1:43 in begin",
            "END at 1:16 in f at 1:43 in begin",
            "END at 1:8 in f at 1:43 in begin",
            "SPLIT at 1:8 in f at 1:43 in begin",
            "SPAN at 1:8 in f at 1:43 in begin",
            "NOOP at 1:8 in f at 1:43 in begin",
            "END at 1:8 in f at 1:43 in begin",
            "END at 1:8 in f at 1:43 in begin",
            "END at 1:8 in f at 1:43 in begin",
        ],
    },
];

#[test]
fn blocks_inside_others(rt: HostRuntime) -> Result<(), Fail> {
    assert!(rt; are_told(rt.alloc(), &NESTED));
    Ok(())
}

static LOOPS: [Case; 3] = [
    Case {
        kernel: "",
        source: "begin while.true neg end end",
        stack: &[0],
        want: &["LOOP at 1:7 in begin", "END at 1:7 in begin"],
    },
    Case {
        kernel: "",
        source: "begin while.true neg end end",
        stack: &[1, 0],
        want: &[
            "LOOP at 1:7 in begin",
            "SPAN at 1:18 in begin",
            "NEG at 1:18 in begin",
            "END at 1:18 in begin",
            "END at 1:7 in begin",
        ],
    },
    Case {
        kernel: "",
        source: "begin while.true push.1 drop end end",
        stack: &[1, 1, 1, 0],
        want: &[
            "LOOP at 1:7 in begin",
            "SPAN at 1:18 in begin",
            "PUSH 1 at 1:18 in begin",
            "DROP at 1:25 in begin",
            "END at 1:25 in begin",
            "REPEAT at 1:7 in begin",
            "SPAN at 1:18 in begin",
            "PUSH 1 at 1:18 in begin",
            "DROP at 1:25 in begin",
            "END at 1:25 in begin",
            "REPEAT at 1:7 in begin",
            "SPAN at 1:18 in begin",
            "PUSH 1 at 1:18 in begin",
            "DROP at 1:25 in begin",
            "END at 1:25 in begin",
            "END at 1:7 in begin",
        ],
    },
];

#[test]
fn turns_of_loops(rt: HostRuntime) -> Result<(), Fail> {
    assert!(rt; are_told(rt.alloc(), &LOOPS));
    Ok(())
}

static REPEATS: [Case; 2] = [
    Case {
        kernel: "",
        source: "begin repeat.2 neg add end end",
        stack: &[],
        want: &[
            "SPAN at 1:16 in begin",
            "NEG at 1:16 in begin",
            "ADD at 1:20 in begin",
            "NEG at 1:16 in begin",
            "ADD at 1:20 in begin",
            "END at 1:20 in begin",
        ],
    },
    Case {
        kernel: "",
        source: "proc.f end begin repeat.3 exec.f repeat.2 end end neg end",
        stack: &[],
        want: &[
            "SPAN at 1:51 in begin",
            "NEG at 1:51 in begin",
            "END at 1:51 in begin",
        ],
    },
];

#[test]
fn repeats(rt: HostRuntime) -> Result<(), Fail> {
    assert!(rt; are_told(rt.alloc(), &REPEATS));
    Ok(())
}
