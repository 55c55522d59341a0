use super::{Case, are_told, is_told};
use std::test::Fail;

static STRAIGHT: [Case; 3] = [
    Case {
        kernel: "",
        source: "begin push.5 neg add end",
        stack: &[],
        want: &[
            "SPAN at 1:7 in begin",
            "PUSH 5 at 1:7 in begin",
            "NEG at 1:14 in begin",
            "ADD at 1:18 in begin",
            "END at 1:18 in begin",
        ],
    },
    // Behind a PUSH that ends its group stands a NOOP.
    Case {
        kernel: "",
        source: "begin\n  push.1\nend",
        stack: &[],
        want: &[
            "SPAN at 2:3 in begin",
            "PUSH 1 at 2:3 in begin",
            "NOOP at 2:3 in begin",
            "END at 2:3 in begin",
        ],
    },
    Case {
        kernel: "",
        source: "begin end",
        stack: &[],
        want: &[
            "SPAN at 1:1 in begin",
            "NOOP at 1:1 in begin",
            "END at 1:1 in begin",
        ],
    },
];

#[test]
fn straight_code(rt: HostRuntime) -> Result<(), Fail> {
    assert!(rt; are_told(rt.alloc(), &STRAIGHT));
    Ok(())
}

static LISTS: [Case; 2] = [
    Case {
        kernel: "",
        source: "begin xor neg end",
        stack: &[],
        want: &[
            "SPAN at 1:7 in begin",
            "DUP1 at 1:7 in begin",
            "DUP1 at 1:7 in begin",
            "OR at 1:7 in begin",
            "MOVDN2 at 1:7 in begin",
            "AND at 1:7 in begin",
            "NOT at 1:7 in begin",
            "AND at 1:7 in begin",
            "NEG at 1:11 in begin",
            "END at 1:11 in begin",
        ],
    },
    // The PUSH is the eighth of its group, and the next one opens another group.
    Case {
        kernel: "",
        source: "begin repeat.7 neg end push.1 push.2 drop drop end",
        stack: &[],
        want: &[
            "SPAN at 1:16 in begin",
            "NEG at 1:16 in begin",
            "NEG at 1:16 in begin",
            "NEG at 1:16 in begin",
            "NEG at 1:16 in begin",
            "NEG at 1:16 in begin",
            "NEG at 1:16 in begin",
            "NEG at 1:16 in begin",
            "PUSH 1 at 1:24 in begin",
            "NOOP at 1:24 in begin",
            "PUSH 2 at 1:31 in begin",
            "DROP at 1:38 in begin",
            "DROP at 1:43 in begin",
            "END at 1:43 in begin",
        ],
    },
];

#[test]
fn lists_of_operations(rt: HostRuntime) -> Result<(), Fail> {
    assert!(rt; are_told(rt.alloc(), &LISTS));
    Ok(())
}

// A batch has eight groups of nine operations, so that the 73rd stands behind a RESPAN.
static TWO_BATCHES: Case = Case {
    kernel: "",
    source: "begin repeat.36 neg add end neg end",
    stack: &[],
    want: &[
        "SPAN at 1:17 in begin",
        "NEG at 1:17 in begin",
        "ADD at 1:21 in begin",
        "NEG at 1:17 in begin",
        "ADD at 1:21 in begin",
        "NEG at 1:17 in begin",
        "ADD at 1:21 in begin",
        "NEG at 1:17 in begin",
        "ADD at 1:21 in begin",
        "NEG at 1:17 in begin",
        "ADD at 1:21 in begin",
        "NEG at 1:17 in begin",
        "ADD at 1:21 in begin",
        "NEG at 1:17 in begin",
        "ADD at 1:21 in begin",
        "NEG at 1:17 in begin",
        "ADD at 1:21 in begin",
        "NEG at 1:17 in begin",
        "ADD at 1:21 in begin",
        "NEG at 1:17 in begin",
        "ADD at 1:21 in begin",
        "NEG at 1:17 in begin",
        "ADD at 1:21 in begin",
        "NEG at 1:17 in begin",
        "ADD at 1:21 in begin",
        "NEG at 1:17 in begin",
        "ADD at 1:21 in begin",
        "NEG at 1:17 in begin",
        "ADD at 1:21 in begin",
        "NEG at 1:17 in begin",
        "ADD at 1:21 in begin",
        "NEG at 1:17 in begin",
        "ADD at 1:21 in begin",
        "NEG at 1:17 in begin",
        "ADD at 1:21 in begin",
        "NEG at 1:17 in begin",
        "ADD at 1:21 in begin",
        "NEG at 1:17 in begin",
        "ADD at 1:21 in begin",
        "NEG at 1:17 in begin",
        "ADD at 1:21 in begin",
        "NEG at 1:17 in begin",
        "ADD at 1:21 in begin",
        "NEG at 1:17 in begin",
        "ADD at 1:21 in begin",
        "NEG at 1:17 in begin",
        "ADD at 1:21 in begin",
        "NEG at 1:17 in begin",
        "ADD at 1:21 in begin",
        "NEG at 1:17 in begin",
        "ADD at 1:21 in begin",
        "NEG at 1:17 in begin",
        "ADD at 1:21 in begin",
        "NEG at 1:17 in begin",
        "ADD at 1:21 in begin",
        "NEG at 1:17 in begin",
        "ADD at 1:21 in begin",
        "NEG at 1:17 in begin",
        "ADD at 1:21 in begin",
        "NEG at 1:17 in begin",
        "ADD at 1:21 in begin",
        "NEG at 1:17 in begin",
        "ADD at 1:21 in begin",
        "NEG at 1:17 in begin",
        "ADD at 1:21 in begin",
        "NEG at 1:17 in begin",
        "ADD at 1:21 in begin",
        "NEG at 1:17 in begin",
        "ADD at 1:21 in begin",
        "NEG at 1:17 in begin",
        "ADD at 1:21 in begin",
        "NEG at 1:17 in begin",
        "ADD at 1:21 in begin",
        "RESPAN at 1:29 in begin",
        "NEG at 1:29 in begin",
        "END at 1:29 in begin",
    ],
};

#[test]
fn spans_of_two_batches(rt: HostRuntime) -> Result<(), Fail> {
    assert!(rt; is_told(rt.alloc(), &TWO_BATCHES) == Some(true));
    Ok(())
}
