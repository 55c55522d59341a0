use crate::tests::content::Content;
use crate::tests::row::{Row, all_hold};
use std::test::Fail;

// No advice, and a stack of zeros.
const NONE: &str = r#"{"advice":[],"stack":[]}"#;

static DONE: [Row; 3] = [
    // A procedure in place. The second position behind the group is in use and 0, so that a NOOP follows.
    Row {
        words: &["trace", "z", "s", "i"],
        files: &[
            ("z", Content::Zeros(168)),
            (
                "s",
                Content::Text("proc.two push.2 end\nbegin push.1 exec.two add end\n"),
            ),
            ("i", Content::Text(NONE)),
        ],
        failing_call: 0,
        number: 0,
        printed: "clk 0 SPAN depth 16 stack 0 0 0 0 at 2:7 in begin\n\
            clk 1 PUSH 1 depth 16 stack 0 0 0 0 at 2:7 in begin\n\
            clk 2 PUSH 2 depth 17 stack 1 0 0 0 at 1:10 in two at 2:14 in begin\n\
            clk 3 ADD depth 18 stack 2 1 0 0 at 2:23 in begin\n\
            clk 4 NOOP depth 17 stack 3 0 0 0 at 2:23 in begin\n\
            clk 5 END depth 17 stack 3 0 0 0 at 2:23 in begin\n\
            stands clk 6 depth 17 stack 3 0 0 0\n",
    },
    // A procedure of a kernel, in a block of its own.
    Row {
        words: &["trace", "z", "s", "i", "--kernel", "k"],
        files: &[
            ("z", Content::Zeros(168)),
            ("s", Content::Text("begin syscall.k end\n")),
            ("i", Content::Text(NONE)),
            ("k", Content::Text("export.k push.5 drop end\n")),
        ],
        failing_call: 0,
        number: 0,
        printed: "clk 0 SYSCALL depth 16 stack 0 0 0 0 at 1:7 in begin\n\
            clk 1 SPAN depth 16 stack 0 0 0 0 at kernel 1:10 in k at 1:7 in begin\n\
            clk 2 PUSH 5 depth 16 stack 0 0 0 0 at kernel 1:10 in k at 1:7 in begin\n\
            clk 3 DROP depth 17 stack 5 0 0 0 at kernel 1:17 in k at 1:7 in begin\n\
            clk 4 END depth 16 stack 0 0 0 0 at kernel 1:17 in k at 1:7 in begin\n\
            clk 5 END depth 16 stack 0 0 0 0 at 1:7 in begin\n\
            stands clk 6 depth 16 stack 0 0 0 0\n",
    },
    // The limit is the clock at which the run ends.
    Row {
        words: &["trace", "z", "s", "i", "--limit", "3"],
        files: &[
            ("z", Content::Zeros(168)),
            ("s", Content::Text("begin drop end\n")),
            ("i", Content::Text(r#"{"advice":[],"stack":[7,8,9]}"#)),
        ],
        failing_call: 0,
        number: 0,
        printed: "clk 0 SPAN depth 16 stack 7 8 9 0 at 1:7 in begin\n\
            clk 1 DROP depth 16 stack 7 8 9 0 at 1:7 in begin\n\
            clk 2 END depth 16 stack 8 9 0 0 at 1:7 in begin\n\
            stands clk 3 depth 16 stack 8 9 0 0\n",
    },
];

static CUT: [Row; 3] = [
    // A procedure at two places: it traps at the second.
    Row {
        words: &["trace", "z", "s", "i"],
        files: &[
            ("z", Content::Zeros(168)),
            (
                "s",
                Content::Text(
                    "proc.check assert end\nbegin push.1 exec.check push.0 exec.check end\n",
                ),
            ),
            ("i", Content::Text(NONE)),
        ],
        failing_call: 0,
        number: 4,
        printed: "clk 0 SPAN depth 16 stack 0 0 0 0 at 2:7 in begin\n\
            clk 1 PUSH 1 depth 16 stack 0 0 0 0 at 2:7 in begin\n\
            clk 2 ASSERT depth 17 stack 1 0 0 0 at 1:12 in check at 2:14 in begin\n\
            clk 3 PAD depth 16 stack 0 0 0 0 at 2:25 in begin\n\
            stands clk 4 depth 17 stack 0 0 0 0\n\
            next at 1:12 in check at 2:32 in begin\n\
            trap 4 AssertFailed\n",
    },
    // A loop without an end, cut off in its first turn.
    Row {
        words: &["trace", "z", "s", "i", "--limit", "8"],
        files: &[
            ("z", Content::Zeros(168)),
            (
                "s",
                Content::Text("begin push.1 while.true push.1 end end\n"),
            ),
            ("i", Content::Text(NONE)),
        ],
        failing_call: 0,
        number: 5,
        printed: "clk 0 JOIN depth 16 stack 0 0 0 0 at 1:7 in begin\n\
            clk 1 SPAN depth 16 stack 0 0 0 0 at 1:7 in begin\n\
            clk 2 PUSH 1 depth 16 stack 0 0 0 0 at 1:7 in begin\n\
            clk 3 NOOP depth 17 stack 1 0 0 0 at 1:7 in begin\n\
            clk 4 END depth 17 stack 1 0 0 0 at 1:7 in begin\n\
            clk 5 LOOP depth 17 stack 1 0 0 0 at 1:14 in begin\n\
            clk 6 SPAN depth 16 stack 0 0 0 0 at 1:25 in begin\n\
            clk 7 PUSH 1 depth 16 stack 0 0 0 0 at 1:25 in begin\n\
            stands clk 8 depth 17 stack 1 0 0 0\n\
            next at 1:25 in begin\n\
            out of cycles 8\n",
    },
    // The first cycle traps: none is told.
    Row {
        words: &["trace", "z", "s", "i"],
        files: &[
            ("z", Content::Zeros(168)),
            ("s", Content::Text("begin if.true end end\n")),
            ("i", Content::Text(r#"{"advice":[],"stack":[2]}"#)),
        ],
        failing_call: 0,
        number: 4,
        printed: "stands clk 0 depth 16 stack 2 0 0 0\nnext at 1:7 in begin\ntrap 0 NotBinary\n",
    },
];

static DYNAMIC: [Row; 1] = [
    // Under these constants the digest of each tree is four zeros, which are PAD.
    Row {
        words: &["trace", "z", "s", "i"],
        files: &[
            ("z", Content::Zeros(168)),
            (
                "s",
                Content::Text("proc.f end\nbegin procref.f dynexec dropw end\n"),
            ),
            ("i", Content::Text(NONE)),
        ],
        failing_call: 0,
        number: 0,
        printed: "clk 0 JOIN depth 16 stack 0 0 0 0 at 2:7 in begin\n\
            clk 1 JOIN depth 16 stack 0 0 0 0 at 2:7 in begin\n\
            clk 2 SPAN depth 16 stack 0 0 0 0 at 2:7 in begin\n\
            clk 3 PAD depth 16 stack 0 0 0 0 at 2:7 in begin\n\
            clk 4 PAD depth 17 stack 0 0 0 0 at 2:7 in begin\n\
            clk 5 PAD depth 18 stack 0 0 0 0 at 2:7 in begin\n\
            clk 6 PAD depth 19 stack 0 0 0 0 at 2:7 in begin\n\
            clk 7 END depth 20 stack 0 0 0 0 at 2:7 in begin\n\
            clk 8 DYN depth 20 stack 0 0 0 0 at 2:17 in begin\n\
            clk 9 SPAN depth 20 stack 0 0 0 0 at ? in dynexec at 2:17 in begin\n\
            clk 10 NOOP depth 20 stack 0 0 0 0 at ? in dynexec at 2:17 in begin\n\
            clk 11 END depth 20 stack 0 0 0 0 at ? in dynexec at 2:17 in begin\n\
            clk 12 END depth 20 stack 0 0 0 0 at 2:17 in begin\n\
            clk 13 END depth 20 stack 0 0 0 0 at 2:17 in begin\n\
            clk 14 SPAN depth 20 stack 0 0 0 0 at 2:25 in begin\n\
            clk 15 DROP depth 20 stack 0 0 0 0 at 2:25 in begin\n\
            clk 16 DROP depth 19 stack 0 0 0 0 at 2:25 in begin\n\
            clk 17 DROP depth 18 stack 0 0 0 0 at 2:25 in begin\n\
            clk 18 DROP depth 17 stack 0 0 0 0 at 2:25 in begin\n\
            clk 19 END depth 16 stack 0 0 0 0 at 2:25 in begin\n\
            clk 20 END depth 16 stack 0 0 0 0 at 2:25 in begin\n\
            stands clk 21 depth 16 stack 0 0 0 0\n",
    },
];

static UNTOLD: [Row; 5] = [
    Row {
        words: &["trace", "z", "s", "i"],
        files: &[
            ("z", Content::Zeros(168)),
            ("s", Content::Text("begin\n  foo\nend\n")),
            ("i", Content::Text(NONE)),
        ],
        failing_call: 0,
        number: 3,
        printed: "source s 2 3 UnknownInstruction\n",
    },
    // A kernel's refusal is at a place of the kernel.
    Row {
        words: &["trace", "z", "s", "i", "--kernel", "k"],
        files: &[
            ("z", Content::Zeros(168)),
            ("s", Content::Text("begin foo end\n")),
            ("i", Content::Text(NONE)),
            ("k", Content::Text("export.k dynexec end\n")),
        ],
        failing_call: 0,
        number: 3,
        printed: "source k 1 10 KernelBody\n",
    },
    // The inputs are read before the kernel, and before the source is assembled.
    Row {
        words: &["trace", "z", "s", "i", "--kernel", "k"],
        files: &[
            ("z", Content::Zeros(168)),
            ("s", Content::Text("begin foo end\n")),
        ],
        failing_call: 0,
        number: 6,
        printed: "missing i\n",
    },
    Row {
        words: &["trace", "z", "s", "i", "--kernel", "k"],
        files: &[
            ("z", Content::Zeros(168)),
            ("s", Content::Text("begin foo end\n")),
            ("i", Content::Text(NONE)),
        ],
        failing_call: 0,
        number: 6,
        printed: "missing k\n",
    },
    // No limit of 0 cycles.
    Row {
        words: &["trace", "z", "s", "i", "--limit", "0"],
        files: &[
            ("z", Content::Zeros(168)),
            ("s", Content::Text("begin end\n")),
            ("i", Content::Text(NONE)),
        ],
        failing_call: 0,
        number: 2,
        printed: "usage\n",
    },
];

#[test]
fn cycles_are_told(rt: HostRuntime) -> Result<(), Fail> {
    all_hold(&rt, &DONE)
}

#[test]
fn cycles_before_a_stop_are_told(rt: HostRuntime) -> Result<(), Fail> {
    all_hold(&rt, &CUT)
}

#[test]
fn targets_are_not_walked_into(rt: HostRuntime) -> Result<(), Fail> {
    all_hold(&rt, &DYNAMIC)
}

#[test]
fn sources_without_a_run_are_answered(rt: HostRuntime) -> Result<(), Fail> {
    all_hold(&rt, &UNTOLD)
}

static REFUSED: [Row; 4] = [
    Row {
        words: &["why", "s"],
        files: &[("s", Content::Text("begin\n    push.SIZE\nend\n"))],
        failing_call: 0,
        number: 3,
        printed: "source s 2 5 Syntax\n    push.SIZE\n    ^\n\
            SIZE is not defined: constants are defined before their first use\n",
    },
    Row {
        words: &["why", "--kernel", "k", "s"],
        files: &[
            ("s", Content::Text("begin end\n")),
            ("k", Content::Text("begin end\n")),
        ],
        failing_call: 0,
        number: 3,
        printed: "source k 1 1 KernelBody\nbegin end\n^\na kernel has no begin\n",
    },
    Row {
        words: &["why", "s"],
        files: &[("s", Content::Text("begin end\n"))],
        failing_call: 0,
        number: 0,
        printed: "assembled\n",
    },
    Row {
        words: &["why", "s", "--kernel=k"],
        files: &[("s", Content::Text("begin frob end\n"))],
        failing_call: 0,
        number: 6,
        printed: "missing k\n",
    },
];

#[test]
fn refused_sources_are_told(rt: HostRuntime) -> Result<(), Fail> {
    all_hold(&rt, &REFUSED)
}
