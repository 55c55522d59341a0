use crate::tests::content::Content::{Exports, Loops, Nested, Text};
use crate::tests::row::{Row, all_hold};
use std::test::Fail;

// The tree of `a` has 1250 loops in one another, that of `b` 1000.
static LARGE: [Row; 4] = [
    (
        Loops(257),
        None,
        3,
        "source p 258 1 TooDeep\n\
            while.true\n\
            ^\n\
            256 blocks are open here already\n",
    ),
    (
        Text("begin end"),
        Some(Exports(256)),
        3,
        "source k 256 1 TooManyExports\n\
            export.pp end\n\
            ^\n\
            a kernel exports at most 255 procedures\n",
    ),
    (
        Text("proc.f repeat.10000 repeat.53 neg end end end begin end"),
        None,
        3,
        "source p 1 1 TooManyOps\n\
            proc.f repeat.10000 repeat.53 neg end end end begin end\n\
            ^\n\
            its tree has more than 524288 operations\n",
    ),
    (
        Nested(250),
        None,
        3,
        "source p 1 1 TooDeep\n\
            proc.a\n\
            ^\n\
            its tree has more than 1024 blocks on one path\n",
    ),
];

#[test]
fn sources_are_too_large(rt: HostRuntime) -> Result<(), Fail> {
    all_hold(&rt, &LARGE)
}
