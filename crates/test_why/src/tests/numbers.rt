use crate::tests::content::Content::Text;
use crate::tests::row::{Row, all_hold};
use std::test::Fail;

static RANGES: [Row; 9] = [
    (
        Text("begin swap.16 end"),
        None,
        3,
        "source p 1 7 NumberRange\n\
            begin swap.16 end\n\
            \x20     ^\n\
            swap takes numbers from 1 to 15, and 16 is none of them\n",
    ),
    (
        Text("begin u32assert.3 end"),
        None,
        3,
        "source p 1 7 NumberRange\n\
            begin u32assert.3 end\n\
            \x20     ^\n\
            u32assert takes 2 alone, and 3 is another number\n",
    ),
    (Text("begin u32assert.2 end"), None, 0, "assembled\n"),
    (
        Text("const.A=99 begin u32checked_shl.A end"),
        None,
        3,
        "source p 1 18 NumberRange\n\
            const.A=99 begin u32checked_shl.A end\n\
            \x20                ^\n\
            u32checked_shl takes numbers from 0 to 31, and A is none of them\n",
    ),
    (
        Text("const.A=18446744069414584321 begin end"),
        None,
        3,
        "source p 1 1 NumberRange\n\
            const.A=18446744069414584321 begin end\n\
            ^\n\
            a constant is at most 18446744069414584320\n",
    ),
    (
        Text("begin repeat.0 end end"),
        None,
        3,
        "source p 1 7 RepeatRange\n\
            begin repeat.0 end end\n\
            \x20     ^\n\
            repeat takes numbers from 1 to 10000, and 0 is none of them\n",
    ),
    (
        Text("proc.f.2 loc_load.2 end begin end"),
        None,
        3,
        "source p 1 10 LocalsRange\n\
            proc.f.2 loc_load.2 end begin end\n\
            \x20        ^\n\
            2 is no local of f, which has 2\n",
    ),
    (
        Text("proc.f.2 end begin locaddr.0 end"),
        None,
        3,
        "source p 1 20 LocalsRange\n\
            proc.f.2 end begin locaddr.0 end\n\
            \x20                  ^\n\
            0 is no local of begin, which has 0\n",
    ),
    (
        Text("proc.f.65536 end begin end"),
        None,
        3,
        "source p 1 1 LocalsRange\n\
            proc.f.65536 end begin end\n\
            ^\n\
            a procedure has at most 65535 locals\n",
    ),
];

#[test]
fn numbers_are_out_of_range(rt: HostRuntime) -> Result<(), Fail> {
    all_hold(&rt, &RANGES)
}
