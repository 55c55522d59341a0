use crate::tests::calls::{all_accepted, all_forged, all_hold, all_leave, all_write, all_wrong};
use crate::tests::content::{Content, STATEMENT};
use crate::tests::row::{CHECK, Forgery, RUN, Row, forgeries, rows};
use std::test::Fail;

static RAN: [Row; 7] = rows! {
    RUN {z, s = "begin end", i} => 0 "cycles 3\noutputs 0 0 0 0 0 0 0 0 0 0 0 0 0 0 0 0\n";
    RUN {z, s = "begin push.2 push.3 add push.7 end", i} => 0 "cycles 7\noutputs 7 5 0 0 0 0 0 0 0 0 0 0 0 0 0 0 0 0\n";
    RUN {z, s = "begin push.0 end", i} => 0 "cycles 3\noutputs 0 0 0 0 0 0 0 0 0 0 0 0 0 0 0 0 0\n";
    RUN {z, s = "begin repeat.8 neg end push.5 end", i} => 0 "cycles 13\noutputs 5 0 0 0 0 0 0 0 0 0 0 0 0 0 0 0 0\n";
    RUN {z, s = "begin repeat.73 neg end end", i} => 0 "cycles 76\noutputs 0 0 0 0 0 0 0 0 0 0 0 0 0 0 0 0\n";
    RUN {z, s = "begin add end", i = r#"{"stack":[2,3],"advice":[]}"#} => 0 "cycles 3\noutputs 5 0 0 0 0 0 0 0 0 0 0 0 0 0 0 0\n";
    b"run --limit 3 z --out=t s --statement=u -- i" {z, s = "begin end", i} => 0 "cycles 3\noutputs 0 0 0 0 0 0 0 0 0 0 0 0 0 0 0 0\n";
};

// Each ends before a file is written.
static STOPPED: [Row; 15] = rows! {
    RUN {z, s = "begin push.4294967296 push.1 u32wrapping_add end", i} => 4 "trap 3 NotU32\n";
    RUN {z, s = "proc.f push.1 end begin call.f end", i} => 4 "trap 5 DepthAtReturn\n";
    RUN {z, s = "begin adv_push.2 end", i = r#"{"advice":[6],"stack":[]}"#} => 4 "trap 2 AdviceEmpty\n";
    RUN {z, s = "begin push.2 assert end", i} => 4 "trap 2 AssertFailed\n";
    b"run z s i --out t --statement u --limit=2" {z, s = "begin end", i} => 5 "out of cycles 2\n";
    b"run z s i --out t --statement u --kernel k" {z, s = "begin frob end", i, k = "begin end"} => 3 "source k 1 1 KernelBody\n";
    RUN {z, s = "begin frob end", i} => 3 "source s 1 7 UnknownInstruction\n";
    RUN {z, s = "begin frob end", i = "{"} => 10 "malformed i NotJson\n";
    b"run z s i --out t --statement u --kernel k" {z, s = "begin frob end", i = r#"{"stack":[]}"#} => 10 "malformed i Shape\n";
    b"run z s i --out t --statement u --kernel k" {z, s = "begin frob end", i} => 6 "missing k\n";
    RUN {z, s = "begin end", i: Inputs(1025)} => 10 "malformed i Count\n";
    RUN {z, s = "begin frob end"} => 6 "missing i\n";
    RUN {z, i} => 6 "missing s\n";
    RUN {z, s = "begin end", i} => 7 "read fault i\n" call 3;
    // 33,554,434 bytes
    RUN {z, s = "begin end", i: Lines(16777217, 0, "")} => 11 "too long i\n";
};

// The write of the table file fails.
static FAILED: [Row; 1] = rows! {
    RUN {z, s = "begin end", i} => 8 "write fault t\n" call 4;
};

// Each writes the whole table file of `begin end`, the first and the last its statement too.
static WHOLE: [Row; 3] = rows! {
    RUN {z, s = "begin end", i} => 0 "cycles 3\noutputs 0 0 0 0 0 0 0 0 0 0 0 0 0 0 0 0\n";
    RUN {z, s = "begin end", i} => 8 "write fault u\n" call 5;
    RUN {z, s = "begin end", i} => 9 "cycles 3\noutputs 0 0 0 0" write 1;
};

#[test]
fn runs_are_accepted(rt: HostRuntime) -> Result<(), Fail> {
    all_accepted(&rt, &RAN)
}

// In the first the bits of how many positions the batch uses say 4 and not 2; in the second a clock goes on by 2, and below it the
// last cell that is seen changes.
static FORGED: [Forgery; 2] = forgeries! {
    RUN {z, s = "begin push.5 end", i} => 0 "cycles 4\noutputs 5 0 0 0 0 0 0 0 0 0 0 0 0 0 0 0 0\n" changed [Cell(0, 28, 1), Cell(0, 29, 0)],
        CHECK {} => 1 "refused main row 0 constraint 103 value 18446744069414584320\n";
    RUN {z, s = "begin repeat.73 neg end end", i} => 0 "cycles 76\noutputs 0 0 0 0 0 0 0 0 0 0 0 0 0 0 0 0\n"
        changed [Cell(67, 0, 68), Cell(70, 45, 1)],
        CHECK {} => 1 "refused main row 66 constraint 10 value 1\n";
};

#[test]
fn forged_tables_are_refused(rt: HostRuntime) -> Result<(), Fail> {
    all_forged(&rt, &FORGED)
}

#[test]
fn others_are_answered(rt: HostRuntime) -> Result<(), Fail> {
    all_leave(&rt, &STOPPED, &[], &["t", "u"])?;
    all_hold(&rt, &FAILED)
}

#[test]
fn tables_are_written(rt: HostRuntime) -> Result<(), Fail> {
    all_write(&rt, &WHOLE, "t", &Content::Table(&[], 3748))?;
    all_write(&rt, &WHOLE[..1], "u", &Content::Text(STATEMENT))
}

// Others stand in words.rt.
static WRONG: [&[u8]; 11] = [
    b"run z s i",
    b"run z s i --statement u",
    b"run z s --out t --statement u",
    b"run z s i j --out t --statement u",
    b"run z s i --out t --statement s",
    b"run z s i --out k --statement u --kernel k",
    b"run z s i --out t --statement u --limit 05",
    b"run z s i --out t --statement u --limit 3 --limit=3",
    b"run z s i --out t --statement u --kernel=",
    b"run z s i --out t --statement u --out v",
    b"run z s i --out t --statement u --evidence e",
];

#[test]
fn words_are_refused(rt: HostRuntime) -> Result<(), Fail> {
    all_wrong(&rt, &WRONG)
}
