use crate::tests::calls::{all_forged, all_hold, all_leave, all_wrong};
use crate::tests::content::STATEMENT;
use crate::tests::row::{Forgery, Row, forgeries, rows};
use std::test::Fail;

// Runs that go on from one another, and the chain `c` of their files.
static CHAINED: [Forgery; 3] = forgeries! {
    b"runs z l" {z, l = "m i t s\nn j u v\n", m = "begin push.2 end", i, n = "begin add.1 end", j, c = "t s\nu v\n"}
        => 0 "links 2\noutputs 3 0 0 0 0 0 0 0 0 0 0 0 0 0 0 0 0\n",
        b"chain z c --evidence e" {c = "t s\nu v\n"} => 0 "accepted links 2\n";
    // a chain that begins with another run breaks behind it
    b"runs z l" {z, l = "m i t s\nn j u v\n", m = "begin push.2 end", i, n = "begin add.1 end", j, c = "x y\nu v\n", x: Table(&[], 3748), y = STATEMENT}
        => 0 "links 2\noutputs 3 0 0 0 0 0 0 0 0 0 0 0 0 0 0 0 0\n",
        b"chain z c --evidence e" {c = "x y\nu v\n"} => 15 "broken link 1\n";
    // 1,024 cells are as many as a run may begin with
    b"runs z l" {z, l = "m i t s\nn j u v\n", m = "begin repeat.1008 push.1 end end", i, n = "begin repeat.1008 drop end end", j, c = "t s\nu v\n"}
        => 0 "links 2\noutputs 0 0 0 0 0 0 0 0 0 0 0 0 0 0 0 0\n",
        b"chain z c --evidence e" {c = "t s\nu v\n"} => 0 "accepted links 2\n";
};

// Runs that stop at the second link: the files of the first one stand, and none of the second one.
static FIRST_STANDS: [Row; 7] = rows! {
    // more cells than a run may begin with; nothing of the second link is read
    b"runs z l" {z, l = "m i t s\nn j u v\n", m = "begin repeat.1009 push.1 end end", i} => 15 "broken link 1\n";
    // a stack of its own
    b"runs z l" {z, l = "m i t s\nn j u v\n", m = "begin end", i = r#"{"advice":[],"stack":[1]}"#, n = "begin end", j = r#"{"advice":[],"stack":[1]}"#}
        => 10 "malformed j Count\n";
    b"runs z l" {z, l = "m i t s\nn j u v\n", m = "begin push.2 end", i, n = "begin assert end", j} => 4 "link 2 trap 1 AssertFailed\n";
    b"runs z l" {z, l = "m i t s\nn j u v\n", m = "begin end", i, n = "begin frob end", j} => 3 "link 2 source n 1 7 UnknownInstruction\n";
    b"runs z l" {z, l = "m i t s\nn j u v\n", m = "begin end", i} => 6 "missing n\n";
    b"runs z l" {z, l = "m i t s\nn j u v\n", m = "begin end", i, n = "begin end", j} => 7 "read fault j\n" call 8;
    b"runs z l" {z, l = "m i t s\nn j u v\n", m = "begin end", i, n = "begin end", j = "{}"} => 10 "malformed j Shape\n";
};

// A write fails: the front of that file stands, and those before it are whole.
static TORN: [Row; 2] = rows! {
    b"runs z l" {z, l = "m i t s\nn j u v\n", m = "begin end", i, n = "begin end", j} => 8 "write fault u\n" call 9;
    b"runs z l" {z, l = "m i t s\nn j u v\n", m = "begin end", i, n = "begin end", j} => 8 "write fault v\n" call 10;
};

// Nothing of any link was run.
static NOTHING: [Row; 6] = rows! {
    b"runs z l" {z, l = ""} => 10 "malformed l line 1 Count\n";
    b"runs z l" {z, l = "m i t\n"} => 10 "malformed l line 1 Line\n";
    b"runs z l" {z, l = "m i l s\n"} => 10 "malformed l line 1 Output\n";
    b"runs z l" {z, l = "m i z s\n"} => 10 "malformed l line 1 Output\n";
    b"runs z l" {z, l = "m i t s\nt j u v\n"} => 10 "malformed l line 2 Output\n";
    b"runs z l" {z, l = "m i t s\nn j u v\n", m = "begin assert end", i, n = "begin end", j} => 4 "link 1 trap 1 AssertFailed\n";
};

static WRONG: [&[u8]; 4] = [
    b"runs z",
    b"runs z l m",
    b"runs z l --pieces 1",
    b"runs z l --evidence e",
];

#[test]
fn runs_make_chains(rt: HostRuntime) -> Result<(), Fail> {
    all_forged(&rt, &CHAINED)
}

#[test]
fn runs_stop_behind_whole_links(rt: HostRuntime) -> Result<(), Fail> {
    all_leave(&rt, &FIRST_STANDS, &["t", "s"], &["u", "v"])
}

#[test]
fn runs_stop_at_a_write(rt: HostRuntime) -> Result<(), Fail> {
    all_leave(&rt, &TORN[..1], &["t", "s", "u"], &["v"])?;
    all_leave(&rt, &TORN[1..], &["t", "s", "u", "v"], &[])
}

#[test]
fn runs_stop_before_the_first_file(rt: HostRuntime) -> Result<(), Fail> {
    all_leave(&rt, &NOTHING, &[], &["t", "s", "u", "v"])
}

#[test]
fn other_words_of_runs_are_wrong(rt: HostRuntime) -> Result<(), Fail> {
    all_wrong(&rt, &WRONG)
}
