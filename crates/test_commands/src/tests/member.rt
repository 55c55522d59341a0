use crate::tests::calls::{all_forged, all_leave, all_wrong};
use crate::tests::row::{Forgery, RUN, Row, forgeries, rows};
use std::test::Fail;

// The source of a path of one step.
const ONE_STEP: &str = "begin repeat.1 padw adv_loadw adv_push.1 cswapw hmerge end assert_eqw end";

// Merkle paths: of one step, of zeros, given in full and filled up; and of two steps, from 1 2 3 4 to the root that is computed by the
// definition of hashes, with the sibling on the left at the first step and on the right at the second.
static PATHS: [Forgery; 3] = forgeries! {
    RUN {z, s = ONE_STEP, i = r#"{"advice":[0,0,0,0,0],"stack":[0,0,0,0,0,0,0,0]}"#}
        => 0 "cycles 36\noutputs 0 0 0 0 0 0 0 0 0 0 0 0 0 0 0 0\n",
        b"member z t u --depth 1 --evidence e" {e = "ran\ncycles 36\ntape 0 0 0 0 0\nspan 1\n\
                batch 3776468440652257844 3122873992932121140 884553199169230232 155178049376676 0 0 0 0\n"}
            => 0 "member 0000000000000000000000000000000000000000000000000000000000000000 \
                0000000000000000000000000000000000000000000000000000000000000000\n";
    RUN {z, s = ONE_STEP, i = r#"{"advice":[0,0,0,0,0],"stack":[]}"#}
        => 0 "cycles 36\noutputs 0 0 0 0 0 0 0 0 0 0 0 0 0 0 0 0\n",
        b"member z t u --depth 1 --evidence e --pieces 2" {e = "ran\ncycles 36\ntape 0 0 0 0 0\nspan 1\n\
                batch 3776468440652257844 3122873992932121140 884553199169230232 155178049376676 0 0 0 0\n"}
            => 0 "member 0000000000000000000000000000000000000000000000000000000000000000 \
                0000000000000000000000000000000000000000000000000000000000000000\n";
    RUN {z, s = "begin repeat.2 padw adv_loadw adv_push.1 cswapw hmerge end assert_eqw end",
        i = r#"{"advice":[5,6,7,8,1,9,10,11,12,0],"stack":[4,3,2,1,12145452003955026818,11714152609759449868,4574464335335191785,5220651340067160673]}"#}
        => 0 "cycles 60\noutputs 0 0 0 0 0 0 0 0 0 0 0 0 0 0 0 0\n",
        b"member z t u --depth 2 --evidence e" {e = "ran\ncycles 60\ntape 5 6 7 8 1 9 10 11 12 0\nspan 1\n\
                batch 3776468440652257844 3122873992932121140 3776498784308745624 1743686504939217052 3122873343895328157 2599858056773306155 578083 \
                0\n"}
            => 0 "member 0000000000000001000000000000000200000000000000030000000000000004 \
                48737abbccdec2613f7bc3139158f4e9a29107bbfd6d530ca88d503f8c4bab82\n";
};

// The statement is of a path of one step, and not of two. Evidence is not written.
static OTHER_DEPTH: [Forgery; 1] = forgeries! {
    RUN {z, s = ONE_STEP, i = r#"{"advice":[0,0,0,0,0],"stack":[0,0,0,0,0,0,0,0]}"#}
        => 0 "cycles 36\noutputs 0 0 0 0 0 0 0 0 0 0 0 0 0 0 0 0\n",
        b"member z t u --depth 2 --evidence e" {}
            => 14 "other program 45c81d99f083b765b58ffe173086145bf622cedb57a83fd90ffff188948676f7 \
                41d1cb9183d386993d7bf45fcd955fb48183edf2cf15956ff6870329ad4f5e85\n";
};

// Another root, and a side that is neither 0 nor 1.
static NO_PATHS: [Row; 2] = rows! {
    RUN {z, s = ONE_STEP, i = r#"{"advice":[0,0,0,0,0],"stack":[0,0,0,0,1,0,0,0]}"#}
        => 4 "trap 26 AssertFailed\n";
    RUN {z, s = ONE_STEP, i = r#"{"advice":[0,0,0,0,2],"stack":[0,0,0,0,0,0,0,0]}"#}
        => 4 "trap 7 NotBinary\n";
};

// A depth is needed, from 1 to 64, and the evidence has a name of its own.
static WRONG: [&[u8]; 7] = [
    b"member z t u --evidence e",
    b"member z t u --depth 0 --evidence e",
    b"member z t u --depth 65 --evidence e",
    b"member z t u --depth 1",
    b"member z t u --depth 1 --evidence u",
    b"member z t u --depth 1 --evidence e --source s",
    b"member z t u --depth 1 --depth 1 --evidence e",
];

#[test]
fn paths_are_told(rt: HostRuntime) -> Result<(), Fail> {
    all_forged(&rt, &PATHS)
}

#[test]
fn a_path_of_another_depth_is_another_program(rt: HostRuntime) -> Result<(), Fail> {
    all_forged(&rt, &OTHER_DEPTH)
}

#[test]
fn what_is_no_path_traps(rt: HostRuntime) -> Result<(), Fail> {
    all_leave(&rt, &NO_PATHS, &[], &["t", "u"])
}

#[test]
fn depths_are_needed(rt: HostRuntime) -> Result<(), Fail> {
    all_wrong(&rt, &WRONG)
}
