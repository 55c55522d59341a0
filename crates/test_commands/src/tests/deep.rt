use crate::tests::calls::{all_forged, all_hold};
use crate::tests::content::STATEMENT;
use crate::tests::row::{CHECK, Forgery, RUN, Row, forgeries, rows};
use std::test::Fail;

// Eighteen inputs, of which two lie below the sixteenth cell.
const EIGHTEEN: &str = r#"{"advice":[],"stack":[1,2,3,4,5,6,7,8,9,10,11,12,13,14,15,16,17,18]}"#;

// What is claimed of the run of a DROP, but for the last input.
const OTHER_INPUT: &str =
    r#"{"digest":"de32698068704bd3313251e60d6165fb49edb83b3a4e20426c73d1126ec8bac2","inputs":[1,2,3,4,5,6,7,8,9,10,11,12,13,14,15,16,17,19],"kernel":[],"outputs":[2,3,4,5,6,7,8,9,10,11,12,13,14,15,16,17,18]}"#;

// Inputs below the sixteenth cell come up; another one is claimed; the cell left is said to have a key that is none; and a call hides
// them and brings them back.
static RUNS: [Forgery; 4] = forgeries! {
    RUN {z, s = "begin drop end", i = EIGHTEEN} => 0 "cycles 3\noutputs 2 3 4 5 6 7 8 9 10 11 12 13 14 15 16 17 18\n",
        CHECK {e = "run\ncycles 3\ntape\nspan 1\nbatch 43 0 0 0 0 0 0 0\n"} => 0 "accepted run\n";
    RUN {z, s = "begin drop end", i = EIGHTEEN} => 0 "cycles 3\noutputs 2 3 4 5 6 7 8 9 10 11 12 13 14 15 16 17 18\n"
        changed [Statement(OTHER_INPUT)],
        CHECK {} => 1 "refused bus overflow tuple 18446744069414584319 18 0 asked 1 given 0\n";
    // The key of the cell left is the second input's below the sixteenth; what is written is less by one.
    RUN {z, s = "begin drop end", i = EIGHTEEN} => 0 "cycles 3\noutputs 2 3 4 5 6 7 8 9 10 11 12 13 14 15 16 17 18\n"
        changed [Elements(464, &[18446744069414584318])],
        CHECK {} => 1 "refused main row 3 constraint 43 value 1\n";
    RUN {z, s = "proc.f push.1 drop end begin call.f drop end", i = EIGHTEEN} => 0 "cycles 11\noutputs 2 3 4 5 6 7 8 9 10 11 12 13 14 15 16 17 18\n",
        CHECK {} => 0 "accepted run\n";
};

#[test]
fn deep_inputs_come_up(rt: HostRuntime) -> Result<(), Fail> {
    all_forged(&rt, &RUNS)
}

// A file of the first version is read, one of a third is not.
static READ: [Row; 2] = rows! {
    CHECK {z, t: Version(1), u = STATEMENT} => 0 "accepted run\n";
    CHECK {z, t = "MDTB\x03\0\0\0", u = OTHER_INPUT} => 10 "malformed t offset 4 Version\n";
};

#[test]
fn versions_are_told(rt: HostRuntime) -> Result<(), Fail> {
    all_hold(&rt, &READ)
}
