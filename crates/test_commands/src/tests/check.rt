use crate::tests::calls::{all_hold, all_hold_in_pieces, all_write, all_wrong};
use crate::tests::content::{Content, STATEMENT};
use crate::tests::row::{Row, rows};
use std::test::Fail;

// That of a program of another digest.
const OTHER_DIGEST: &str =
    r#"{"digest":"0000000000000001000000000000000000000000000000000000000000000000","inputs":[],"kernel":[],"outputs":[0,0,0,0,0,0,0,0,0,0,0,0,0,0,0,0]}"#;

// One whose kernel has a word twice.
const REPEATED: &str =
    r#"{"digest":"0000000000000000000000000000000000000000000000000000000000000000","inputs":[],
"kernel":["0000000000000000000000000000000000000000000000000000000000000000",
"0000000000000000000000000000000000000000000000000000000000000000"],
"outputs":[0,0,0,0,0,0,0,0,0,0,0,0,0,0,0,0]}"#;

const EVIDENCE: &str = "run\ncycles 3\ntape\nspan 1\nbatch 0 0 0 0 0 0 0 0\n";

static ACCEPTED: [Row; 3] = rows! {
    b"check z t s --evidence e" {z, t, s = STATEMENT} => 0 "accepted run\n";
    b"check --evidence=e z -- t s" {z, t, s = STATEMENT} => 0 "accepted run\n";
    b"check z t s --evidence e" {z, t, s = STATEMENT} => 9 "accept" write 1;
};

static REFUSED: [Row; 14] = rows! {
    b"check z t s --evidence e" {z, t: Table(&[], 3747), s = STATEMENT} => 10 "malformed t offset 3740 Ended\n";
    b"check z t s --evidence e" {z, t: Table(&[(463, 18446744069414584321)], 3748), s = STATEMENT} => 10 "malformed t offset 3740 Element\n";
    b"check z t s --evidence e" {z, t: Table(&[], 3749), s = STATEMENT} => 10 "malformed t offset 3748 Extra\n";
    b"check z t s --evidence e" {z, t = "", s = STATEMENT} => 10 "malformed t offset 0 Ended\n";
    b"check z t s --evidence e" {z, t = "MDTB\0\0\0\0", s = STATEMENT} => 10 "malformed t offset 4 Version\n";
    b"check z t s --evidence e" {z, t, s = "{}"} => 10 "malformed s Shape\n";
    b"check z t s --evidence e" {z, t, s = REPEATED} => 10 "malformed s Repeated\n";
    b"check z t s --evidence e" {z: Lines(167, 0, ""), t, s = STATEMENT} => 10 "malformed z line 168 Ended\n";
    b"check z t s --evidence e" {z, s = STATEMENT} => 6 "missing t\n";
    b"check z t s --evidence e" {z, t, s = STATEMENT} => 7 "read fault t\n" call 2;
    b"check z t s --evidence e" {z, t, s = STATEMENT} => 8 "write fault e\n" call 4;
    b"check z t s --evidence e" {z, t: Table(&[(195, 4)], 3748), s = STATEMENT} => 1 "refused main row 2 constraint 10 value 1\n";
    b"check z t s --evidence e" {z, t: Table(&[(90, 1)], 3748), s = STATEMENT} => 1 "refused main row 0 constraint 105 value 1\n";
    b"check z t s --evidence e" {z, t, s = OTHER_DIGEST} => 1 "refused bus children tuple 0 0 0 0 0 0 asked 1 given 0\n";
};

// Others stand in words.rt.
static WRONG: [&[u8]; 10] = [
    b"check",
    b"check t",
    b"check z t s --evidence t",
    b"check z t s --evidence s",
    b"check z t s --evidence e --pieces",
    b"check z t s --evidence e --pieces 0",
    b"check z t s --evidence e --pieces 65",
    b"check z t s --evidence e --pieces 01",
    b"check z t s --evidence e --pieces=1 --pieces=1",
    b"check z t s --pieces 1",
];

#[test]
fn traces_are_accepted(rt: HostRuntime) -> Result<(), Fail> {
    all_write(&rt, &ACCEPTED, "e", &Content::Text(EVIDENCE))
}

#[test]
fn traces_are_refused(rt: HostRuntime) -> Result<(), Fail> {
    all_hold(&rt, &REFUSED)
}

#[test]
fn pieces_change_no_answer(rt: HostRuntime) -> Result<(), Fail> {
    all_hold_in_pieces(&rt, &ACCEPTED[..1])?;
    all_hold_in_pieces(&rt, &REFUSED)
}

#[test]
fn other_words_of_check_are_wrong(rt: HostRuntime) -> Result<(), Fail> {
    all_wrong(&rt, &WRONG)
}
