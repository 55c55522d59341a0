use crate::tests::calls::{all_hold, all_hold_in_pieces, all_write, all_wrong};
use crate::tests::content::{Content, STATEMENT};
use crate::tests::row::{Row, rows};
use std::test::Fail;

// That of a program of another digest.
const OTHER_DIGEST: &str =
    r#"{"digest":"0000000000000001000000000000000000000000000000000000000000000000","inputs":[],"kernel":[],"outputs":[0,0,0,0,0,0,0,0,0,0,0,0,0,0,0,0]}"#;

// That of a run that begins with a 1.
const FROM_ONE: &str =
    r#"{"digest":"0000000000000000000000000000000000000000000000000000000000000000","inputs":[1],"kernel":[],"outputs":[1,0,0,0,0,0,0,0,0,0,0,0,0,0,0,0]}"#;

const EVIDENCE: &str =
    "link 1\nrun\ncycles 3\ntape\nspan 1\nbatch 0 0 0 0 0 0 0 0\nlink 2\nrun\ncycles 3\ntape\nspan 1\nbatch 0 0 0 0 0 0 0 0\n";

// What no link leaves is what an empty stack is filled up to, so that the same files may follow themselves.
static ACCEPTED: [Row; 2] = rows! {
    b"chain z l --evidence e" {z, l = "t s\nt s\n", t, s = STATEMENT} => 0 "accepted links 2\n";
    b"chain --evidence=e z -- l" {z, l = "t s\nt s\n", t, s = STATEMENT} => 0 "accepted links 2\n";
};

static REFUSED: [Row; 6] = rows! {
    // a link that does not follow is told before its trace is looked at,
    b"chain z l --evidence e" {z, l = "t s\nt o\n", t, s = STATEMENT, o = FROM_ONE} => 15 "broken link 1\n";
    // and one that is refused by its number
    b"chain z l --evidence e" {z, l = "t s\nt o\n", t, s = STATEMENT, o = OTHER_DIGEST}
        => 1 "link 2 refused bus children tuple 0 0 0 0 0 0 asked 1 given 0\n";
    b"chain z l --evidence e" {z, l = "t o\nt s\n", t, s = STATEMENT, o = OTHER_DIGEST}
        => 1 "link 1 refused bus children tuple 0 0 0 0 0 0 asked 1 given 0\n";
    // files are told by their names
    b"chain z l --evidence e" {z, l = "t s\nt o\n", t, s = STATEMENT} => 6 "missing o\n";
    b"chain z l --evidence e" {z, l = "t s\nt o\n", t, s = STATEMENT, o = "{}"} => 10 "malformed o Shape\n";
    b"chain z l --evidence e" {z, l = "t s\nt s\n", t, s = STATEMENT} => 7 "read fault t\n" call 5;
};

// Lists that are none, and the first line that is wrong with its first cause.
static LISTS: [Row; 10] = rows! {
    b"chain z l --evidence e" {z, l = ""} => 10 "malformed l line 1 Count\n";
    b"chain z l --evidence e" {z, l = "t s"} => 10 "malformed l line 1 Line\n";
    b"chain z l --evidence e" {z, l = "t  s\n"} => 10 "malformed l line 1 Line\n";
    b"chain z l --evidence e" {z, l = "t s\nt\n"} => 10 "malformed l line 2 Line\n";
    b"chain z l --evidence e" {z, l = "t s u\n"} => 10 "malformed l line 1 Line\n";
    b"chain z l --evidence e" {z, l = "-t s\n"} => 10 "malformed l line 1 Line\n";
    b"chain z l --evidence e" {z, l = "e s\n"} => 10 "malformed l line 1 Output\n";
    b"chain z l --evidence e" {z, l = "t s\nt e\n"} => 10 "malformed l line 2 Output\n";
    b"chain z l --evidence e" {z, l: Lines(65, 0, "")} => 10 "malformed l line 1 Line\n";
    b"chain z l --evidence e" {z, l: Lines(32769, 0, "")} => 11 "too long l\n";
};

// The list of 65 lines, of which the last one is told.
static LONG: [Row; 1] = rows! {
    b"chain z l --evidence e" {z, l: Repeated(65, "t s\n")} => 10 "malformed l line 65 Count\n";
};

static WRONG: [&[u8]; 7] = [
    b"chain z l",
    b"chain z l m --evidence e",
    b"chain z l --evidence l",
    b"chain z l --evidence z",
    b"chain z l --evidence e --pieces 0",
    b"chain z l --evidence e --pieces 65",
    b"chain z l --evidence e --kernel k",
];

#[test]
fn chains_are_accepted(rt: HostRuntime) -> Result<(), Fail> {
    all_write(&rt, &ACCEPTED, "e", &Content::Text(EVIDENCE))
}

#[test]
fn chains_are_refused(rt: HostRuntime) -> Result<(), Fail> {
    all_hold(&rt, &REFUSED)
}

#[test]
fn lists_are_malformed(rt: HostRuntime) -> Result<(), Fail> {
    all_hold(&rt, &LISTS)?;
    all_hold(&rt, &LONG)
}

#[test]
fn pieces_change_no_chain(rt: HostRuntime) -> Result<(), Fail> {
    all_hold_in_pieces(&rt, &ACCEPTED[..1])?;
    all_hold_in_pieces(&rt, &REFUSED[..2])
}

#[test]
fn other_words_of_chain_are_wrong(rt: HostRuntime) -> Result<(), Fail> {
    all_wrong(&rt, &WRONG)
}
