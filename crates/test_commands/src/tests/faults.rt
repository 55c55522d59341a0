use crate::tests::calls::all_hold;
use crate::tests::row::{RUN, Row, rows};
use std::test::Fail;

// A read fails, and the files stand as before: of each command the reads that no other row has.
static FAULTS: [Row; 8] = rows! {
    RUN {z, s = "begin end", i, t = "old", u = "old"} => 7 "read fault z\n" call 1;
    RUN {z, s = "begin end", i, t = "old", u = "old"} => 7 "read fault s\n" call 2;
    b"check z t s --evidence e" {z, t, s = "{}", e = "old"} => 7 "read fault z\n" call 1;
    b"check z t s --evidence e" {z, t, s = "{}", e = "old"} => 7 "read fault s\n" call 3;
    b"make z 1 --source m --inputs i" {z, m = "old", i = "old"} => 7 "read fault z\n" call 1;
    b"assemble z s --kernel k" {z, s = "begin end", k = "export.k end"} => 7 "read fault z\n" call 1;
    b"assemble z s --kernel k" {z, s = "begin end", k = "export.k end"} => 7 "read fault s\n" call 2;
    b"hash z n" {z, n: Lines(8, 0, "")} => 7 "read fault z\n" call 1;
};

#[test]
fn each_read_may_fail(rt: HostRuntime) -> Result<(), Fail> {
    all_hold(&rt, &FAULTS)
}
