use crate::tests::calls::all_hold;
use crate::tests::row::{Row, rows};
use std::test::Fail;

static ROWS: [Row; 22] = rows! {
    // The second constant of element 4 in the last round is 2^7.
    b"hash z -- n" {z: Lines(168, 161, "128"), n: Lines(8, 0, "")} => 0 "digest 0000000000000002000000000000000000000000000000000000000000000000\n";
    b"hash z n" {z: Lines(168, 161, "128"), n: Lines(8, 0, "")} => 0 "digest 0000000000000002000000000000000000000000000000000000000000000000\n";
    b"hash z n" {z: Lines(168, 161, "128"), n: Lines(16, 0, "")} => 0 "digest 0000000000000002000000000000000000000000000000000000000000000000\n";
    b"hash z n" {z, n: Lines(8, 0, "")} => 0 "digest 0000000000000000000000000000000000000000000000000000000000000000\n";
    b"hash z n" {z, n: Lines(7, 0, "")} => 10 "malformed n line 8 Count\n";
    b"hash z n" {z, n: Lines(0, 0, "")} => 10 "malformed n line 1 Count\n";
    b"hash z n" {z, n: Lines(9, 3, "-1")} => 10 "malformed n line 3 Number\n";
    b"hash z n" {z: Lines(167, 0, ""), n: Lines(7, 0, "")} => 10 "malformed z line 168 Ended\n";
    b"hash z n" {z: Lines(168, 5, "01"), n: Lines(8, 0, "")} => 10 "malformed z line 5 Number\n";
    b"hash z n" {z: Lines(169, 0, ""), n: Lines(8, 0, "")} => 10 "malformed z line 169 Extra\n";
    b"hash -- z n" {z, n: Lines(8, 0, "")} => 0 "digest 0000000000000000000000000000000000000000000000000000000000000000\n";
    b"hash z n --" {z, n: Lines(8, 0, "")} => 0 "digest 0000000000000000000000000000000000000000000000000000000000000000\n";
    b"hash -- z -- n" {z, n: Lines(8, 0, "")} => 2 "usage\n";
    b"hash z" {z, n: Lines(8, 0, "")} => 2 "usage\n";
    b"hash z n --limit=3" {z, n: Lines(8, 0, "")} => 2 "usage\n";
    b"hash z m" {z, n: Lines(8, 0, "")} => 6 "missing m\n";
    b"hash y m" {} => 6 "missing y\n";
    b"hash z n" {z: Lines(167, 0, "")} => 10 "malformed z line 168 Ended\n";
    b"hash z n" {z, n: Lines(8, 0, "")} => 7 "read fault n\n" call 2;
    // 4,096 bytes, and two more
    b"hash z n" {z: Lines(2048, 0, ""), n: Lines(8, 0, "")} => 10 "malformed z line 169 Extra\n";
    b"hash z n" {z: Lines(2049, 0, ""), n: Lines(8, 0, "")} => 11 "too long z\n";
    // 262,146 bytes
    b"hash z n" {z, n: Lines(131073, 0, "")} => 11 "too long n\n";
};

#[test]
fn numbers_are_hashed(rt: HostRuntime) -> Result<(), Fail> {
    all_hold(&rt, &ROWS)
}
