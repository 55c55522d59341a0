use crate::tests::calls::{all_hold, all_wrong};
use crate::tests::row::{Row, rows};
use std::test::Fail;

static ROWS: [Row; 20] = rows! {
    b"assemble z s" {z, s = "begin end"} => 0 "digest 0000000000000000000000000000000000000000000000000000000000000000\n";
    // The program is a syscall of a block whose digest is 0.
    b"assemble z s --kernel k" {z, s = "begin syscall.k end", k = "export.k end"}
        => 0 "digest c911729d207be088dee0827b410430dc99baabca2df4787e72a183b24c73071d\n\
            kernel k 0000000000000000000000000000000000000000000000000000000000000000\n";
    b"assemble --kernel=k z -- s" {z, s = "begin end", k = "export.b end export.a end"}
        => 0 "digest 0000000000000000000000000000000000000000000000000000000000000000\n\
            kernel b 0000000000000000000000000000000000000000000000000000000000000000\n\
            kernel a 0000000000000000000000000000000000000000000000000000000000000000\n";
    b"assemble z s" {z, s = "begin mtree_get end"} => 3 "source s 1 7 Unsupported\n";
    b"assemble z s" {z, s = "begin frob end"} => 3 "source s 1 7 UnknownInstruction\n";
    b"assemble z s" {z, s = "begin repeat.0 neg end end"} => 3 "source s 1 7 RepeatRange\n";
    b"assemble z s" {z, s = "begin add"} => 3 "source s 1 10 Syntax\n";
    b"assemble z s" {z, s = "proc.f exec.f end begin end"} => 3 "source s 1 8 Recursive\n";
    b"assemble z s" {z, s = "begin exec.g end"} => 3 "source s 1 7 UnknownProcedure\n";
    b"assemble z s" {z, s = "begin repeat.10000 repeat.10000 neg end end end"} => 3 "source s 1 1 TooManyOps\n";
    b"assemble z s" {z, s: Bytes(b"\x80")} => 3 "source s 1 1 Lexical\n";
    b"assemble z s" {z, s = "begin\n  add\n  neg\n frob end"} => 3 "source s 4 2 UnknownInstruction\n";
    // The kernel comes first.
    b"assemble z s --kernel k" {z, s = "begin frob end", k = "begin end"} => 3 "source k 1 1 KernelBody\n";
    b"assemble z s --kernel k" {z, s = "begin frob end", k = "export.k end"} => 3 "source s 1 7 UnknownInstruction\n";
    b"assemble z s --kernel k" {z, s = "begin frob end"} => 6 "missing k\n";
    b"assemble z s --kernel s" {z, s = "begin end"} => 3 "source s 1 1 KernelBody\n";
    b"assemble z s" {z: Lines(167, 0, "")} => 10 "malformed z line 168 Ended\n";
    b"assemble z s --kernel k" {z, s = "begin end", k = "export.k end"} => 7 "read fault k\n" call 3;
    // 1,048,578 bytes
    b"assemble z s" {z, s: Lines(524289, 0, "")} => 11 "too long s\n";
    b"assemble z s" {z, s = "begin end"} => 9 "digest 00000000000000000000000000000" write 1;
};

#[test]
fn sources_are_assembled(rt: HostRuntime) -> Result<(), Fail> {
    all_hold(&rt, &ROWS)
}

// Words of no command.
static WRONG: [&[u8]; 7] = [
    b"assemble z",
    b"assemble z s i",
    b"assemble z s --kernel",
    b"assemble z s --kernel=",
    b"assemble z s --kernel k --kernel=k",
    b"assemble z s --limit 3",
    b"assemble -- z s --kernel k",
];

#[test]
fn words_are_refused(rt: HostRuntime) -> Result<(), Fail> {
    all_wrong(&rt, &WRONG)
}
