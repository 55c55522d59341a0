use crate::tests::calls::{all_forged, all_hold, all_leave};
use crate::tests::row::{CHECK, Forgery, RUN, Row, forgeries, rows};
use std::test::Fail;

// Procedures of the library: 2^32 - 1 and 2^32 + 0 are added; and the source's own procedure of a library's name runs in its place.
static RUNS: [Forgery; 2] = forgeries! {
    RUN {z, s = "begin exec.u64_wrapping_add end", i = r#"{"advice":[],"stack":[1,4294967295,0,1]}"#}
        => 0 "cycles 9\noutputs 2 0 0 0 0 0 0 0 0 0 0 0 0 0 0 0\n",
        b"check z t u --evidence e --source s" {} => 0 "accepted ran\n";
    RUN {z, s = "proc.u64_eq neg end begin exec.u64_eq end", i} => 0 "cycles 3\noutputs 0 0 0 0 0 0 0 0 0 0 0 0 0 0 0 0\n",
        CHECK {e = "run\ncycles 3\ntape\nspan 1\nbatch 2 0 0 0 0 0 0 0\n"} => 0 "accepted run\n";
};

// A sum that is 2^64, and a limb that is 2^32.
static TRAPS: [Row; 2] = rows! {
    RUN {z, s = "begin exec.u64_checked_add end", i = r#"{"advice":[],"stack":[4294967295,4294967295,0,1]}"#} => 4 "trap 8 AssertFailed\n";
    RUN {z, s = "begin exec.u64_eq end", i = r#"{"advice":[],"stack":[4294967296,0,0,0]}"#} => 4 "trap 1 NotU32\n";
};

// A kernel has no library.
static REFUSED: [Row; 2] = rows! {
    b"assemble z s --kernel k" {z, s = "begin end", k = "export.k exec.u64_eq end"} => 3 "source k 1 10 UnknownProcedure\n";
    b"assemble z s" {z, s = "begin exec.u64_ne end"} => 3 "source s 1 7 UnknownProcedure\n";
};

#[test]
fn procedures_of_the_library_run(rt: HostRuntime) -> Result<(), Fail> {
    all_forged(&rt, &RUNS)
}

#[test]
fn procedures_of_the_library_trap(rt: HostRuntime) -> Result<(), Fail> {
    all_leave(&rt, &TRAPS, &[], &["t", "u"])
}

#[test]
fn kernels_have_no_library(rt: HostRuntime) -> Result<(), Fail> {
    all_hold(&rt, &REFUSED)
}
