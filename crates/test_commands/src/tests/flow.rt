use crate::tests::calls::{all_forged, answers, served, shelf_of};
use crate::tests::content::Content;
use crate::tests::row::{CHECK, Forgery, RUN, Row, forgeries, row};
use std::alloc::Global;
use std::test::Fail;
use std::thread::Threads;
use vm_field::Memory;
use vm_io::{MemShelf, MemSink};

// Programs of blocks of blocks: a loop that is not entered, whose body stays out of the evidence; branches in a loop; a call; a
// kernel's procedure; and spans that divide, and take words of the tape and of memory. Each is run and checked, and the evidence
// has the tree.
static FLOWS: [Forgery; 6] = forgeries! {
    RUN {z, s = "begin while.true push.1 end end", i} => 0 "cycles 2\noutputs 0 0 0 0 0 0 0 0 0 0 0 0 0 0 0 0\n",
        CHECK {e = "run\ncycles 2\ntape\nloop\nopaque d9bfec6c23e8ace836324e6a8b700fea5b9656d23e6a13d1d3c9193523580458\n"} => 0 "accepted run\n";
    RUN {z, s = "begin while.true if.true swap swap else neg neg end end end", i = r#"{"advice":[],"stack":[1,1,1,0,0]}"#}
        => 0 "cycles 15\noutputs 0 0 0 0 0 0 0 0 0 0 0 0 0 0 0 0\n",
        CHECK {e = "run\ncycles 15\ntape\nloop\nsplit\nspan 1\nbatch 1032 0 0 0 0 0 0 0\nspan 1\nbatch 258 0 0 0 0 0 0 0\n"} => 0 "accepted run\n";
    RUN {z, s = "proc.f push.1 add end begin push.9 call.f end", i} => 0 "cycles 12\noutputs 10 0 0 0 0 0 0 0 0 0 0 0 0 0 0 0 0\n",
        CHECK {e = "run\ncycles 12\ntape\njoin\nspan 1\nbatch 69 9 0 0 0 0 0 0\ncall\nspan 1\nbatch 4805 1 0 0 0 0 0 0\n"} => 0 "accepted run\n";
    b"run z s i --out t --statement u --kernel k" {z, s = "begin syscall.k end", i, k = "export.k end"}
        => 0 "cycles 5\noutputs 0 0 0 0 0 0 0 0 0 0 0 0 0 0 0 0\n",
        CHECK {e = "run\ncycles 5\ntape\nsyscall\nspan 1\nbatch 0 0 0 0 0 0 0 0\n"} => 0 "accepted run\n";
    RUN {z, s = "begin push.5 push.3 u32checked_divmod adv_push.1 end", i = r#"{"advice":[40],"stack":[]}"#}
        => 0 "cycles 7\noutputs 40 2 1 0 0 0 0 0 0 0 0 0 0 0 0 0 0 0 0\n",
        CHECK {e = "run\ncycles 7\ntape 40\nspan 1\nbatch 136864453 5 3 0 0 0 0 0\n"} => 0 "accepted run\n";
    RUN {z, s = "begin adv_loadw mem_storew.3 push.1 mem_loadw.3 end", i = r#"{"advice":[5,6,7,8],"stack":[]}"#}
        => 0 "cycles 8\noutputs 8 7 6 5 5 0 0 0 0 0 0 0 0 0 0 0 0\n",
        CHECK {e = "run\ncycles 8\ntape 5 6 7 8\nspan 1\nbatch 1599215510172 3 1 3 0 0 0 0\n"} => 0 "accepted run\n";
};

// The statement of a call of a kernel's procedure, without the kernel.
const OF_NO_KERNEL: &str =
    r#"{"digest":"c911729d207be088dee0827b410430dc99baabca2df4787e72a183b24c73071d","inputs":[],"kernel":[],"outputs":[0,0,0,0,0,0,0,0,0,0,0,0,0,0,0,0]}"#;

// That of 5 divided by 3 with the quotient 2.
const OF_ANOTHER_QUOTIENT: &str =
    r#"{"digest":"8890f8520bc2595e308dad8543fb6f9751aaa42cd96976a72cd210f47a4bc17c","inputs":[],"kernel":[],"outputs":[18446744069414584320,2,0,0,0,0,0,0,0,0,0,0,0,0,0,0,0,0]}"#;

// The kernel and its table are taken away, so that nobody answers the call; 5 divided by 3 is claimed to be 2, with a remainder of
// the modulus less one, which the range table cannot give; and of three accesses of one word the first two change places.
static FORGED: [Forgery; 3] = forgeries! {
    b"run z s i --out t --statement u --kernel k" {z, s = "begin syscall.k end", i, k = "export.k end"}
        => 0 "cycles 5\noutputs 0 0 0 0 0 0 0 0 0 0 0 0 0 0 0 0\n"
        changed [
            Rows(5, 0), Size(5780),
            Statement(OF_NO_KERNEL)
        ],
        CHECK {} => 1 "refused bus kernel tuple 0 0 0 0 asked 1 given 0\n";
    RUN {z, s = "begin push.5 push.3 u32checked_divmod end", i} => 0 "cycles 6\noutputs 2 1 0 0 0 0 0 0 0 0 0 0 0 0 0 0 0 0\n"
        changed [
            Cell(3, 59, 2), Cell(3, 61, 18446744069414584320), Cell(3, 62, 0), Cell(3, 63, 3), Cell(3, 64, 0), Cell(4, 30, 18446744069414584320),
            Cell(5, 30, 18446744069414584320), Cell(6, 30, 18446744069414584320), Cell(4, 31, 2), Cell(5, 31, 2), Cell(6, 31, 2), Elements(455, &[5]),
            Elements(457, &[0]), Elements(461, &[2]),
            Statement(OF_ANOTHER_QUOTIENT)
        ],
        CHECK {} => 1 "refused bus range tuple 18446744069414584320 asked 1 given 0\n";
    RUN {z, s = "begin push.7 mem_store.3 push.8 mem_store.3 mem_load.3 end", i} => 0 "cycles 13\noutputs 8 0 0 0 0 0 0 0 0 0 0 0 0 0 0 0 0\n"
        changed [Elements(1121, &[7, 8]), Elements(1135, &[3, 7])],
        CHECK {} => 1 "refused memory row 0 constraint 9 value 18446744069414584313\n";
};

#[test]
fn flows_are_accepted(rt: HostRuntime) -> Result<(), Fail> {
    all_forged(&rt, &FLOWS)
}

#[test]
fn forged_flows_are_refused(rt: HostRuntime) -> Result<(), Fail> {
    all_forged(&rt, &FORGED)
}

// Everything at once: a loop, a procedure with a local, numbers of 32 bits, a kernel's procedure, memory, bitwise operations, hashes
// and advice.
const WHOLE: &str = "# sum of squares in a local, a kernel call, memory, a hash
const.N=10
proc.square
  dup.0 u32checked_mul
end
proc.sum_squares.1
  push.0 loc_store.0
  push.N
  dup.0 neq.0
  while.true
    dup.0 exec.square
    loc_load.0 u32checked_add loc_store.0
    sub.1
    dup.0 neq.0
  end
  drop
  loc_load.0
end
begin
  exec.sum_squares
  dup.0 mem_store.100
  syscall.bump
  mem_load.100
  u32checked_xor
  push.1.2.3.4.5.6.7.8 hmerge
  push.1.2.3.4.5.6.7.8 hmerge
  eqw movdn.8 dropw dropw
  adv_push.1 add.2
end";

static WHOLE_RUN: Row = row! {
    b"run z s i --out t --statement u --kernel k" {z, s = WHOLE, i = r#"{"advice":[40],"stack":[]}"#, k = "export.bump push.1 add end"}
        => 0 "\noutputs 42 1 3 0 0 0 0 0 0 0 0 0 0 0 0 0 0 0 0\n"
};

static CHECKED: Row = row! {
    CHECK {} => 0 "accepted run\n"
};

// Whether the run's lines end with what its row says, and the check's evidence has the tape.
fn whole_runs(rt: &(impl Threads + Sync), alloc: Global) -> Result<bool, Memory> {
    let mut shelf = shelf_of(alloc, &WHOLE_RUN)?;
    let mut sink = MemSink::new(alloc);
    let number = served(rt, alloc, &WHOLE_RUN, &mut shelf, &mut sink)?;
    let is_run = number == WHOLE_RUN.number && sink.taken().ends_with(WHOLE_RUN.printed.as_bytes());
    Ok(is_run && answers(rt, alloc, &CHECKED, &mut shelf)? && has_line(&shelf, "\ntape 40\n"))
}

// Whether the evidence has the line.
fn has_line(shelf: &MemShelf, line: &str) -> bool {
    let Some(evidence) = shelf.get("e") else {
        return false;
    };
    for i in 0..evidence.len() {
        if evidence[i..].starts_with(line.as_bytes()) {
            return true;
        }
    }
    false
}

#[test]
fn a_whole_program_is_accepted(rt: HostRuntime) -> Result<(), Fail> {
    let holds = whole_runs(&rt, rt.alloc())?;
    assert!(rt; holds);
    Ok(())
}
