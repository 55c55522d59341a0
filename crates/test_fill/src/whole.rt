ghost use Rattle.std.specs.Prelude.{◌≤◌};

use crate::tests::NO_CONSTANTS;
use block_tree::Program;
use fill_files::trace_of_run;
use machine_cycles::Stop;
use masm_lex::MAX_SOURCE;
use masm_link::assemble;
use processor::execute;
use std::alloc::Global;
use std::test::Fail;
use std::thread::Threads;
use table_file::encode;
use vm_field::{Bytes, Felt, Felts, Memory};
use vm_io::OpenGate;
use vm_state::Inputs;

// Sums of squares in a local, a call of the kernel, memory, bitwise operations, three hashes and advice.
static SOURCE: &str = "const.N=10
proc.square
  dup.0 u32checked_mul
end
proc.sum_squares.1
  push.0 loc_store.0
  push.N
  dup.0 neq.0
  while.true
    dup.0 exec.square
    loc_load.0 u32checked_add loc_store.0
    sub.1
    dup.0 neq.0
  end
  drop
  loc_load.0
end
begin
  exec.sum_squares
  dup.0 mem_store.100
  syscall.bump
  mem_load.100
  u32checked_xor
  push.1.2.3.4.5.6.7.8 hmerge
  push.1.2.3.4.5.6.7.8 hmerge
  eqw movdn.8 dropw dropw
  adv_push.1 add.2
end";

static KERNEL: &str = "export.bump push.1 add end";

// The program of the source; none where it is refused.
fn program(alloc: Global) -> Option<Program> {
    let (source, kernel) = (SOURCE.as_bytes(), KERNEL.as_bytes());
    if MAX_SOURCE < source.len() || MAX_SOURCE < kernel.len() {
        return None;
    }
    assemble(alloc, &NO_CONSTANTS, source, Some(kernel)).ok()
}

// No number on the stack, and this one on the tape.
fn advice(alloc: Global, number: u32) -> Result<Inputs, Memory> {
    let mut tape = Felts::new(alloc);
    tape.push(Felt::from_u32(number))?;
    if tape.len() > 16 {
        return Err(Memory::Memory);
    }
    Ok(Inputs::new(Felts::new(alloc), tape))
}

// The table file of the program's run, filled in so many pieces.
fn filled_in<R: Threads + Sync>(
    rt: &R,
    alloc: Global,
    program: &Program,
    pieces: usize,
) -> Result<Bytes, Stop>
    requires { (1 ≤ pieces) × (pieces ≤ 64) }
{
    let run = execute(alloc, &NO_CONSTANTS, program, &advice(alloc, 40)?, 1000)?;
    let (trace, _) = trace_of_run(rt, alloc, &NO_CONSTANTS, program, run, pieces, &OpenGate)?;
    Ok(encode(alloc, &trace)?)
}

#[test]
fn a_whole_program_has_one_file(rt: HostRuntime) -> Result<(), Fail> {
    let program = program(rt.alloc());
    assert!(rt; program.is_some());
    if let Some(program) = &program {
        let file = filled_in(&rt, rt.alloc(), program, 1);
        assert!(rt; file.is_ok());
        for pieces in [4, 64] {
            assert!(rt; filled_in(&rt, rt.alloc(), program, pieces) == file);
        }
    }
    Ok(())
}
