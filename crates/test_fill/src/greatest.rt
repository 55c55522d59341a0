use crate::tests::{Cell, NO_CONSTANTS, cells, filled, program, program_over, shows, span};
use air_kit::{Access, Requests};
use block_tree::{Program, Tree, digest};
use machine_cycles::Stop;
use std::alloc::Global;
use vm_field::{Felt, Memory, Words};
use vm_ops::Op;

// What a run asks but for permutations: operands with whether they are those of the exclusive or, a kind, an address and a clock
// with the first element of the word, numbers of 16 bits, and how many procedures of the kernel.
struct Asked {
    bits: &'static [(bool, u32, u32)],
    accesses: &'static [(u8, u32, u32, u32)],
    ranges: &'static [u16],
    calls: usize,
}

// A span's operations and immediates, cells of its run's table, and what the run asks.
struct Row {
    ops: &'static [Op],
    numbers: &'static [u32],
    cells: &'static [Cell],
    asked: Asked,
}

macro_rules! row {
    (
        [$($op:ident)*] [$($number:literal)*] cells { $($cell:tt)* }
        bits [$(($xor:literal $a:literal $b:literal))*] accesses [$(($kind:literal $addr:literal $clk:literal $first:literal))*]
        ranges [$($range:literal)*] calls $calls:literal
    ) => {
        Row {
            ops: &[$(Op::$op),*],
            numbers: &[$($number),*],
            cells: &cells! { $($cell)* },
            asked: Asked {
                bits: &[$(($xor, $a, $b)),*],
                accesses: &[$(($kind, $addr, $clk, $first)),*],
                ranges: &[$($range),*],
                calls: $calls,
            },
        }
    };
}

static AND: Row = row! {
    [Push Push U32And] [2147483648 4294967295]
    cells {
        3: 30=4294967295 31=2147483648;
        4: 30=2147483648;
    }
    bits [(false 4294967295 2147483648)] accesses [] ranges [1023] calls 0
};

static XOR: Row = row! {
    [Push Push U32Xor] [2147483648 2147483649]
    cells {
        3: 30=2147483649;
        4: 30=1;
    }
    bits [(true 2147483649 2147483648)] accesses [] ranges [1023] calls 0
};

// The greatest product and sum: the high word is 2^32 - 1, and the low one 0.
static PRODUCT: Row = row! {
    [Push Push Push U32MAdd] [4294967295 4294967295 4294967295]
    cells {
        4: 51=0 55=65535 61=0 64=65535;
        5: 30=4294967295 31=0;
    }
    bits [] accesses [] ranges [1023 65535 65535 65535 65535 65535 65535 0 0 65535 65535] calls 0
};

static ADDRESS: Row = row! {
    [Push Push MStore] [7 4294967295]
    cells {
        3: 30=4294967295 31=7;
        4: 30=7;
    }
    bits [] accesses [(2 4294967295 3 7)] ranges [1023] calls 0
};

// A procedure of the kernel with four locals, which stores 9 at the frame pointer: it is 2^31 where the procedure starts.
static LOCALS: Row = row! {
    [Push FmpUpdate Push Push FmpAdd MStore Drop] [4 9 0]
    cells {
        0: 1=1073741824;
        1: 1=2147483648 3=1;
        4: 1=2147483652;
        7: 30=2147483652 31=9 46=18 47=5;
        11: 1=1073741824 3=0;
    }
    bits [] accesses [(2 2147483652 7 9)] ranges [1023 1022] calls 1
};

fn ask_bits(requests: &Requests, asked: &[(bool, u32, u32)]) -> bool {
    let ops = requests.bits.as_slice();
    let mut all = ops.len() == asked.len();
    for (op, (xor, a, b)) in ops.iter().zip(asked) {
        all = all && op.xor == *xor && op.a == *a && op.b == *b;
    }
    all
}

// In context 0, where all words were zeros.
fn is_access(access: &Access, kind: u8, addr: u32, clk: u32, first: u32) -> bool {
    let word = [Felt::from_u32(first), Felt::ZERO, Felt::ZERO, Felt::ZERO];
    let place = access.ctx == 0 && access.addr == addr && access.clk == clk;
    place && access.kind == kind && access.word == word
}

fn ask_accesses(requests: &Requests, asked: &[(u8, u32, u32, u32)]) -> bool {
    let accesses = requests.accesses.as_slice();
    let mut all = accesses.len() == asked.len();
    for (access, (kind, addr, clk, first)) in accesses.iter().zip(asked) {
        all = all && is_access(access, *kind, *addr, *clk, *first);
    }
    all
}

fn ask(requests: &Requests, asked: &Asked) -> bool {
    let numbers = ask_bits(requests, asked.bits) && requests.ranges.as_slice() == asked.ranges;
    numbers && ask_accesses(requests, asked.accesses) && requests.calls.len() == asked.calls
}

// Whether the run of a program is filled as the row says.
fn is_filled(alloc: Global, row: &Row, program: &Program) -> Result<bool, Stop> {
    let (table, requests) = filled(alloc, program, 0)?;
    Ok(shows(&table, row.cells) && ask(&requests, &row.asked))
}

// The same of the row's span.
fn fills_span(alloc: Global, row: &Row) -> Result<bool, Stop> {
    let tree = span(alloc, row.ops, row.numbers)?;
    is_filled(alloc, row, &program(alloc, tree)?)
}

// The program of a syscall of a tree.
fn program_of_syscall(alloc: Global, callee: Tree) -> Result<Program, Memory> {
    let mut kernel = Words::new(alloc);
    kernel.push(digest(&NO_CONSTANTS, &callee))?;
    program_over(alloc, kernel, Tree::Syscall(Box::new(alloc, callee)?))
}

// The same of a syscall of the row's span.
fn fills_syscall(alloc: Global, row: &Row) -> Result<bool, Stop> {
    let callee = span(alloc, row.ops, row.numbers)?;
    is_filled(alloc, row, &program_of_syscall(alloc, callee)?)
}

#[test]
fn asks_great_operands(rt: HostRuntime) {
    assert_eq!(rt; fills_span(rt.alloc(), &AND), Ok(true));
    assert_eq!(rt; fills_span(rt.alloc(), &XOR), Ok(true));
}

#[test]
fn fills_the_greatest_limbs(rt: HostRuntime) {
    assert_eq!(rt; fills_span(rt.alloc(), &PRODUCT), Ok(true));
}

#[test]
fn asks_great_addresses(rt: HostRuntime) {
    assert_eq!(rt; fills_span(rt.alloc(), &ADDRESS), Ok(true));
    assert_eq!(rt; fills_syscall(rt.alloc(), &LOCALS), Ok(true));
}
