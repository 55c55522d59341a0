ghost use Rattle.std.specs.Prelude.{◌≡◌, List, ℕ, [], IfOk};
ghost use Rattle.air_kit.specs.Requests.{Fits};

use air_kit::{Access, BitOp, Perm, Requests};
use fill_chips::{Chips, fill_chips, range_laws};
use perm_memo::Permutations;
use rpo_hash::Params;
use std::alloc::Global;
use std::test::Fail;
use std::thread::Threads;
use vm_field::{Felt, Felts, Memory, Sequence, Words};
use vm_io::OpenGate;
use vm_table::{Table, View};

// Constants of zeros, under which zeros are permuted to zeros.
fn zeros() -> Params {
    Params {
        first: [[Felt::ZERO; 12]; 7],
        second: [[Felt::ZERO; 12]; 7],
    }
}

// The cell of a row and a column, if there is one.
fn cell<const W: usize>(table: &Table<W>, row: usize, column: usize) -> Option<u64> {
    if row < table.rows() && column < W {
        Some(table.row(row).cell(column).value())
    } else {
        None
    }
}

// What the program of one span of one NOOP asks: the hash of zeros, and how many blocks its start leaves.
fn empty_program(alloc: Global) -> Result<Requests, Memory>
    ensures fit { IfOk result (λ requests. (constants : List ℕ) → Fits constants [] requests) }
{
    let mut perms = Sequence::new(alloc);
    perms.push(Perm {
        mode: false,
        cont: false,
        more: false,
        start: [Felt::ZERO; 12],
    })?;
    let mut ranges = Sequence::new(alloc);
    ranges.push(1023)?;
    Ok(Requests {
        perms,
        bits: Sequence::new(alloc),
        accesses: Sequence::new(alloc),
        ranges,
        calls: Words::new(alloc),
        keys: Felts::new(alloc),
    })
}

// A word that is written at address 65538, at clock 3.
fn stored() -> Access
    ensures kind { result.kind ≡ 1 }
    ensures clk { result.clk ≡ 3 }
{
    Access {
        kind: 1,
        ctx: 0,
        addr: 65538,
        clk: 3,
        word: [7, 8, 9, 10].map(Felt::from_u32),
    }
}

// What that and two bitwise operations ask: 5 xor 6, and then 12 and 10.
fn store_and_bits(alloc: Global) -> Result<Requests, Memory>
    ensures fit { IfOk result (λ requests. (constants : List ℕ) → Fits constants [] requests) }
{
    let mut bits = Sequence::new(alloc);
    bits.push(BitOp {
        xor: true,
        a: 5,
        b: 6,
    })?;
    bits.push(BitOp {
        xor: false,
        a: 12,
        b: 10,
    })?;
    let mut accesses = Sequence::new(alloc);
    accesses.push(stored())?;
    Ok(Requests {
        perms: Sequence::new(alloc),
        bits,
        accesses,
        ranges: Sequence::new(alloc),
        calls: Words::new(alloc),
        keys: Felts::new(alloc),
    })
}

fn counts(chips: &Chips) -> [usize; 6] {
    [
        chips.range.rows(),
        chips.hasher.rows(),
        chips.bitwise.rows(),
        chips.memory.rows(),
        chips.kernel.rows(),
        chips.left.rows(),
    ]
}

fn fills_empty_program<R: Threads + Sync>(rt: &R, alloc: Global) -> Result<bool, Memory> {
    let permutations = Permutations::new(alloc, &zeros());
    let requests = empty_program(alloc)?;
    let chips = fill_chips(
        rt,
        alloc,
        &permutations,
        &Words::new(alloc),
        &requests,
        4,
        &OpenGate,
    )?;
    let asked = cell(&chips.range, 7, 0) == Some(1) && cell(&chips.range, 7, 1) == Some(1023);
    let digest = cell(&chips.hasher, 7, 7) == Some(0) && cell(&chips.hasher, 7, 2) == Some(0);
    Ok(counts(&chips) == [42, 8, 0, 0, 0, 0] && asked && digest)
}

// The last rows of both operations: their kinds, operands and results.
static BITS: [(usize, usize, u64); 8] = [
    (7, 0, 1),
    (7, 1, 5),
    (7, 2, 6),
    (7, 11, 3),
    (15, 0, 0),
    (15, 1, 12),
    (15, 2, 10),
    (15, 11, 8),
];

// The row of the write: its context is a new one, and nothing grows, since no row is before it.
static STORED: [u64; 14] = [1, 0, 65538, 3, 7, 8, 9, 10, 1, 0, 0, 0, 2, 1];

fn fills_store_and_bits<R: Threads + Sync>(rt: &R, alloc: Global) -> Result<bool, Memory> {
    let permutations = Permutations::new(alloc, &zeros());
    let requests = store_and_bits(alloc)?;
    let chips = fill_chips(
        rt,
        alloc,
        &permutations,
        &Words::new(alloc),
        &requests,
        4,
        &OpenGate,
    )?;
    let mut all = counts(&chips)[1..] == [0, 16, 1, 0, 0];
    for (row, column, value) in &BITS {
        all = all && cell(&chips.bitwise, *row, *column) == Some(*value);
    }
    for column in 0..14 {
        all = all && cell(&chips.memory, 0, column) == Some(STORED[column]);
    }
    Ok(all)
}

#[test]
fn fills_the_tables_of_a_store_and_bits(rt: HostRuntime) -> Result<(), Fail> {
    assert!(rt; fills_store_and_bits(&rt, rt.alloc())?);
    Ok(())
}

#[test]
fn fills_the_tables_of_an_empty_program(rt: HostRuntime) -> Result<(), Fail> {
    range_laws();
    assert!(rt; fills_empty_program(&rt, rt.alloc())?);
    Ok(())
}
