ghost use Rattle.std.specs.Prelude.{◌≤◌};

use crate::bitwise::bitwise_table;
use crate::hasher::{ROUND, hasher_table};
use crate::kernel::kernel_table;
use crate::left::left_table;
use crate::memory::memory_table;
use crate::range::range_table;
use air_kit::{Access, BitOp, Perm};
use perm_memo::Permutations;
use rpo_hash::{Params, permute};
use std::alloc::Global;
use std::sync::atomic::{AtomicU64, Ordering};
use std::test::Fail;
use std::thread::Threads;
use vm_field::{Felt, Memory, Word};
use vm_io::{Gate, OpenGate};
use vm_table::{Table, View};

// Constants of zeros, under which zeros are permuted to zeros.
fn zeros() -> Params {
    Params {
        first: [[Felt::ZERO; 12]; 7],
        second: [[Felt::ZERO; 12]; 7],
    }
}

// The cell of a row and a column, if there is one.
fn cell<const W: usize>(table: &Table<W>, row: usize, column: usize) -> Option<u64> {
    if row < table.rows() && column < W {
        Some(table.row(row).cell(column).value())
    } else {
        None
    }
}

// Asked values, and rows of their table with count and value.
static RANGES: [(&[u16], &[(usize, u64, u64)]); 2] = [
    (
        &[1023],
        &[(0, 0, 0), (1, 0, 729), (8, 0, 3210), (41, 0, 65535)],
    ),
    (
        &[5, 0, 65535, 5],
        &[(0, 1, 0), (1, 0, 3), (2, 0, 4), (3, 2, 5), (4, 0, 2192)],
    ),
];

fn fills_ranges(alloc: Global) -> Result<bool, Memory> {
    for (asked, rows) in &RANGES {
        if asked.len() > 4 {
            return Ok(false);
        }
        let table = range_table(alloc, asked, &Table::new(alloc))?;
        for (row, count, value) in *rows {
            if cell(&table, *row, 0) != Some(*count) || cell(&table, *row, 1) != Some(*value) {
                return Ok(false);
            }
        }
    }
    Ok(true)
}

// A permutation whose state is zeros but for its last element.
fn perm(mode: bool, cont: bool, more: bool, last: Felt) -> Perm {
    let mut start = [Felt::ZERO; 12];
    start[11] = last;
    Perm {
        mode,
        cont,
        more,
        start,
    }
}

// A row and a column of a hash of two blocks and a permutation of HPERM, and the flag there.
static FLAGS: [(usize, usize, u64); 8] = [
    (0, 1, 0),
    (6, 2, 0),
    (7, 2, 1),
    (8, 1, 1),
    (15, 0, 0),
    (15, 2, 0),
    (16, 0, 1),
    (23, 1, 0),
];

fn fills_hashes<R: Threads + Sync>(rt: &R, alloc: Global, pieces: usize) -> Result<bool, Memory>
    requires { (1 ≤ pieces) × (pieces ≤ 64) }
{
    let first = perm(false, false, true, Felt::ONE);
    let second = perm(false, true, false, Felt::ZERO);
    let third = perm(true, false, false, Felt::ZERO);
    let perms = [first, second, third];
    let permutations = Permutations::new(alloc, &zeros());
    let table = hasher_table(rt, alloc, &permutations, &perms, pieces, &OpenGate)?;
    for (row, column, flag) in &FLAGS {
        if cell(&table, *row, *column) != Some(*flag) {
            return Ok(false);
        }
    }
    let behind = permute(&zeros(), first.start);
    Ok(
        table.rows() == 24
            && cell(&table, 0, 14) == Some(1)
            && cell(&table, 7, 3) == Some(behind[0].value())
            && cell(&table, 7, 14) == Some(behind[11].value()),
    )
}

fn word(number: u32) -> Word {
    Word([Felt::from_u32(number), Felt::ZERO, Felt::ONE, Felt::ZERO])
}

fn fills_calls(alloc: Global) -> Result<bool, Memory> {
    let words = [word(7), word(8), word(7)];
    let table = kernel_table(alloc, &words, &[word(8), word(7), word(8)])?;
    Ok(
        table.rows() == 3
            && cell(&table, 1, 0) == Some(8)
            && cell(&table, 0, 4) == Some(1)
            && cell(&table, 1, 4) == Some(2)
            && cell(&table, 2, 4) == Some(0),
    )
}

// A row and a column of the rows of two operations, and the cell there.
static BITS: [(usize, usize, u64); 14] = [
    (0, 0, 1),
    (0, 1, 8),
    (0, 2, 0),
    (0, 11, 8),
    (6, 1, 134217743),
    (7, 1, 2147483893),
    (7, 2, 19),
    (7, 4, 0),
    (7, 5, 1),
    (7, 8, 1),
    (7, 9, 0),
    (7, 11, 2147483878),
    (15, 0, 0),
    (15, 11, 8),
];

fn fills_bits(alloc: Global) -> Result<bool, Memory> {
    let first = BitOp {
        xor: true,
        a: 0x8000_00f5,
        b: 0x13,
    };
    let second = BitOp {
        xor: false,
        a: 12,
        b: 10,
    };
    let table = bitwise_table(alloc, &[first, second])?;
    for (row, column, value) in &BITS {
        if cell(&table, *row, *column) != Some(*value) {
            return Ok(false);
        }
    }
    Ok(table.rows() == 16)
}

// An access of context 0.
fn access(kind: u8, addr: u32, clk: u32, word: Word) -> Access {
    Access {
        kind,
        ctx: 0,
        addr,
        clk,
        word: word.elements(),
    }
}

// The rows of three accesses.
static ACCESSES: [[u64; 14]; 3] = [
    [2, 0, 2, 9, 8, 0, 1, 0, 1, 0, 0, 0, 2, 0],
    [1, 0, 65537, 3, 7, 0, 1, 0, 0, 1, 65534, 0, 1, 1],
    [0, 0, 65537, 70000, 7, 0, 1, 0, 0, 0, 4460, 1, 1, 1],
];

fn fills_accesses(alloc: Global) -> Result<bool, Memory> {
    let accesses = [
        access(1, 65537, 3, word(7)),
        access(2, 2, 9, word(8)),
        access(0, 65537, 70000, word(7)),
    ];
    let table = memory_table(alloc, &accesses)?;
    for row in 0..3 {
        for column in 0..14 {
            if cell(&table, row, column) != Some(ACCESSES[row][column]) {
                return Ok(false);
            }
        }
    }
    Ok(table.rows() == 3)
}

fn fills_keys(alloc: Global) -> Result<bool, Memory> {
    let table = left_table(alloc, &[Felt::from_u32(4), Felt::ONE])?;
    Ok(table.rows() == 2 && cell(&table, 0, 0) == Some(4) && cell(&table, 1, 0) == Some(1))
}

#[test]
fn fills_rows_of_requests(rt: HostRuntime) -> Result<(), Fail> {
    assert!(rt; fills_bits(rt.alloc())?);
    assert!(rt; fills_accesses(rt.alloc())?);
    Ok(())
}

#[test]
fn fills_counts_and_keys(rt: HostRuntime) -> Result<(), Fail> {
    assert!(rt; fills_ranges(rt.alloc())?);
    assert!(rt; fills_calls(rt.alloc())?);
    assert!(rt; fills_keys(rt.alloc())?);
    Ok(())
}

#[test]
fn fills_hashes_in_pieces(rt: HostRuntime) -> Result<(), Fail> {
    for pieces in [1, 2, 3, 4, 64] {
        assert!(rt; fills_hashes(&rt, rt.alloc(), pieces)?);
    }
    Ok(())
}

// Two pieces, of which each waits at the gate until the other has entered.
#[derive(Drop)]
struct Meeting {
    seen: [AtomicU64; 2],
    opened: [AtomicU64; 2],
}

impl Gate for Meeting {
    fn enter(&self, piece: usize) {
        if piece >= 2 {
            return;
        }
        self.seen[piece].store(1, Ordering::SeqCst);
        for _ in 0..500_000_000u64 {
            if self.seen[1 - piece].load(Ordering::SeqCst) == 1 {
                self.opened[piece].store(1, Ordering::SeqCst);
                return;
            }
        }
    }
}

// A body that fills one piece after the other does not let them meet.
#[test]
fn two_pieces_meet(rt: HostRuntime) -> Result<(), Fail> {
    let meeting = Meeting {
        seen: [AtomicU64::new(0), AtomicU64::new(0)],
        opened: [AtomicU64::new(0), AtomicU64::new(0)],
    };
    let gate = &meeting;
    let perms = [
        perm(true, false, false, Felt::ONE),
        perm(true, false, false, Felt::ZERO),
    ];
    let permutations = Permutations::new(rt.alloc(), &zeros());
    let table = hasher_table(&rt, rt.alloc(), &permutations, &perms, 2, gate)?;
    assert!(rt; table.rows() == 16);
    assert!(rt; gate.opened[0].load(Ordering::SeqCst) == 1);
    assert!(rt; gate.opened[1].load(Ordering::SeqCst) == 1);
    Ok(())
}

// How often each of three pieces entered, and last how often any other did.
#[derive(Drop)]
struct Counter {
    entered: [AtomicU64; 4],
}

impl Gate for Counter {
    fn enter(&self, piece: usize) {
        let _ = self.entered[piece.min(3)].fetch_add(1, Ordering::SeqCst);
    }
}

// Permutations of HPERM, of which each has its number in its state.
fn numbered(alloc: Global, count: u32) -> Result<Vec<Perm>, Memory> {
    let mut perms = Vec::new(alloc);
    for number in 0..count {
        perms.push(perm(true, false, false, Felt::from_u32(number)))?;
    }
    Ok(perms)
}

// Behind 1,024 permutations comes a round of one more: each piece enters in both, also where it has none.
#[test]
fn each_piece_enters_once_a_round(rt: HostRuntime) -> Result<(), Fail> {
    let counter = Counter {
        entered: [
            AtomicU64::new(0),
            AtomicU64::new(0),
            AtomicU64::new(0),
            AtomicU64::new(0),
        ],
    };
    let gate = &counter;
    let perms = numbered(rt.alloc(), ROUND as u32 + 1)?;
    let permutations = Permutations::new(rt.alloc(), &zeros());
    let alloc = rt.alloc();
    assert!(rt; perms.len() == ROUND + 1);
    let table = hasher_table(&rt, alloc, &permutations, perms.as_slice(), 3, gate)?;
    assert!(rt; table.rows() == 8 * (ROUND + 1));
    for piece in 0..3usize {
        assert!(rt; gate.entered[piece].load(Ordering::SeqCst) == 2);
    }
    assert!(rt; gate.entered[3].load(Ordering::SeqCst) == 0);
    for number in [0, 341, 342, ROUND - 1, ROUND] {
        assert!(rt; cell(&table, 8 * number, 14) == Some(number as u64));
        let start = perm(true, false, false, Felt::from_u32(number as u32)).start;
        let behind = permute(&zeros(), start);
        assert!(rt; cell(&table, 8 * number + 7, 3) == Some(behind[0].value()));
    }
    Ok(())
}
