use super::shelf::{checked, element, put_trace, zeros};
use air_kit::Trace;
use rpo_hash::{Params, round};
use std::alloc::Global;
use std::test::Fail;
use std::thread::Threads;
use vm_field::{Felt, Memory, Word};
use vm_io::MemShelf;
use vm_table::Table;

// A JOIN of two spans that share one hash: both say that it begins at address 9, and the hasher's table shows it once.

const JOIN: u64 = 70;

const SPAN: u64 = 73;

const END: u64 = 76;

const HALT: u64 = 79;

// The constants that are all 0.
fn no_constants() -> Params {
    Params {
        first: [[Felt::ZERO; 12]; 7],
        second: [[Felt::ZERO; 12]; 7],
    }
}

// A row of the main table: the address of the newest open block, the operation's code, and other cells by their columns.
struct MainRow {
    address: u64,
    code: u64,
    others: &'static [(usize, u64)],
}

macro_rules! rows {
    ($($address:literal $code:tt [$($column:literal = $cell:literal)*];)*) => {
        [$(MainRow {
            address: $address,
            code: $code,
            others: &[$(($column, $cell)),*],
        }),*]
    };
}

// JOIN, twice SPAN, NOOP and END, the END of the JOIN without its digest, and HALT.
static MAIN: [MainRow; 9] = rows! {
    0 JOIN [];
    1 SPAN [50=1];
    9 0 [24=1 49=9 50=2];
    9 END [21=1 49=9 50=2];
    1 SPAN [50=1];
    9 0 [24=1 49=9 50=2];
    9 END [21=1 49=9 50=2];
    1 END [50=1];
    0 HALT [];
};

// The states of a permutation: the one before it, and that behind each round.
fn states_from(first: [Felt; 12]) -> [[Felt; 12]; 8] {
    let params = no_constants();
    let mut states = [first; 8];
    for k in 0..7 {
        states[k + 1] = round(&params, k, &states[k]);
    }
    states
}

// The hash of two digests that are 0, under the domain of JOIN.
fn join_states() -> [[Felt; 12]; 8] {
    let mut first = [Felt::ZERO; 12];
    first[1] = element(JOIN);
    states_from(first)
}

fn main_row(clock: u64, row: &MainRow, digest: &[Felt; 4]) -> [Felt; 65] {
    let mut cells = [Felt::ZERO; 65];
    cells[0] = element(clock);
    cells[1] = element(1 << 30);
    cells[8] = element(row.address);
    for bit in 0..7usize {
        cells[9 + bit] = element((row.code >> bit) & 1);
    }
    if row.code == END && row.address == 1 {
        for j in 0..4usize {
            cells[16 + j] = digest[j];
        }
    }
    cells[46] = element(16);
    for other in row.others {
        if other.0 < 65 {
            cells[other.0] = element(other.1);
        }
    }
    cells
}

fn main_table(alloc: Global, digest: &[Felt; 4]) -> Result<Table<65>, Memory> {
    let mut table = Table::new(alloc);
    let mut clock = 0u64;
    for row in &MAIN {
        table.push_row(&main_row(clock, row, digest))?;
        clock = clock.wrapping_add(1);
    }
    Ok(table)
}

fn push_states(table: &mut Table<15>, states: &[[Felt; 12]; 8]) -> Result<(), Memory> {
    for k in 0..8usize {
        let mut cells = [Felt::ZERO; 15];
        for j in 0..12usize {
            cells[3 + j] = states[k][j];
        }
        table.push_row(&cells)?;
    }
    Ok(())
}

// The steps that neighbours of the range table may have, the greatest first.
static STEPS: [u64; 8] = [2187, 729, 243, 81, 27, 9, 3, 1];

// The values up to 65535, of which 1022 is asked twice and 1023 once.
fn range_table(alloc: Global) -> Result<Table<2>, Memory> {
    let mut table = Table::new(alloc);
    let mut value = 0u64;
    for _ in 0..200 {
        let count = match value {
            1022 => 2,
            1023 => 1,
            _ => 0,
        };
        table.push_row(&[element(count), element(value)])?;
        let next = if value < 1022 {
            1022
        } else if value < 1023 {
            1023
        } else {
            65535
        };
        let rest = u64::saturating_sub(next, value);
        let Some(step) = STEPS.iter().copied().find(|step| *step <= rest) else {
            break;
        };
        value = value.saturating_add(step);
    }
    Ok(table)
}

fn trace(alloc: Global, digest: &[Felt; 4]) -> Result<Trace, Memory> {
    let mut hasher = Table::new(alloc);
    push_states(&mut hasher, &join_states())?;
    push_states(&mut hasher, &states_from([Felt::ZERO; 12]))?;
    Ok(Trace {
        main: main_table(alloc, digest)?,
        range: range_table(alloc)?,
        hasher,
        bitwise: Table::new(alloc),
        memory: Table::new(alloc),
        kernel: Table::new(alloc),
        left: Table::new(alloc),
    })
}

// The statement of a program of this digest that leaves sixteen zeros.
fn claim(alloc: Global, digest: &[Felt; 4]) -> Result<Vec<u8>, Memory> {
    let mut text = Vec::from_slice(alloc, br#"{"digest":""#)?;
    text.extend_from_slice(Word(*digest).hex(alloc)?.as_bytes())?;
    text.extend_from_slice(
        br#"","inputs":[],"kernel":[],"outputs":[0,0,0,0,0,0,0,0,0,0,0,0,0,0,0,0]}"#,
    )?;
    Ok(text)
}

// What `check` prints of it.
fn said(rt: &(impl Threads + Sync), alloc: Global) -> Result<Vec<u8>, Memory> {
    let last = join_states()[7];
    let digest = [last[4], last[5], last[6], last[7]];
    let mut shelf = MemShelf::new(alloc);
    shelf.put("z", zeros(alloc)?.as_slice())?;
    shelf.put("u", claim(alloc, &digest)?.as_slice())?;
    let _fits = put_trace(alloc, &mut shelf, &trace(alloc, &digest)?)?;
    checked(rt, alloc, &mut shelf)
}

#[test]
fn one_hash_serves_one_block(rt: HostRuntime) -> Result<(), Fail> {
    let said = said(&rt, rt.alloc())?;
    assert_eq!(rt;
        said.as_slice(),
        b"refused bus hasher tuple 1 9 0 0 0 0 0 0 0 0 0 asked 2 given 1\n".as_slice()
    );
    Ok(())
}
