ghost use Rattle.bus_kit.specs.ByBus.{HaveRoom};

use air_kit::{Place, Public};
use bus_chips::{tuples_bitwise, tuples_memory};
use bus_kit::{Seed, Tallies, Tuple, Unequal};
use buses::Bus;
use rpo_hash::Params;
use std::alloc::Global;
use std::test::Fail;
use vm_field::{Felt, Felts, Memory, Word, Words};
use vm_state::Statement;
use vm_table::Table;

// A bitwise operation's kind, its operands, their four last bits, and its result: the exclusive or of 5 and 6.
static COMBINED: [u32; 12] = [1, 5, 6, 1, 0, 1, 0, 0, 1, 1, 0, 3];

// Element 0 of the word at address 458759 of context 4 is written at clock 3; all four limbs are 7.
static STORED: [u32; 14] = [2, 4, 458759, 3, 6, 8, 9, 10, 0, 1, 7, 7, 7, 7];

// The row that is counted.
enum Counted {
    // The bitwise operation, as the row of this number.
    Combined(u32),
    // The access of memory, as row 0.
    Stored,
}

// The one tuple of a bus that is asked and given unequally often.
struct Apart {
    tuple: &'static [u64],
    asked: u128,
    given: u128,
}

// A row, and what is apart on a bus behind it.
struct Case {
    counted: Counted,
    bus: Bus,
    apart: Option<Apart>,
}

// The last row of eight gives the operation, and one before it nothing.
static BITWISE_CASES: [Case; 2] = [
    Case {
        counted: Counted::Combined(7),
        bus: Bus::Bitwise,
        apart: Some(Apart {
            tuple: &[1, 5, 6, 3],
            asked: 0,
            given: 1,
        }),
    },
    Case {
        counted: Counted::Combined(14),
        bus: Bus::Bitwise,
        apart: None,
    },
];

// A row of memory gives its access and asks its limbs.
static MEMORY_CASES: [Case; 2] = [
    Case {
        counted: Counted::Stored,
        bus: Bus::Memory,
        apart: Some(Apart {
            tuple: &[2, 4, 458759, 3, 6, 8, 9, 10],
            asked: 0,
            given: 1,
        }),
    },
    Case {
        counted: Counted::Stored,
        bus: Bus::Range,
        apart: Some(Apart {
            tuple: &[7],
            asked: 4,
            given: 0,
        }),
    },
];

fn public(alloc: Global) -> Result<Public, Memory> {
    let digest = Word([11, 12, 13, 14].map(Felt::from_u32));
    let outputs = Felts::copied(alloc, &[Felt::ZERO; 16])?;
    Ok(Public {
        params: Params {
            first: [[Felt::ZERO; 12]; 7],
            second: [[Felt::ZERO; 12]; 7],
        },
        statement: Statement::new(digest, Words::new(alloc), Felts::new(alloc), outputs),
    })
}

fn is_of(tuple: &Tuple, numbers: &[u64]) -> bool {
    let elements = tuple.as_slice();
    if elements.len() != numbers.len() {
        return false;
    }
    for i in 0..elements.len() {
        if elements[i].value() != numbers[i] {
            return false;
        }
    }
    true
}

fn is_apart(found: &Option<Unequal>, apart: &Option<Apart>) -> bool {
    match (found, apart) {
        (Some(found), Some(apart)) => {
            is_of(&found.tuple, apart.tuple)
                && found.asked == apart.asked
                && found.given == apart.given
        }
        (None, None) => true,
        _ => false,
    }
}

fn count_combined(
    alloc: Global,
    public: &Public,
    row: u32,
    tallies: &mut Tallies,
) -> Result<(), Memory>
    requires { HaveRoom tallies.old }
{
    let mut table = Table::<12>::new(alloc);
    table.push_row(&COMBINED.map(Felt::from_u32))?;
    let place = Place {
        cur: table.row(0),
        next: None,
        row,
        lengths: [0; 7],
        left_key: Felt::ZERO,
        public,
    };
    tuples_bitwise(&place, tallies)
}

fn count_stored(alloc: Global, public: &Public, tallies: &mut Tallies) -> Result<(), Memory>
    requires { HaveRoom tallies.old }
{
    let mut table = Table::<14>::new(alloc);
    table.push_row(&STORED.map(Felt::from_u32))?;
    let place = Place {
        cur: table.row(0),
        next: None,
        row: 0,
        lengths: [0; 7],
        left_key: Felt::ZERO,
        public,
    };
    tuples_memory(&place, tallies)
}

fn count(alloc: Global, counted: &Counted, tallies: &mut Tallies) -> Result<(), Memory>
    requires { HaveRoom tallies.old }
{
    let public = public(alloc)?;
    match counted {
        Counted::Combined(row) => count_combined(alloc, &public, *row, tallies),
        Counted::Stored => count_stored(alloc, &public, tallies),
    }
}

// Whether a row's tallies are as its case says. Nothing returns before the end: the proof pays for the tallies at each return.
fn is_counted(alloc: Global, case: &Case) -> Result<bool, Memory> {
    let mut tallies = Tallies::new(alloc, Seed::new(0));
    let done = count(alloc, &case.counted, &mut tallies);
    let is_right = is_apart(&tallies.unequal(case.bus), &case.apart);
    done.and(Ok(is_right))
}

fn are_counted(alloc: Global, cases: &[Case]) -> Result<bool, Memory> {
    let mut all = true;
    for case in cases {
        all = is_counted(alloc, case)? && all;
    }
    Ok(all)
}

#[test]
fn bitwise_rows_give(rt: HostRuntime) -> Result<(), Fail> {
    assert!(rt; are_counted(rt.alloc(), &BITWISE_CASES)?);
    Ok(())
}

#[test]
fn memory_rows_give_and_ask(rt: HostRuntime) -> Result<(), Fail> {
    assert!(rt; are_counted(rt.alloc(), &MEMORY_CASES)?);
    Ok(())
}
