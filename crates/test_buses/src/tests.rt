ghost use Rattle.std.specs.Prelude.{◌≡◌, length, true, IfOk, IfSome};
ghost use Rattle.air_kit.specs.Flags.{HasBits};
ghost use Rattle.bus_kit.specs.ByBus.{HaveRoom};
ghost use Rattle.bus_main.specs.RowTuples.{IsReadable};

use air_kit::{Place, Public};
use bus_blocks::positions;
use bus_kit::{Seed, Tallies, Tuple, Unequal};
use bus_main::tuples;
use buses::Bus;
use rpo_hash::Params;
use std::alloc::Global;
use std::test::Fail;
use vm_field::{Felt, Felts, Memory, Word, Words};
use vm_ops::{Op, opcode};
use vm_state::Statement;
use vm_table::{MainView, Row, Table};

/// A row with its operation and cells, the row behind it, and the least tuple of one bus that is asked
/// and given unequally often.
struct Case {
    number: u32,
    op: Op,
    cells: &'static [(usize, u32)],
    next: &'static [(usize, u32)],
    bus: Bus,
    tuple: &'static [u64],
    asked: u128,
    given: u128,
}

// A case is a line: the row's number, its operation, its cells and those of the row behind it, each by its column, and the tuple.
macro_rules! cases {
    ($(
        $number:literal $op:ident [$($column:literal = $cell:literal)*] [$($below:literal = $behind:literal)*]
        => $bus:ident [$($element:literal)*] $asked:literal $given:literal;
    )*) => {
        [$(Case {
            number: $number,
            op: Op::$op,
            cells: &[$(($column, $cell)),*],
            next: &[$(($below, $behind)),*],
            bus: Bus::$bus,
            tuple: &[$($element),*],
            asked: $asked,
            given: $given,
        }),*]
    };
}

// Columns: 0 the clock, 2 the context, 8 the address, 16 the hash elements, 24 the bit of spans, 25 the
// count of groups, 27 the flags of a batch, 30 the stack, 46 its depth, 47 the key, 49 the address of
// the batch, 50 the level, 51 witnesses, 55 limbs.
static CASES: [Case; 15] = cases! {
    3 Span [8=4] [8=5] => Blocks [5 4 2 0 0 0 0 0 0 0 0 0] 0 1;
    3 End [8=5 22=1] [8=4 0=7 1=8 2=9 46=16] => Blocks [5 4 3 9 8 0 16 0 0 0 0 0] 1 0;
    0 Noop [] [] => Children [0 11 12 13 14 0] 0 1;
    3 Split [16=1 20=2 21=3] [8=5] => Children [5 2 3 0 0 0] 0 1;
    3 Dyn [30=4 31=3 32=2 33=1] [8=25] => Children [25 1 2 3 4 0] 0 1;
    3 Dyn [] [8=25] => Hasher [1 25 80 0 0 0 0 0 0 0 0] 1 0;
    3 Loop [16=1 17=2 51=6] [8=5] => Loops [5 1 2 0 0] 0 6;
    3 Respan [28=1 17=21 18=22 19=23] [49=9] => Groups [9 1 23] 0 1;
    3 Pad [0=3 45=8 47=2] [] => Overflow [3 8 2] 0 1;
    3 Drop [46=17 45=8 47=2] [45=9 47=1] => Overflow [2 9 1] 1 0;
    3 HPerm [51=9 30=1 41=12] [] => Hasher [4 9 12 0 0 0 0 0 0 0 0 0 0 1] 1 0;
    3 U32Xor [30=5 31=6] [30=3] => Bitwise [1 5 6 3] 1 0;
    3 MStore [0=3 2=4 30=5 31=6 55=7] [] => Memory [2 4 5 3 6 7 0 0] 1 0;
    3 U32Div [] [] => Range [0] 10 0;
    3 Syscall [16=1 19=4] [] => Kernel [1 0 0 4] 1 0;
};

fn cells_of(op: Op, changes: &[(usize, u32)]) -> [Felt; 65] {
    let mut cells = [Felt::ZERO; 65];
    let mut bits = opcode(op);
    for j in 0..7 {
        cells[9 + j] = Felt::from_u32(u32::from(bits % 2));
        bits = bits / 2;
    }
    for (column, element) in changes {
        if *column < 65 {
            cells[*column] = Felt::from_u32(*element);
        }
    }
    cells
}

fn public(alloc: Global) -> Result<Public, Memory> {
    let digest = Word([
        Felt::from_u32(11),
        Felt::from_u32(12),
        Felt::from_u32(13),
        Felt::from_u32(14),
    ]);
    let outputs = Felts::copied(alloc, &[Felt::ZERO; 16])?;
    Ok(Public {
        params: Params {
            first: [[Felt::ZERO; 12]; 7],
            second: [[Felt::ZERO; 12]; 7],
        },
        statement: Statement::new(digest, Words::new(alloc), Felts::new(alloc), outputs),
    })
}

fn has_bits<V: MainView>(x: &V) -> bool
    ensures { result ≡ true → HasBits (V.cells x.now) }
{
    for j in 0..7 {
        if x.b(j).value() >= 2 {
            return false;
        }
    }
    true
}

fn is_readable<V: MainView>(x: &V) -> bool
    ensures { result ≡ true → IsReadable (V.cells x.now) }
{
    if !has_bits(x) {
        return false;
    }
    positions(x).value() <= 8
}

fn may_follow<V: MainView>(next: &Option<V>) -> bool
    ensures { result ≡ true → IfSome next.now (λ y. HasBits (V.cells y)) }
{
    match next {
        Some(y) => has_bits(y),
        None => true,
    }
}

// A case's two rows: the one that is counted and the one behind it.
fn rows(alloc: Global, case: &Case) -> Result<Table<65>, Memory>
    ensures { IfOk result (λ rows. length rows ≡ 2) }
{
    let mut rows = Table::<65>::new(alloc);
    rows.push_row(&cells_of(case.op, case.cells))?;
    rows.push_row(&cells_of(Op::Noop, case.next))?;
    Ok(rows)
}

// Counts what the row of this place gives and asks, and says whether it could be read.
fn count_place(place: &Place<'_, Row<'_, 65>>, tallies: &mut Tallies) -> Result<bool, Memory>
    requires { HaveRoom tallies.old }
{
    if is_readable(&place.cur) && may_follow(&place.next) {
        tuples(place, tallies).and(Ok(true))
    } else {
        Ok(false)
    }
}

// Counts a case's row, with or without the row behind it.
fn count(alloc: Global, case: &Case, ends: bool, tallies: &mut Tallies) -> Result<bool, Memory>
    requires { HaveRoom tallies.old }
{
    let public = public(alloc)?;
    let rows = rows(alloc, case)?;
    let place = Place {
        cur: rows.row(0),
        next: if ends { None } else { Some(rows.row(1)) },
        row: case.number,
        lengths: [0; 7],
        left_key: Felt::ZERO,
        public: &public,
    };
    count_place(&place, tallies)
}

fn is_of(tuple: &Tuple, numbers: &[u64]) -> bool {
    let elements = tuple.as_slice();
    if elements.len() != numbers.len() {
        return false;
    }
    for i in 0..elements.len() {
        if elements[i].value() != numbers[i] {
            return false;
        }
    }
    true
}

// Whether this is apart behind the case's row. The first row gives the digest even where it is the last; another last row
// gives nothing.
fn is_apart(found: &Option<Unequal>, case: &Case, ends: bool) -> bool {
    match found {
        Some(_) if ends => case.number == 0,
        Some(apart) => {
            is_of(&apart.tuple, case.tuple)
                && apart.asked == case.asked
                && apart.given == case.given
        }
        None => ends && case.number != 0,
    }
}

// Whether a row's tallies are as its case says. Nothing returns before the end: the proof pays for the tallies at each return.
fn is_counted(alloc: Global, case: &Case, ends: bool) -> Result<bool, Memory> {
    let mut tallies = Tallies::new(alloc, Seed::new(0));
    let done = count(alloc, case, ends, &mut tallies);
    let is_right = is_apart(&tallies.unequal(case.bus), case, ends);
    done.map(|is_read| is_read && is_right)
}

fn are_counted(alloc: Global, cases: &[Case]) -> Result<bool, Memory> {
    let mut all = true;
    for case in cases {
        all = is_counted(alloc, case, false)? && all;
        all = is_counted(alloc, case, true)? && all;
    }
    Ok(all)
}

#[test]
fn counts_on_each_bus(rt: HostRuntime) -> Result<(), Fail> {
    assert!(rt; are_counted(rt.alloc(), &CASES)?);
    Ok(())
}
