use crate::tests::calls::{all_hold, all_write, all_wrong, answers, shelf_of};
use crate::tests::content::Content;
use crate::tests::row::{CHECK, RUN, Row, row, rows};
use std::alloc::Global;
use std::test::Fail;
use std::thread::Threads;
use vm_field::Memory;
use vm_io::MemShelf;

// The source of one turn.
const ONE_TURN: &str = "proc.bump
  push.1 u32wrapping_add
end
begin
  push.0
  push.1
  dup.0 neq.0
  while.true
    dup.0 movup.2 u32wrapping_add
    adv_push.1 u32checked_xor
    call.bump
    dup.0 is_odd
    if.true
      push.1 u32checked_xor
    else
      push.2 u32checked_xor
    end
    dup.0 mem_store.7
    padw padw padw hperm dropw dropw dropw
    swap sub.1
    dup.0 neq.0
  end
  drop
end
";

// The inputs of three.
const SQUARES: &str = r#"{"advice":[1,4,9],"stack":[]}"#;

static ONE: [Row; 1] = rows! {
    b"make z 1 --source m --inputs i" {z} => 0 "cycles 95\noutputs 0 0 0 0 0 0 0 0 0 0 0 0 0 0 0 0 0\naccepted\n";
};

static TWO: Row = row! {
    b"make --inputs=i z --source=m -- 2" {z} => 0 "cycles 174\noutputs 6 0 0 0 0 0 0 0 0 0 0 0 0 0 0 0 0\naccepted\n"
};

static THREE: [Row; 1] = rows! {
    b"make z 3 --source m --inputs i" {z} => 0 "cycles 253\noutputs 8 0 0 0 0 0 0 0 0 0 0 0 0 0 0 0 0\naccepted\n";
};

// The same lines each time.
static MANY: [Row; 2] = rows! {
    b"make z 200 --source m --inputs i" {z} => 0 "cycles 15816\noutputs 44512 0 0 0 0 0 0 0 0 0 0 0 0 0 0 0 0\naccepted\n";
    b"make z 200 --source m --inputs i" {z} => 0 "cycles 15816\noutputs 44512 0 0 0 0 0 0 0 0 0 0 0 0 0 0 0 0\naccepted\n";
};

// A call or a print fails, or the parameters are not there: what stood under the names of the outputs stands, but for a write that
// failed.
static FAILED: [Row; 5] = rows! {
    b"make z 1 --source m --inputs i" {m = "old", i = "old"} => 6 "missing z\n";
    b"make z 1 --source m --inputs i" {z: Lines(167, 0, ""), m = "old", i = "old"} => 10 "malformed z line 168 Ended\n";
    b"make z 1 --source m --inputs i" {z, i = "old"} => 8 "write fault m\n" call 2;
    b"make z 1 --source m --inputs i" {z, m = ONE_TURN} => 8 "write fault i\n" call 3;
    b"make z 1 --source m --inputs i" {z, m = ONE_TURN, i = r#"{"advice":[1],"stack":[]}"#} => 9 "cycles 95\noutputs 0 0 0 0 0 0 " write 1;
};

#[test]
fn what_is_made_is_told(rt: HostRuntime) -> Result<(), Fail> {
    all_write(&rt, &ONE, "m", &Content::Text(ONE_TURN))?;
    all_write(&rt, &THREE, "i", &Content::Text(SQUARES))
}

#[test]
fn a_long_run_is_told_alike(rt: HostRuntime) -> Result<(), Fail> {
    all_hold(&rt, &MANY)
}

#[test]
fn what_fails_is_told(rt: HostRuntime) -> Result<(), Fail> {
    all_hold(&rt, &FAILED)
}

// The run of what was made for two turns, and its check.
static RUN_AGAIN: Row = row! {
    b"run z m i --out t --statement u" {} => 0 "cycles 174\noutputs 6 0 0 0 0 0 0 0 0 0 0 0 0 0 0 0 0\n"
};

static CHECKED: Row = row! {
    CHECK {} => 0 "accepted run\n"
};

#[test]
fn what_is_made_runs_again(rt: HostRuntime) -> Result<(), Fail> {
    let mut shelf = shelf_of(rt.alloc(), &TWO)?;
    let all = make_run_and_check(&rt, rt.alloc(), &mut shelf)?;
    assert!(rt; all);
    // the first turn's exclusive or: 1 with 2 is 3
    let operation = [0, 1, 2, 11].map(|column| bitwise_cell(&shelf, 7, column));
    assert_eq!(rt; operation, [1, 1, 2, 3]);
    Ok(())
}

fn make_run_and_check(
    rt: &(impl Threads + Sync),
    alloc: Global,
    shelf: &mut MemShelf,
) -> Result<bool, Memory> {
    Ok(
        answers(rt, alloc, &TWO, shelf)?
            && answers(rt, alloc, &RUN_AGAIN, shelf)?
            && answers(rt, alloc, &CHECKED, shelf)?,
    )
}

// A cell of the bitwise table of the table file; 0 where there is none.
fn bitwise_cell(shelf: &MemShelf, row: usize, column: usize) -> u64 {
    let bytes = shelf.get("t").unwrap_or(b"".as_slice());
    let main = number_at(bytes, 8, 4).wrapping_mul(65);
    let range = number_at(bytes, 12, 4).wrapping_mul(2);
    let hasher = number_at(bytes, 16, 4).wrapping_mul(15);
    let before = main.wrapping_add(range).wrapping_add(hasher) as usize;
    let place = row
        .wrapping_mul(12)
        .wrapping_add(column)
        .wrapping_add(before);
    number_at(bytes, place.wrapping_mul(8).wrapping_add(36), 8)
}

// The number of so many bytes, the lowest first.
fn number_at(bytes: &[u8], place: usize, size: usize) -> u64 {
    let mut number = 0u64;
    for i in 0..size {
        let at = place.wrapping_add(size).wrapping_sub(i).wrapping_sub(1);
        let byte = bytes.get(at).copied().unwrap_or(0);
        number = number.wrapping_mul(256).wrapping_add(u64::from(byte));
    }
    number
}

static WRONG: [&[u8]; 13] = [
    b"make z 0 --source m --inputs i",
    b"make z 1001 --source m --inputs i",
    b"make z 01 --source m --inputs i",
    b"make z one --source m --inputs i",
    b"make z 1 --source m --inputs m",
    b"make z 1 --source z --inputs i",
    b"make z 1 --source m --inputs z",
    b"make z 1 --source m",
    b"make z 1 --inputs i",
    b"make z --source m --inputs i",
    b"make z 1 2 --source m --inputs i",
    b"make z 1 --source m --inputs i --limit 5",
    b"make z 1 --source m --source n --inputs i",
];

#[test]
fn words_are_refused(rt: HostRuntime) -> Result<(), Fail> {
    all_wrong(&rt, &WRONG)
}
